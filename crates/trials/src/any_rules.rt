// Random rules as a caller lists them.
use crate::failure::Failure;
use crate::plain_rules::Listed;
use crate::random::Random;
use entries::Entry;
use std::alloc::Global;

// Values about the edges of what is in range.
const KINDS: [u8; 10] = [0, 15, 16, 17, 18, 19, 20, 21, 22, 255];

const LIMITS: [i32; 4] = [1_048_576, 1_048_577, -1_048_576, -1_048_577];

const LASTS: [u16; 6] = [0, 1_438, 1_439, 1_440, 1_441, 65_535];

const SHARES: [u16; 4] = [0, 1, 1_000, 1_001];

// What random rules keep to.
#[derive(Clone, Copy)]
pub struct Bounds {
    // About which limit the tests are.
    pub near: i64,
    // The most entries at which no formula is begun any more.
    pub size: u64,
    // The last poll of a window is below this.
    pub reach: u16,
}

// The heads of a zone on a card of so many heads, rising.
pub fn any_zone(heap: Global, random: &mut Random, card: u8) -> Result<Vec<u8>, Failure> {
    let times = random.one_of(&[2, 4, 16, 64]).unwrap_or(4);
    let mut zone = Vec::new(heap);
    for head in 0..card {
        if random.once_in(times) && zone.len() < 32 {
            zone.push(head)?;
        }
    }
    if zone.is_empty() {
        zone.push(random.byte(card))?;
    }
    Ok(zone)
}

// The kind of an either or of a both.
fn either_or_both(random: &mut Random) -> u8 {
    if random.once_in(2) { 19 } else { 20 }
}

impl Bounds {
    // A test of a head, or of the zone.
    fn test(self, random: &mut Random, zone: &[u8]) -> Entry {
        let near = random.between(self.near.saturating_sub(9), self.near.saturating_add(9));
        let blank = Entry {
            sense: random.byte(2),
            limit: i32::try_from(near).unwrap_or(0),
            ..Entry::BLANK
        };
        let heads = u8::try_from(zone.len()).unwrap_or(1);
        if random.once_in(3) {
            Entry {
                kind: 17,
                k: random.byte(heads).saturating_add(1),
                ..blank
            }
        } else {
            Entry {
                kind: 16,
                head: random.one_of(zone).unwrap_or(0),
                ..blank
            }
        }
    }

    fn window(self, random: &mut Random) -> Entry {
        let last = random.short(self.reach);
        let first = match random.below(3) {
            0 => random.short(last.saturating_add(1)),
            _ => 0,
        };
        let share = match random.below(4) {
            0 => 1_000,
            1 => 1,
            _ => random.short(1_000).saturating_add(1),
        };
        Entry {
            kind: 21,
            first,
            last,
            share,
            ..Entry::BLANK
        }
    }

    // The next entry where so many formulas are open, and how many are open then.
    fn next(self, random: &mut Random, zone: &[u8], open: u64) -> (Entry, u64) {
        let choice = random.below(10);
        if open >= 2 && choice < 3 {
            let kind = either_or_both(random);
            return (
                Entry {
                    kind,
                    ..Entry::BLANK
                },
                open.saturating_sub(1),
            );
        }
        if open >= 1 && choice < 5 {
            let kind = 18;
            return (
                Entry {
                    kind,
                    ..Entry::BLANK
                },
                open,
            );
        }
        if open >= 1 && choice < 7 {
            return (self.window(random), open);
        }
        (self.test(random, zone), open.saturating_add(1))
    }

    // A list that spells a formula, unless it grows too long or looks too far.
    pub fn list(self, heap: Global, random: &mut Random, zone: Vec<u8>) -> Result<Listed, Failure> {
        let mut entries = Vec::new(heap);
        let mut open = 0;
        for _ in 0..random.below(self.size).saturating_add(1) {
            let (entry, then) = self.next(random, zone.as_slice(), open);
            entries.push(entry)?;
            open = then;
        }
        for _ in 1..open {
            let kind = either_or_both(random);
            entries.push(Entry {
                kind,
                ..Entry::BLANK
            })?;
        }
        Ok(Listed { entries, zone })
    }
}

// The entry with one field, kind apart, that may be out of range.
pub fn any_field(random: &mut Random, entry: Entry) -> Entry {
    match random.below(7) {
        0 => Entry {
            head: random.byte(80),
            ..entry
        },
        1 => Entry {
            k: random.byte(40),
            ..entry
        },
        2 => Entry {
            sense: random.byte(4),
            ..entry
        },
        3 => Entry {
            limit: random.one_of(&LIMITS).unwrap_or(0),
            ..entry
        },
        4 => Entry {
            first: random.short(1_500),
            ..entry
        },
        5 => Entry {
            last: random.one_of(&LASTS).unwrap_or(0),
            ..entry
        },
        _ => Entry {
            share: random.one_of(&SHARES).unwrap_or(0),
            ..entry
        },
    }
}

// The entry with another kind or another field.
fn spoilt(random: &mut Random, entry: Entry) -> Entry {
    if random.once_in(7) {
        let kind = random.one_of(&KINDS).unwrap_or(0);
        return Entry { kind, ..entry };
    }
    any_field(random, entry)
}

impl Listed {
    // Spoils it in one place: a field, an entry more or less, or the zone.
    pub fn spoil(&mut self, random: &mut Random) -> Result<(), Failure> {
        let at = random.place(self.entries.len());
        match random.below(8) {
            0 => {
                if at < self.entries.len() {
                    self.entries.remove(at);
                }
            }
            1 => {
                let kind = random.byte(6).saturating_add(16);
                self.entries.push(Entry {
                    kind,
                    k: 1,
                    share: 1,
                    ..Entry::BLANK
                })?;
            }
            2 => {
                if random.once_in(4) {
                    self.zone.clear();
                }
            }
            _ => {
                if let Some(entry) = self.entries.get_mut(at) {
                    *entry = spoilt(random, *entry);
                }
            }
        }
        Ok(())
    }
}
