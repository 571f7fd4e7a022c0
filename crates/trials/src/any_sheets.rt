// Random outlines of sheets, and what may spoil one.
use crate::any_rules::{Bounds, any_field};
use crate::failure::Failure;
use crate::outlines::{Outline, ToldGroup, ToldRule, ToldZone};
use crate::random::Random;
use entries::Entry;
use std::alloc::Global;

// The numbers that zones and rules are given, each once.
#[derive(Clone, Copy)]
struct Numbers {
    next: u16,
    step: u16,
}

impl Numbers {
    fn any(random: &mut Random) -> Numbers {
        Numbers {
            next: random.short(u16::MAX),
            step: random.short(90).wrapping_mul(2).wrapping_add(1),
        }
    }

    fn give(&mut self) -> u16 {
        let number = self.next;
        self.next = self.next.wrapping_add(self.step);
        number
    }
}

// The heads of so many zones of a card, each head in one: the first heads one to each, the others anywhere.
fn any_zones(
    heap: Global,
    random: &mut Random,
    total: u8,
    count: usize,
) -> Result<Vec<Vec<u8>>, Failure> {
    let mut zones: Vec<Vec<u8>> = Vec::new(heap);
    for head in 0..total {
        if zones.len() < count {
            zones.push(vec![in heap; head]?)?;
            continue;
        }
        let first = random.place(count);
        let free = (first..count).chain(0..first).find(|at| {
            zones.get(*at).is_some_and(|zone| zone.len() < 32)
        });
        if let Some(zone) = zones.get_mut(free.unwrap_or(0)) {
            zone.push(head)?;
        }
    }
    Ok(zones)
}

fn any_name(heap: Global, random: &mut Random) -> Result<Vec<u8>, Failure> {
    let mut name = Vec::new(heap);
    for _ in 0..random.below(24).saturating_add(1) {
        name.push(random.byte(95).saturating_add(32))?;
    }
    Ok(name)
}

// The rules of a zone: few, of a shape that a sheet can spell.
fn any_rules(
    heap: Global,
    random: &mut Random,
    heads: &[u8],
    numbers: &mut Numbers,
) -> Result<Vec<ToldRule>, Failure> {
    let bounds = Bounds {
        near: 40,
        size: 9,
        reach: 400,
    };
    let mut rules = Vec::new(heap);
    for _ in 0..random.below(4) {
        let zone = Vec::from_slice(heap, heads)?;
        let entries = bounds.list(heap, random, zone)?.entries;
        rules.push(ToldRule {
            number: numbers.give(),
            entries,
        })?;
    }
    Ok(rules)
}

impl Outline {
    // A random outline, mostly lawful.
    pub fn any(heap: Global, random: &mut Random) -> Result<Outline, Failure> {
        let total = random.byte(64).saturating_add(1);
        let least = if total > 32 { 2 } else { 1 };
        let count = random.between(least, total.min(32) as i64).unsigned_abs() as usize;
        let mut zone_numbers = Numbers::any(random);
        let mut rule_numbers = Numbers::any(random);
        let mut groups: Vec<ToldGroup> = Vec::new(heap);
        for heads in any_zones(heap, random, total, count)? {
            if groups.is_empty() || (groups.len() < 16 && random.once_in(3)) {
                groups.push(ToldGroup {
                    name: any_name(heap, random)?,
                    zones: Vec::new(heap),
                })?;
            }
            let rules = any_rules(heap, random, heads.as_slice(), &mut rule_numbers)?;
            let zone = ToldZone {
                number: zone_numbers.give(),
                heads,
                rules,
            };
            if let Some(group) = groups.last_mut() {
                group.zones.push(zone)?;
            }
        }
        Ok(Outline { total, groups })
    }
}

// Spoils one of a group's zones: its number, a head, or a field of a rule.
fn spoil_zone(random: &mut Random, group: &mut ToldGroup) -> Result<(), Failure> {
    let at = random.place(group.zones.len());
    let Some(zone) = group.zones.get_mut(at) else {
        return Ok(());
    };
    match random.below(5) {
        0 => zone.number = random.short(4),
        1 => zone.heads.push(random.byte(66))?,
        2 => {
            let at = random.place(zone.heads.len());
            if let Some(head) = zone.heads.get_mut(at) {
                *head = random.byte(66);
            }
        }
        3 => {
            let _ = zone.heads.pop();
        }
        _ => {
            let at = random.place(zone.rules.len());
            if let Some(rule) = zone.rules.get_mut(at) {
                spoil_rule(random, rule);
            }
        }
    }
    Ok(())
}

// Spoils a rule: its number, or a field of an entry, kind apart.
fn spoil_rule(random: &mut Random, rule: &mut ToldRule) {
    if random.once_in(4) {
        rule.number = random.short(4);
        return;
    }
    let at = random.place(rule.entries.len());
    if let Some(entry) = rule.entries.get_mut(at) {
        *entry = any_field(random, *entry);
    }
}

impl Outline {
    // Spoils it in one place.
    pub fn spoil(&mut self, heap: Global, random: &mut Random) -> Result<(), Failure> {
        let at = random.place(self.groups.len());
        match random.below(12) {
            0 => self.total = random.byte(70),
            1 => {
                if let Some(group) = self.groups.get_mut(at) {
                    let byte = random.one_of(&[31, 32, 126, 127, 255]).unwrap_or(0);
                    group.name.push(byte)?;
                }
            }
            2 => {
                if let Some(group) = self.groups.get_mut(at) {
                    group.name.clear();
                }
            }
            3 => {
                for _ in 0..random.below(18) {
                    self.groups.push(ToldGroup {
                        name: any_name(heap, random)?,
                        zones: Vec::new(heap),
                    })?;
                }
            }
            _ => {
                if let Some(group) = self.groups.get_mut(at) {
                    spoil_zone(random, group)?;
                }
            }
        }
        Ok(())
    }
}
