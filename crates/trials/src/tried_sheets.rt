// Random sheets: what the library loads of them, beside the second reader, and bytes that no writer wrote.
use crate::failure::Failure;
use crate::outlines::Outline;
use crate::plain_sheets::{Against, Line, Walk};
use crate::random::Random;
use entries::{Entry, HeadSet};
use faults::{Fault, Layer};
use rules::{ENTRIES, Rule, RulePlace};
use sheets::{Loaded, SheetFault, load};

// How many outlines are tried, and how many sheets with bytes changed, cut or swapped.
const OUTLINES: u32 = 4_000;

const BYTES: u32 = 10_000;

// More places than rules, so that there are always some behind.
const PLACES: usize = 66;

// A place that no rule stands in yet.
pub fn filler() -> RulePlace {
    RulePlace {
        count: 7,
        rule_number: 999,
        zone_number: 998,
        ..RulePlace::fresh()
    }
}

// Whether two places hold the same.
pub fn is_same(a: &RulePlace, b: &RulePlace) -> bool {
    a.entries == b.entries
        && a.count == b.count
        && a.zone == b.zone
        && a.rule_number == b.rule_number
        && a.zone_number == b.zone_number
}

// Whether the places hold nothing from one on.
fn are_free(places: &[RulePlace], from: usize) -> bool {
    places
        .iter()
        .skip(from)
        .all(|place| is_same(place, &filler()))
}

// The place that is to hold a rule.
pub fn place_of(line: &Line) -> Result<RulePlace, Failure> {
    let mut entries = [Entry::BLANK; ENTRIES];
    for (slot, entry) in entries.iter_mut().zip(line.entries.iter()) {
        *slot = plain_entry(*entry);
    }
    Ok(RulePlace {
        entries,
        count: u8::try_from(line.entries.len()).unwrap_or(u8::MAX),
        zone: HeadSet::of(line.zone.as_slice()).ok_or(Failure::Setting)?,
        rule_number: line.rule_number,
        zone_number: line.zone_number,
    })
}

// An entry with the fields of its kind alone.
fn plain_entry(entry: Entry) -> Entry {
    let blank = Entry {
        kind: entry.kind,
        ..Entry::BLANK
    };
    match entry.kind {
        16 => Entry {
            head: entry.head,
            sense: entry.sense,
            limit: entry.limit,
            ..blank
        },
        17 => Entry {
            k: entry.k,
            sense: entry.sense,
            limit: entry.limit,
            ..blank
        },
        21 => Entry {
            first: entry.first,
            last: entry.last,
            share: entry.share,
            ..blank
        },
        _ => blank,
    }
}

pub fn against(fault: SheetFault) -> Against {
    let inner = match fault {
        SheetFault::Rule { fault, .. } => Some(fault.ground()),
        _ => None,
    };
    Against {
        ground: fault.ground(),
        inner,
    }
}

// Whether a load answers what was read of the outline.
fn agrees(
    walk: &Walk,
    expected: Option<Against>,
    found: Result<Loaded, SheetFault>,
    places: &[RulePlace],
) -> Result<bool, Failure> {
    let loaded = match found {
        Err(fault) => return Ok(expected == Some(against(fault)) && are_free(places, 0)),
        Ok(loaded) => loaded,
    };
    for (line, place) in walk.lines.iter().zip(places.iter()) {
        if !is_same(&place_of(line)?, place) {
            return Ok(false);
        }
    }
    let rules = walk.lines.len();
    let numbers = Loaded {
        groups: walk.groups,
        zones: walk.zone_count(),
        rules,
    };
    Ok(expected.is_none() && loaded == numbers && are_free(places, rules))
}

// Tries an outline, and says whether it is lawful.
fn try_outline(rt: &HostRuntime, random: &mut Random, outline: &Outline) -> Result<bool, Failure> {
    let bytes = outline.spell(rt.alloc())?;
    let mut places = [filler(); PLACES];
    let count = if random.once_in(9) {
        random.place(12)
    } else {
        PLACES
    };
    let lent = places.get_mut(..count).unwrap_or(&mut []);
    let found = load(bytes.as_slice(), lent);
    let mut walk = Walk::new(rt.alloc(), outline.total);
    let expected = walk.read(outline, count)?;
    if !agrees(&walk, expected, found, &places)? {
        println!(rt; "A sheet is not loaded as its outline says.")?;
        println!(rt; "  the outline, for {count} places: {outline:?}")?;
        println!(rt; "  expected: {expected:?}")?;
        println!(rt; "  found: {found:?}")?;
        return Err(Failure::Disagreement);
    }
    Ok(found.is_ok())
}

// Changes bytes: one, some cut off, one more, or two that change places.
fn change(random: &mut Random, bytes: &mut Vec<u8>) -> Result<(), Failure> {
    let at = random.place(bytes.len());
    let other = random.place(bytes.len());
    match random.below(5) {
        0 => bytes.truncate(at),
        1 => bytes.push(random.byte(255))?,
        2 => {
            if at < bytes.len() && other < bytes.len() {
                bytes.swap(at, other);
            }
        }
        3 => {
            // A small change of one byte, as of a length.
            if let Some(byte) = bytes.get_mut(at) {
                *byte = byte.wrapping_add(random.one_of(&[1, 255, 4, 252]).unwrap_or(1));
            }
        }
        _ => {
            if let Some(byte) = bytes.get_mut(at) {
                *byte = random.byte(255);
            }
        }
    }
    Ok(())
}

// Whether what a load of any bytes answers can be: a ground of the sheet and no place changed, or lawful rules.
fn is_answer(found: Result<Loaded, SheetFault>, places: &[RulePlace]) -> bool {
    match found {
        Err(fault) => {
            let ground = fault.ground();
            ground.layer == Layer::Sheet
                && (13..=21).contains(&ground.number)
                && are_free(places, 0)
        }
        Ok(loaded) => {
            let rules = loaded.rules;
            rules <= 64
                && are_free(places, rules)
                && places.iter().take(rules).all(|place| {
                    let entries = place.entries.get(..place.count as usize).unwrap_or(&[]);
                    Rule::new(entries, place.zone).is_ok()
                })
        }
    }
}

// Tries bytes, and says whether they are a lawful sheet.
fn try_bytes(rt: &HostRuntime, bytes: &[u8]) -> Result<bool, Failure> {
    let mut places = [filler(); PLACES];
    let found = load(bytes, &mut places);
    if !is_answer(found, &places) {
        println!(rt; "A load answers what it cannot: {found:?} of {bytes:?}")?;
        return Err(Failure::Disagreement);
    }
    Ok(found.is_ok())
}

fn try_outlines(rt: &HostRuntime, random: &mut Random) -> Result<u32, Failure> {
    let mut lawful = 0u32;
    for _ in 0..OUTLINES {
        let mut outline = Outline::any(rt.alloc(), random)?;
        for _ in 0..random.below(3) {
            outline.spoil(rt.alloc(), random)?;
        }
        if try_outline(rt, random, &outline)? {
            lawful = lawful.saturating_add(1);
        }
    }
    Ok(lawful)
}

fn try_changed(rt: &HostRuntime, random: &mut Random) -> Result<u32, Failure> {
    let mut lawful = 0u32;
    for _ in 0..BYTES {
        let outline = Outline::any(rt.alloc(), random)?;
        let mut bytes = outline.spell(rt.alloc())?;
        for _ in 0..random.below(3).saturating_add(1) {
            change(random, &mut bytes)?;
        }
        if try_bytes(rt, bytes.as_slice())? {
            lawful = lawful.saturating_add(1);
        }
    }
    Ok(lawful)
}

pub fn try_all(rt: &HostRuntime, random: &mut Random) -> Result<(), Failure> {
    let lawful = try_outlines(rt, random)?;
    println!(rt;
        "Sheets: {OUTLINES} outlines, {lawful} of them lawful; all loaded or refused as the definitions say."
    )?;
    let lawful = try_changed(rt, random)?;
    println!(rt;
        "Bytes: {BYTES} sheets changed, {lawful} of them lawful still; all others refused, and no place changed."
    )?;
    Ok(())
}
