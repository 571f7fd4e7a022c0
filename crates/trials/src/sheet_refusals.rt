// Every ground of sheets, each tried, with the sentence that it prints.
use crate::failure::Failure;
use crate::listed_entries::{head_test, nested, not, window};
use crate::outlines::{Outline, ToldGroup, ToldRule, ToldZone};
use crate::plain_sheets::{Against, Walk};
use crate::settled_readings::SHEET;
use crate::tried_refusals::tell;
use crate::tried_sheets::against;
use entries::Entry;
use faults::{Ground, Layer, Place};
use rules::RulePlace;
use sheets::{RULES, SheetFault, load};

fn ground(number: u8, place: Place) -> Ground {
    Ground {
        number,
        layer: Layer::Sheet,
        place,
    }
}

// Tells the fault of bytes.
fn bytes(
    rt: &HostRuntime,
    what: &str,
    sheet: &[u8],
    number: u8,
    place: Place,
) -> Result<(), Failure> {
    let mut places = [RulePlace::fresh(); RULES];
    let fault = load(sheet, &mut places).err();
    tell(rt, what, fault, ground(number, place))
}

// The settled sheet with some bytes changed.
fn changed(changes: &[(usize, u8)]) -> [u8; 35] {
    let mut sheet = SHEET;
    for (at, byte) in changes {
        if let Some(slot) = sheet.get_mut(*at) {
            *slot = *byte;
        }
    }
    sheet
}

// The settled sheet with one byte more in its test.
fn left_over(rt: &HostRuntime) -> Result<Vec<u8>, Failure> {
    let longer = changed(&[(0, 0x20), (5, 0x1b), (11, 0x15), (19, 0x0d), (25, 0x07)]);
    let mut sheet = Vec::from_slice(rt.alloc(), &longer)?;
    sheet.push(0)?;
    Ok(sheet)
}

fn of_form(rt: &HostRuntime) -> Result<(), Failure> {
    let first = changed(&[(0, 0x1e)]);
    let long = changed(&[(5, 0x1b)]);
    bytes(rt, "three bytes", &[0, 0, 1], 13, Place::Whole)?;
    bytes(rt, "a first byte 1E", &first, 13, Place::Whole)?;
    bytes(
        rt,
        "half a header",
        &[3, 0, 1, 0, 1, 0, 0],
        14,
        Place::Byte(5),
    )?;
    bytes(rt, "a group too long", &long, 14, Place::Byte(5))
}

fn of_kinds(rt: &HostRuntime) -> Result<(), Failure> {
    let zone = changed(&[(7, 3)]);
    let formula = changed(&[(27, 22)]);
    let longer = left_over(rt)?;
    bytes(rt, "a zone in the sheet", &zone, 15, Place::Byte(5))?;
    bytes(rt, "a kind 22", &formula, 15, Place::Byte(25))?;
    bytes(rt, "no field", &[0, 0, 1, 0], 16, Place::Byte(0))?;
    bytes(
        rt,
        "a test of 7 bytes",
        longer.as_slice(),
        16,
        Place::Byte(25),
    )
}

// A rule of a few entries.
fn rule(rt: &HostRuntime, number: u16, entries: &[Entry]) -> Result<ToldRule, Failure> {
    Ok(ToldRule {
        number,
        entries: Vec::from_slice(rt.alloc(), entries)?,
    })
}

// A zone with no rules.
fn zone(rt: &HostRuntime, number: u16, heads: &[u8]) -> Result<ToldZone, Failure> {
    Ok(ToldZone {
        number,
        heads: Vec::from_slice(rt.alloc(), heads)?,
        rules: Vec::new(rt.alloc()),
    })
}

// A card of so many heads with one group, of one zone with head 0.
fn card(rt: &HostRuntime, total: u8, name: &[u8]) -> Result<Outline, Failure> {
    let heap = rt.alloc();
    let mut zones = Vec::new(heap);
    zones.push(zone(rt, 1, &[0])?)?;
    let mut groups = Vec::new(heap);
    groups.push(ToldGroup {
        name: Vec::from_slice(heap, name)?,
        zones,
    })?;
    Ok(Outline { total, groups })
}

// Tells the fault of an outline as it is spelled, for so many places; the second reader is to say the same.
fn outline(
    rt: &HostRuntime,
    what: &str,
    outline: &Outline,
    count: usize,
    number: u8,
    place: Place,
) -> Result<(), Failure> {
    let sheet = outline.spell(rt.alloc())?;
    let mut places = [RulePlace::fresh(); RULES];
    let lent = places.get_mut(..count).unwrap_or(&mut []);
    let fault = load(sheet.as_slice(), lent).err();
    let found: Option<Against> = fault.map(|fault| against(fault));
    let expected = Walk::new(rt.alloc(), outline.total).read(outline, count)?;
    tell(rt, what, fault, ground(number, place))?;
    if found != expected {
        println!(rt; "  but the second reader says {expected:?}")?;
        return Err(Failure::Disagreement);
    }
    Ok(())
}

fn of_fields(rt: &HostRuntime) -> Result<(), Failure> {
    let none = card(rt, 0, b"A")?;
    outline(rt, "a card of no head", &none, RULES, 17, Place::Byte(0))?;
    let nameless = card(rt, 1, b"")?;
    outline(
        rt,
        "a name of no byte",
        &nameless,
        RULES,
        17,
        Place::Byte(5),
    )?;
    let bell = card(rt, 1, b"\x07")?;
    outline(rt, "a bell in a name", &bell, RULES, 17, Place::Byte(5))?;
    let empty = zoned(rt, 1, zone(rt, 1, &[])?)?;
    outline(rt, "a zone of no head", &empty, RULES, 17, Place::Byte(19))
}

// The card of one zone with another zone behind it.
fn zoned(rt: &HostRuntime, total: u8, other: ToldZone) -> Result<Outline, Failure> {
    let mut outline = card(rt, total, b"A")?;
    if let Some(group) = outline.groups.last_mut() {
        group.zones.push(other)?;
    }
    Ok(outline)
}

// The card of one zone with these rules in it.
fn ruled(rt: &HostRuntime, rules: Vec<ToldRule>) -> Result<Outline, Failure> {
    let mut outline = card(rt, 1, b"A")?;
    if let Some(group) = outline.groups.last_mut() {
        if let Some(zone) = group.zones.last_mut() {
            zone.rules = rules;
        }
    }
    Ok(outline)
}

fn of_numbers(rt: &HostRuntime) -> Result<(), Failure> {
    let above = zoned(rt, 2, zone(rt, 2, &[2])?)?;
    outline(rt, "head 2 of 2", &above, RULES, 18, Place::Byte(19))?;
    let falling = zoned(rt, 3, zone(rt, 2, &[2, 1])?)?;
    outline(rt, "heads 2 and 1", &falling, RULES, 18, Place::Byte(19))?;
    let shared = zoned(rt, 2, zone(rt, 2, &[0, 1])?)?;
    outline(
        rt,
        "a head of two zones",
        &shared,
        RULES,
        18,
        Place::Byte(19),
    )?;
    let twice = zoned(rt, 2, zone(rt, 1, &[1])?)?;
    outline(
        rt,
        "a zone's number twice",
        &twice,
        RULES,
        18,
        Place::Byte(19),
    )?;
    let mut rules = Vec::new(rt.alloc());
    rules.push(rule(rt, 7, &[head_test(0, 8)])?)?;
    rules.push(rule(rt, 7, &[head_test(0, 9)])?)?;
    let same = ruled(rt, rules)?;
    outline(
        rt,
        "a rule's number twice",
        &same,
        RULES,
        18,
        Place::Byte(35),
    )?;
    let alone = card(rt, 2, b"A")?;
    outline(rt, "head 1 in no zone", &alone, RULES, 18, Place::Whole)
}

// A sheet with one group, zone, rule or formula above the most.
fn of_sizes(rt: &HostRuntime) -> Result<(), Failure> {
    let heap = rt.alloc();
    let mut groups = card(rt, 1, b"A")?;
    for _ in 0..16 {
        groups.groups.push(ToldGroup {
            name: vec![in heap; b'B']?,
            zones: Vec::new(heap),
        })?;
    }
    outline(rt, "17 groups", &groups, RULES, 19, Place::Byte(109))?;
    let mut zones = card(rt, 33, b"A")?;
    if let Some(group) = zones.groups.last_mut() {
        for head in 1..33u8 {
            group.zones.push(zone(rt, head as u16 + 1, &[head])?)?;
        }
    }
    outline(rt, "33 zones", &zones, RULES, 19, Place::Byte(267))?;
    let mut rules = Vec::new(heap);
    for number in 0..65 {
        rules.push(rule(rt, number, &[head_test(0, 8)])?)?;
    }
    let rules = ruled(rt, rules)?;
    outline(rt, "65 rules", &rules, RULES, 19, Place::Byte(1_043))?;
    let mut entries = [not(); 25];
    entries[0] = head_test(0, 8);
    let mut long = Vec::new(heap);
    long.push(rule(rt, 7, &entries)?)?;
    let long = ruled(rt, long)?.spell(heap)?;
    bytes(rt, "25 formulas", long.as_slice(), 19, Place::Byte(121))
}

// A sheet whose one rule has a fault of its own.
fn inner(rt: &HostRuntime, what: &str, entries: &[Entry]) -> Result<(), Failure> {
    let mut rules = Vec::new(rt.alloc());
    rules.push(rule(rt, 7, entries)?)?;
    let sheet = ruled(rt, rules)?;
    outline(rt, what, &sheet, RULES, 20, Place::Byte(19))
}

fn of_rules(rt: &HostRuntime) -> Result<(), Failure> {
    let test = head_test(0, 8);
    inner(rt, "a share of 0", &[test, window(0, 3, 0)])?;
    inner(rt, "a head of no zone", &[head_test(5, 8)])?;
    inner(rt, "nested windows", &nested(1_218))?;
    let mut rules = Vec::new(rt.alloc());
    rules.push(rule(rt, 7, &[test])?)?;
    let one = ruled(rt, rules)?;
    outline(rt, "one rule for no place", &one, 0, 21, Place::Whole)
}

pub fn try_all(rt: &HostRuntime) -> Result<(), Failure> {
    of_form(rt)?;
    of_kinds(rt)?;
    of_fields(rt)?;
    of_numbers(rt)?;
    of_sizes(rt)?;
    of_rules(rt)
}
