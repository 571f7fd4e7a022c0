// Every ground of rules, records and watches, each tried, with the sentence that it prints.
use crate::failure::Failure;
use crate::listed_entries::{either, head_test, nested, window};
use entries::{Entry, HeadSet};
use faults::{Fault, Ground, Layer, Place};
use logs::{Log, LogEntry};
use records::{Grid, Record};
use rules::Rule;
use scales::{CountMargin, Counts, Limit, Scale, Sense, Test};
use std::fmt::Display;
use watches::{ROWS, Watch, WatchFault, survey};

// Tells a refusal, or that it is not the one that was to come.
pub fn tell<F: Fault + Display + Drop>(
    rt: &HostRuntime,
    what: &str,
    fault: Option<F>,
    expected: Ground,
) -> Result<(), Failure> {
    let Some(fault) = fault else {
        println!(rt; "  {what}: not refused")?;
        return Err(Failure::Disagreement);
    };
    let number = expected.number;
    println!(rt; "  {number:>2}  {what}: {fault}")?;
    if fault.ground() != expected {
        println!(rt; "  but this was to come: {expected}")?;
        return Err(Failure::Disagreement);
    }
    Ok(())
}

fn at_entry(number: u8, layer: Layer, entry: usize) -> Ground {
    Ground {
        number,
        layer,
        place: Place::Entry(entry),
    }
}

fn rule(
    rt: &HostRuntime,
    what: &str,
    entries: &[Entry],
    zone: HeadSet,
    number: u8,
    entry: usize,
) -> Result<(), Failure> {
    let fault = Rule::new(entries, zone).err();
    tell(rt, what, fault, at_entry(number, Layer::Rule, entry))
}

fn of_rules(rt: &HostRuntime) -> Result<(), Failure> {
    let zone = HeadSet::starting();
    let test = head_test(0, 8);
    let sense = Entry { sense: 2, ..test };
    rule(rt, "no entry", &[], zone, 1, 0)?;
    rule(rt, "a zone of no head", &[test], HeadSet::empty(), 1, 0)?;
    rule(rt, "a sense of 2", &[sense], zone, 2, 0)?;
    rule(
        rt,
        "a window of 3 to 2",
        &[test, window(3, 2, 500)],
        zone,
        2,
        1,
    )?;
    rule(
        rt,
        "head 7 in a zone of head 0",
        &[test, head_test(7, 8), either()],
        zone,
        3,
        1,
    )?;
    rule(rt, "an either of one", &[test, either()], zone, 4, 1)?;
    rule(rt, "two tests", &[test, test], zone, 4, 1)?;
    rule(rt, "nested windows", &nested(1_218), zone, 5, 3)
}

fn grid(rt: &HostRuntime, what: &str, heads: u32, polls: u32) -> Result<(), Failure> {
    let fault = Grid::check(heads, polls, &[1i32, 2, 3]).err();
    let expected = Ground {
        number: 6,
        layer: Layer::Record,
        place: Place::Whole,
    };
    tell(rt, what, fault, expected)
}

fn log(rt: &HostRuntime, what: &str, places: [(u32, u32); 2], entry: usize) -> Result<(), Failure> {
    let entries = places.map(|(poll, head)| LogEntry {
        poll,
        head,
        word: 0,
    });
    let fault = Log::<i32>::check(2, 5, &entries).err();
    tell(rt, what, fault, at_entry(7, Layer::Log, entry))
}

fn of_records(rt: &HostRuntime) -> Result<(), Failure> {
    grid(rt, "no head", 0, 3)?;
    grid(rt, "65 heads", 65, 3)?;
    grid(rt, "too many polls", 1, 16_777_217)?;
    grid(rt, "3 readings of 2 heads", 2, 2)?;
    log(rt, "poll 5 of 5", [(0, 0), (5, 0)], 1)?;
    log(rt, "head 2 of 2", [(0, 2), (0, 0)], 0)?;
    log(rt, "polls 3 and 2", [(3, 0), (2, 1)], 1)?;
    log(rt, "a head twice", [(3, 1), (3, 1)], 1)
}

// A cell, which may hold any margin.
fn cell() -> Result<CountMargin, Failure> {
    let test = Test {
        sense: Sense::AtLeast,
        limit: Limit::new(8).ok_or(Failure::Setting)?,
    };
    Counts.test(0, test).ok_or(Failure::Setting)
}

fn watch(
    rt: &HostRuntime,
    what: &str,
    fault: Option<WatchFault>,
    number: u8,
    place: Place,
) -> Result<(), Failure> {
    let expected = Ground {
        number,
        layer: Layer::Watch,
        place,
    };
    tell(rt, what, fault, expected)
}

// A watch that has all the rows that it can take, and one step more.
fn full(rt: &HostRuntime, rule: Rule) -> Result<(), Failure> {
    let log: Log<i32> = Log::new(1, ROWS, &[], 9);
    let mut cells = [cell()?];
    let mut full = Watch::new(rule, Counts);
    let play = full.play(&mut cells, &log, 0, ROWS - 1);
    if play.rows != ROWS || play.fault.is_some() {
        println!(rt; "  a play of all polls is stopped: {play:?}")?;
        return Err(Failure::Disagreement);
    }
    let fault = full.step(&mut cells, &log, 0).err();
    watch(rt, "one row more", fault, 9, Place::Whole)
}

fn of_watches(rt: &HostRuntime) -> Result<(), Failure> {
    let rule = Rule::starting();
    let mut cells = [cell()?];
    let readings = [7, 65_536];
    let grid = Grid::new(1, 2, &readings);
    let mut tried = Watch::new(rule, Counts);
    let fault = tried.step(&mut [], &grid, 0).err();
    watch(rt, "no cell", fault, 8, Place::Whole)?;
    full(rt, rule)?;
    let fault = survey(&rule, &Counts, &mut cells, &grid, 2).err();
    watch(rt, "poll 2 of 2", fault, 10, Place::Whole)?;
    let fault = tried.step(&mut cells, &grid, 2).err();
    watch(
        rt,
        "a poll past the end",
        fault,
        11,
        Place::Reading { head: 0, poll: 2 },
    )?;
    let fault = tried.play(&mut cells, &grid, 0, 5).fault;
    watch(
        rt,
        "a reading of 65,536",
        fault,
        12,
        Place::Reading { head: 0, poll: 1 },
    )
}

pub fn try_all(rt: &HostRuntime) -> Result<(), Failure> {
    println!(rt; "Every refusal:")?;
    of_rules(rt)?;
    of_records(rt)?;
    of_watches(rt)
}
