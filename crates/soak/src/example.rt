// A small soak worked out from its readings to its margins.
use crate::failure::Failure;
use crate::question::Question;
use crate::written::{head_test, zone_test};
use entries::{HeadSet, Operation};
use records::{Grid, Record};
use rules::Rule;
use runs::rank;
use scales::{Counts, Obscuration, Panel, Verdict};
use watches::{Answer, Watch};
use worked::may_wander;

// What one head read, poll by poll.
const READINGS: [i32; 8] = [5, 9, 12, 7, 10, 3, 8, 11];

// What three heads of a zone read at one poll.
const ZONE: [i32; 3] = [40, 55, 50];

// What one head read in percent per metre.
const OBSCURATION: [f32; 1] = [1.25];

// Readings of which the third is one too many for a count.
const TOO_HIGH: [i32; 4] = [5, 65_535, 65_536, 7];

// A day of polls, one a minute.
const DAY: u16 = 1_440;

// The whole example: a window over one head, a count over a zone, obscuration, and what is refused.
pub fn show(rt: &HostRuntime) -> Result<(), Failure> {
    println!(rt; "A small soak, worked out from its readings to its margins.")?;
    show_window(rt)?;
    show_zone(rt)?;
    show_obscuration(rt)?;
    show_refused_rule(rt)?;
    show_refused_row(rt)
}

// What is asked of a record, with the memory of the system.
fn asked<'a, S, R>(rt: &HostRuntime, scale: S, rule: Rule, record: &'a R) -> Question<'a, S, R> {
    Question {
        heap: rt.alloc(),
        scale,
        rule,
        record,
    }
}

// A window over one head: its margin and verdict at each poll from which the record has all its polls.
fn show_window(rt: &HostRuntime) -> Result<(), Failure> {
    let window = Operation::Window {
        first: 0,
        last: 3,
        share: 500,
    };
    let rule = Rule::new(&[head_test(0, 8), window.into()], HeadSet::starting())?;
    let horizon = rule.horizon();
    let need = rule.need();
    println!(rt)?;
    println!(rt; "Head 0 reads 5 9 12 7 10 3 8 11, one reading a poll.")?;
    println!(rt;
        "Rule: over polls t to t + 3, at least 500 thousandths of them: head at least 8."
    )?;
    println!(rt; "It looks {horizon} polls ahead and needs {need} cells.")?;
    let soak = Grid::new(1, 8, &READINGS);
    let margins = asked(rt, Counts, rule, &soak).watched()?;
    let verdicts = asked(rt, Verdict::over(Counts), rule, &soak).watched()?;
    for (poll, (margin, verdict)) in margins.iter().zip(verdicts.iter()).enumerate() {
        println!(rt; "  poll {poll}: margin {margin}, {verdict}")?;
    }
    let mut cells = asked(rt, Counts, rule, &soak).cells()?;
    if let Some(steps) = may_wander(rule, &mut cells, &soak, 0, 7) {
        println!(rt;
            "With the margin at poll 4, head 0 may read {steps} step off at any poll with no other verdict there."
        )?;
    }
    let fewer = rank(950, DAY);
    let more = rank(951, DAY);
    println!(rt; "Of a day's {DAY} polls, 950 thousandths are {fewer} polls, and 951 are {more}.")?;
    Ok(())
}

// The second and the third highest test of a zone's heads, by a survey.
fn show_zone(rt: &HostRuntime) -> Result<(), Failure> {
    let zone = HeadSet::of(&[0, 1, 2]).ok_or(Failure::Zone)?;
    let soak = Grid::new(3, 1, &ZONE);
    println!(rt)?;
    println!(rt; "The heads of a zone read 40, 55 and 50.")?;
    for k in 2..4u8 {
        let rule = Rule::new(&[zone_test(k, 45)], zone)?;
        let margin = asked(rt, Counts, rule, &soak).surveyed()?;
        let verdict = asked(rt, Verdict::over(Counts), rule, &soak).surveyed()?;
        println!(rt; "Rule: {k} of its heads at least 45: margin {margin}, {verdict}.")?;
    }
    Ok(())
}

// One reading in percent per metre, and what the panel shows of it.
fn show_obscuration(rt: &HostRuntime) -> Result<(), Failure> {
    let rule = Rule::new(&[head_test(0, 256)], HeadSet::starting())?;
    let soak = Grid::new(1, 1, &OBSCURATION);
    let margin = asked(rt, Obscuration, rule, &soak).surveyed()?.value();
    let digit = asked(rt, Panel::over(Obscuration), rule, &soak).surveyed()?;
    println!(rt)?;
    println!(rt; "A head reads an obscuration of 1.25 percent per metre.")?;
    println!(rt;
        "Rule: at least 256 steps of 1/256: margin {margin} percent per metre, {digit} on the panel."
    )?;
    Ok(())
}

// A rule whose second test names a head that is not in its zone.
fn show_refused_rule(rt: &HostRuntime) -> Result<(), Failure> {
    println!(rt)?;
    println!(rt; "A rule that tests head 7 in a zone of head 0 is no rule:")?;
    let entries = [head_test(0, 8), head_test(7, 8), Operation::Either.into()];
    if let Err(fault) = Rule::new(&entries, HeadSet::starting()) {
        println!(rt; "  {fault}")?;
    }
    Ok(())
}

// A play that a row stops: it keeps the rows before, and another goes on behind it.
fn show_refused_row(rt: &HostRuntime) -> Result<(), Failure> {
    let rule = Rule::new(&[head_test(0, 8)], HeadSet::starting())?;
    let soak = Grid::new(1, 4, &TOO_HIGH);
    println!(rt)?;
    println!(rt; "A play over 5, 65535, 65536 and 7 is stopped by the third:")?;
    let mut cells = asked(rt, Counts, rule, &soak).cells()?;
    let mut watch = Watch::new(rule, Counts);
    let play = watch.play(&mut cells, &soak, 0, 3);
    println!(rt; "  {} rows taken", play.rows)?;
    if let Some(fault) = play.fault {
        println!(rt; "  {fault}")?;
    }
    let play = watch.play(&mut cells, &soak, 3, 3);
    println!(rt; "  {} row taken of poll 3", play.rows)?;
    match watch.ask(&cells)? {
        Answer::Waiting { rows } => println!(rt; "  {rows} rows to come")?,
        Answer::At { poll, margin } => println!(rt; "  row {poll} has margin {margin}")?,
    }
    Ok(())
}
