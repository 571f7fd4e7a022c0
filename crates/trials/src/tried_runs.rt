// Random rules and records on every scale, and runs of calls over them.
use crate::any_rules::{Bounds, any_zone};
use crate::failure::Failure;
use crate::plain_records::{Form, Part, Told};
use crate::plain_rules::{Listed, Shape};
use crate::plain_scales::{Over, Plain, Whole};
use crate::plain_watches::Plainly;
use crate::random::Random;
use crate::tally::Tally;
use crate::tried_calls::Bench;
use logs::Log;
use records::{Grid, Record};
use rules::Rule;
use scales::{Counts, Obscuration, Panel, Scale, Verdict};

// How many short runs are tried on each scale, and how many with windows of some hundred polls.
const SHORT: u32 = 1_000;

const LONG: u32 = 10;

// At how many places a record is read before a run.
const READINGS: u32 = 20;

// A random lawful rule, made and as it is told.
#[derive(Drop)]
struct Tried {
    listed: Listed,
    shape: Shape,
    rule: Rule,
}

// One random list on a card of so many heads, or none where it is not lawful.
fn any_rule(
    rt: &HostRuntime,
    random: &mut Random,
    bounds: Bounds,
    card: u8,
) -> Result<Option<Tried>, Failure> {
    let zone = any_zone(rt.alloc(), random, card)?;
    let listed = bounds.list(rt.alloc(), random, zone)?;
    let Ok(shape) = listed.shape(rt.alloc())? else {
        return Ok(None);
    };
    let Ok(rule) = Rule::new(listed.entries.as_slice(), listed.heads()?) else {
        return Ok(None);
    };
    Ok(Some(Tried {
        listed,
        shape,
        rule,
    }))
}

// Whether a record has the heads and polls that are told of it, and at some places, outside too, the reading.
fn reads_as_told<R: Record>(random: &mut Random, told: &Told<R::Reading>, record: &R) -> bool
where
    R::Reading: Plain,
{
    for _ in 0..READINGS {
        let head = random.word(told.heads.saturating_add(2));
        let poll = random.word(told.polls.saturating_add(2));
        let expected = told
            .reading(Part::Whole, head, poll)
            .map(|reading| reading.word());
        let found = record.reading(head, poll).map(|reading| reading.word());
        if found != expected {
            return false;
        }
    }
    record.heads() == told.heads && record.polls() == told.polls
}

impl<'a, S: Scale + Copy> Bench<'a, S>
where
    S::Reading: Plain,
    S::Margin: Whole,
{
    // A record is read here and there, and then a run of calls goes over it.
    fn run_over<R: Record<Reading = S::Reading>>(
        &self,
        rt: &HostRuntime,
        random: &mut Random,
        told: &Told<S::Reading>,
        record: &R,
        tally: &mut Tally,
    ) -> Result<(), Failure> {
        if !reads_as_told(random, told, record) {
            println!(rt; "A record does not read as it is told: {told:?}")?;
            return Err(Failure::Disagreement);
        }
        self.run(rt, random, told, record, tally)
    }

    // A run over a random record, held as a grid, a log or a log with an index.
    fn any_run(
        &self,
        rt: &HostRuntime,
        random: &mut Random,
        near: i64,
        card: u32,
        tally: &mut Tally,
    ) -> Result<(), Failure> {
        let heap = self.plainly.heap;
        let polls = self.plainly.shape.horizon.saturating_add(random.word(60));
        let told: Told<S::Reading> = Told::any(heap, random, near, card, polls)?;
        tally.run();
        let form = told.form;
        let entries = told.entries.as_slice();
        match form {
            Form::Grid => {
                let grid = Grid::new(told.heads, told.polls, told.readings.as_slice());
                self.run_over(rt, random, &told, &grid, tally)
            }
            Form::Log => {
                let log = Log::new(told.heads, told.polls, entries, told.standing);
                self.run_over(rt, random, &told, &log, tally)
            }
            Form::Indexed => {
                let room = Log::<S::Reading>::marks_for(told.heads, entries.len());
                let mut marks = vec![in heap; 0usize; room]?;
                let log = Log::indexed(told.heads, told.polls, entries, told.standing, &mut marks);
                self.run_over(rt, random, &told, &log, tally)
            }
        }
    }
}

// What the rules of a turn keep to: short ones first, and in the last turns ones with long windows.
fn bounds(turn: u32, near: i64) -> Bounds {
    if turn < SHORT {
        Bounds {
            near,
            size: 9,
            reach: 8,
        }
    } else {
        Bounds {
            near,
            size: 4,
            reach: 300,
        }
    }
}

// Short and long runs on one scale.
fn on_scale<S: Scale + Copy>(
    rt: &HostRuntime,
    random: &mut Random,
    scale: S,
    layers: &[Over],
    name: &str,
) -> Result<(), Failure>
where
    S::Reading: Plain,
    S::Margin: Whole,
{
    let mut tally = Tally::NONE;
    for turn in 0..SHORT + LONG {
        let near = random.one_of(&[20, 20, 20, 300, 65_530]).unwrap_or(20);
        let card = random.byte(12).saturating_add(2);
        let bounds = bounds(turn, near);
        let Some(tried) = any_rule(rt, random, bounds, card)? else {
            continue;
        };
        let bench = Bench {
            rule: tried.rule,
            scale,
            plainly: Plainly {
                heap: rt.alloc(),
                listed: &tried.listed,
                shape: tried.shape,
                layers,
            },
        };
        // Now and then the record lacks the last head of the card.
        let lacking = random.once_in(12) as u8;
        let heads = card.saturating_sub(lacking);
        bench.any_run(rt, random, near, heads as u32, &mut tally)?;
    }
    tally.tell(rt, name)
}

fn on_counts(rt: &HostRuntime, random: &mut Random) -> Result<(), Failure> {
    let verdict = Verdict::over(Counts);
    let panel = Panel::over(Counts);
    let digit = Panel::over(verdict);
    on_scale(rt, random, Counts, &[], "counts")?;
    on_scale(rt, random, verdict, &[Over::Verdict], "their verdict")?;
    on_scale(rt, random, panel, &[Over::Panel], "their panel")?;
    on_scale(
        rt,
        random,
        digit,
        &[Over::Verdict, Over::Panel],
        "the panel of their verdict",
    )
}

fn on_obscuration(rt: &HostRuntime, random: &mut Random) -> Result<(), Failure> {
    let verdict = Verdict::over(Obscuration);
    let panel = Panel::over(Obscuration);
    on_scale(rt, random, Obscuration, &[], "obscuration")?;
    on_scale(rt, random, verdict, &[Over::Verdict], "its verdict")?;
    on_scale(rt, random, panel, &[Over::Panel], "its panel")
}

pub fn try_all(rt: &HostRuntime, random: &mut Random) -> Result<(), Failure> {
    println!(rt; "Runs of calls; every answer as the definitions say:")?;
    on_counts(rt, random)?;
    on_obscuration(rt, random)
}
