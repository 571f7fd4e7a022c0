// Readings whose answers are settled one by one, of the library and of the second evaluator.
use crate::failure::Failure;
use crate::listed_entries::{head_test, nested};
use crate::plain_records::{Form, Part, Told};
use crate::plain_rules::Listed;
use crate::plain_scales::{Plain, Whole};
use crate::plain_sheets::Line;
use crate::plain_watches::{Outcome, Plainly};
use crate::random::Random;
use crate::tried_calls::Bench;
use crate::tried_sheets::{filler, is_same, place_of};
use entries::HeadSet;
use faults::{Fault, Ground, Layer, Place};
use logs::{Log, LogEntry};
use records::{Grid, Record};
use rules::{Rule, RulePlace};
use scales::{Counts, Obscuration, Scale};
use sheets::{Loaded, load};

// A sheet of one group, one zone and one rule: head 0 at least 8.
pub const SHEET: [u8; 35] = [
    0x1f, 0x00, 0x01, 0x00, 0x01, 0x1a, 0x00, 0x02, 0x00, 0x01, 0x41, 0x14, 0x00, 0x03, 0x00, 0x01,
    0x00, 0x01, 0x00, 0x0c, 0x00, 0x04, 0x00, 0x07, 0x00, 0x06, 0x00, 0x10, 0x00, 0x00, 0x00, 0x08,
    0x00, 0x00, 0x00,
];

// Tells what is so, or that it is not.
fn tell(rt: &HostRuntime, what: &str, agrees: bool) -> Result<(), Failure> {
    if !agrees {
        println!(rt; "  this is not so: {what}")?;
        return Err(Failure::Disagreement);
    }
    println!(rt; "  {what}")?;
    Ok(())
}

// The refusal of head 0's reading at a poll.
fn unlawful(poll: u32) -> Outcome {
    Outcome::Refused(Ground {
        number: 12,
        layer: Layer::Watch,
        place: Place::Reading { head: 0, poll },
    })
}

// Whether a survey of head 0 at least a limit, over its readings, answers this at a poll.
fn surveys<S: Scale + Copy>(
    rt: &HostRuntime,
    scale: S,
    limit: i32,
    readings: &[S::Reading],
    poll: u32,
    settled: Outcome,
) -> Result<bool, Failure>
where
    S::Reading: Plain,
    S::Margin: Whole,
{
    let heap = rt.alloc();
    let listed = Listed {
        entries: vec![in heap; head_test(0, limit)]?,
        zone: vec![in heap; 0u8]?,
    };
    let Ok(shape) = listed.shape(heap)? else {
        return Ok(false);
    };
    let rule = Rule::new(listed.entries.as_slice(), listed.heads()?).map_err(|_| Failure::Setting)?;
    let mut random = Random::new(4);
    let told = Told::of_head(heap, readings)?;
    let bench = Bench {
        rule,
        scale,
        plainly: Plainly {
            heap,
            listed: &listed,
            shape,
            layers: &[],
        },
    };
    let grid = Grid::new(1, told.polls, readings);
    let (expected, found) = bench.surveyed(&mut random, &told, &grid, poll)?;
    Ok(expected == settled && found == settled)
}

fn counts(rt: &HostRuntime) -> Result<(), Failure> {
    let readings = [65_535, 65_536, -1];
    let agrees = surveys(rt, Counts, 8, &readings, 0, Outcome::Margin(65_527))?
        && surveys(rt, Counts, 8, &readings, 1, unlawful(1))?
        && surveys(rt, Counts, 8, &readings, 2, unlawful(2))?;
    tell(
        rt,
        "counts: 65,535 is lawful; 65,536 and -1 are refused by 12",
        agrees,
    )
}

fn obscuration(rt: &HostRuntime) -> Result<(), Failure> {
    let readings = [1.25, 4_096.0, 0.001, 4_096.003_906_25];
    let agrees = surveys(rt, Obscuration, 256, &readings, 0, Outcome::Margin(64))?
        && surveys(
            rt,
            Obscuration,
            256,
            &readings,
            1,
            Outcome::Margin(1_048_320),
        )?
        && surveys(rt, Obscuration, 256, &readings, 2, unlawful(2))?
        && surveys(rt, Obscuration, 256, &readings, 3, unlawful(3))?;
    tell(
        rt,
        "obscuration: 4096 is lawful; 0.001 and 4096.00390625 are refused by 12",
        agrees,
    )
}

// Whether nested windows look so far, or are refused by this.
fn looks(rt: &HostRuntime, last: u16, settled: Result<u32, Ground>) -> Result<bool, Failure> {
    let heap = rt.alloc();
    let entries = nested(last);
    let listed = Listed {
        entries: Vec::from_slice(heap, &entries)?,
        zone: vec![in heap; 0u8]?,
    };
    let found = match Rule::new(&entries, HeadSet::starting()) {
        Ok(rule) => Ok(rule.horizon()),
        Err(fault) => Err(fault.ground()),
    };
    Ok(listed.check(heap)? == settled && found == settled)
}

fn windows(rt: &HostRuntime) -> Result<(), Failure> {
    let too_far = Ground {
        number: 5,
        layer: Layer::Rule,
        place: Place::Entry(3),
    };
    let agrees = looks(rt, 1_217, Ok(4_095))? && looks(rt, 1_218, Err(too_far))?;
    tell(
        rt,
        "nested windows with last 1,439, 1,439 and 1,217 look 4,095 polls ahead; with 1,218 they are refused by 5",
        agrees,
    )
}

// The entries of a log of two heads, and what it reads by head and poll.
const ENTRIES: [LogEntry; 3] = [
    LogEntry {
        poll: 0,
        head: 0,
        word: 7,
    },
    LogEntry {
        poll: 2,
        head: 1,
        word: 9,
    },
    LogEntry {
        poll: 2,
        head: 0,
        word: 4,
    },
];

const READ: [(u32, u32, i32); 6] = [
    (0, 0, 7),
    (0, 1, 7),
    (0, 2, 4),
    (1, 0, 0),
    (1, 1, 0),
    (1, 2, 9),
];

fn log(rt: &HostRuntime) -> Result<(), Failure> {
    let heap = rt.alloc();
    let record: Log<i32> = Log::new(2, 3, &ENTRIES, 0);
    let told: Told<i32> = Told {
        form: Form::Log,
        heads: 2,
        polls: 3,
        readings: Vec::new(heap),
        entries: Vec::from_slice(heap, &ENTRIES)?,
        standing: 0,
    };
    let agrees = READ.iter().all(|(head, poll, reading)| {
        record.reading(*head, *poll) == Some(*reading)
            && told.reading(Part::Whole, *head, *poll) == Some(*reading)
    });
    tell(
        rt,
        "the log: head 0 reads 7 7 4, head 1 reads 0 0 9",
        agrees,
    )
}

// The sheet fills one place, and leaves the one behind.
fn sheet(rt: &HostRuntime) -> Result<(), Failure> {
    let heap = rt.alloc();
    let one = Loaded {
        groups: 1,
        zones: 1,
        rules: 1,
    };
    let line = Line {
        rule_number: 7,
        zone_number: 1,
        zone: vec![in heap; 0u8]?,
        entries: vec![in heap; head_test(0, 8)]?,
    };
    let mut places: [RulePlace; 2] = [filler(); 2];
    let loaded = load(&SHEET, &mut places);
    let [first, behind] = places;
    let agrees = loaded == Ok(one)
        && is_same(&first, &place_of(&line)?)
        && is_same(&behind, &filler());
    let what = "the sheet: 1 group, 1 zone, 1 rule, of number 7 in zone 1: head 0 at least 8";
    tell(rt, what, agrees)
}

fn shorter_sheet(rt: &HostRuntime) -> Result<(), Failure> {
    let mut shorter = SHEET;
    shorter[0] = 0x1e;
    let refused = load(&shorter, &mut []).err().map(|fault| fault.ground());
    let whole = Ground {
        number: 13,
        layer: Layer::Sheet,
        place: Place::Whole,
    };
    let what = "the sheet with 1E for its first byte is refused by 13";
    tell(rt, what, refused == Some(whole))
}

pub fn try_all(rt: &HostRuntime) -> Result<(), Failure> {
    println!(rt; "Readings settled one by one:")?;
    counts(rt)?;
    obscuration(rt)?;
    windows(rt)?;
    log(rt)?;
    sheet(rt)?;
    shorter_sheet(rt)
}
