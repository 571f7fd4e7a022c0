// A window 0 to 3, share 500, of head 0 at least 8, watched and surveyed.
use crate::answers::Answer;
use crate::refusals::WatchFault;
use crate::surveys::survey;
use crate::watch::Watch;
use entries::{HeadSet, Operation};
use records::Grid;
use rules::Rule;
use scales::{CountMargin, Counts, Limit, Scale, Sense, Test};

const READINGS: [i32; 8] = [5, 9, 12, 7, 10, 3, 8, 11];

fn rule() -> Option<Rule> {
    let test = Test {
        sense: Sense::AtLeast,
        limit: Limit::new(8)?,
    };
    let entries = [
        Operation::HeadTest { head: 0, test }.into(),
        Operation::Window {
            first: 0,
            last: 3,
            share: 500,
        }
        .into(),
    ];
    Rule::new(&entries, HeadSet::starting()).ok()
}

// Cells that hold anything.
fn cells() -> Option<[CountMargin; 12]> {
    let test = Test {
        sense: Sense::AtMost,
        limit: Limit::new(3)?,
    };
    Some([Counts.test(7, test)?; 12])
}

// What a watch answers after so many rows.
fn watched(rows: u32, cells: &mut [CountMargin]) -> Option<Answer<CountMargin>> {
    let readings = READINGS;
    let grid = Grid::new(1, 8, &readings);
    let mut watch = Watch::new(rule()?, Counts);
    for poll in 0..rows {
        watch.step(cells, &grid, poll).ok()?;
    }
    watch.ask(cells).ok()
}

// The rows to come, negated, or the margin.
fn asked(rows: u32) -> Option<i64> {
    let mut cells = cells()?;
    Some(match watched(rows, &mut cells)? {
        Answer::Waiting { rows } => -(rows as i64),
        Answer::At { margin, .. } => margin.value() as i64,
    })
}

fn surveyed(poll: u32) -> Option<Result<i32, WatchFault>> {
    let rule = rule()?;
    let mut cells = cells()?;
    let readings = READINGS;
    let grid = Grid::new(1, 8, &readings);
    Some(survey(&rule, &Counts, &mut cells, &grid, poll).map(|m| m.value()))
}

#[test]
fn a_window_over_one_head(rt: HostRuntime) {
    for (rows, answer) in [(3, -1), (4, 1), (5, 2), (6, 2), (7, 0), (8, 2)] {
        assert_eq!(rt; asked(rows), Some(answer), "after {rows} rows");
    }
    assert_eq!(rt; surveyed(4), Some(Ok(2)));
    assert_eq!(rt;
        surveyed(5),
        Some(Err(WatchFault::PastTheEnd {
            poll: 5,
            horizon: 3,
            polls: 8,
        }))
    );
}
