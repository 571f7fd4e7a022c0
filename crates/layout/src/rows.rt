// The cells of a watch, row by row.
ghost use Rattle.std.specs.Prelude.{◌≡◌, ◌<◌, length, ℤ, is_some};
ghost use Rattle.layout.specs.Steps.{row_at};
ghost use Rattle.layout.specs.Rows.{Advanced, has_latest, Latest};

use crate::nodes::ring_size;
use crate::rings::Ring;
use crate::row::Row;
use crate::taken::Rows;
use records::Record;
use rules::Rule;
use scales::Scale;

// Takes one poll of a record as a row more, where so many rows were taken; says no, and leaves the cells, if they are fewer
// than the rule needs. One refusal, with nothing to tell of it, so a yes or no. Six parameters, since a struct of rule, scale
// and record stands in the crate above, and has its methods there.
pub fn take_row<S: Scale, R: Record<Reading = S::Reading>>(
    scale: &S,
    rule: &Rule,
    rows: Rows,
    record: &R,
    poll: u32,
    cells: &mut [S::Margin],
) -> bool
    ensures { Advanced (S.Scale.model scale.now) rule.now (row_at (R.Record.model «record».now) poll) rows.count cells.old cells.new result }
{
    if cells.len() < rule.need() {
        return false;
    }
    let rows = rows.within(rule);
    let row = Row {
        scale,
        rule,
        record: *record,
        poll,
        rows,
    };
    let mut from = rule.len() * ring_size(rule) as usize;
    let mut leaving = None;
    // By its place, since an entry is asked for by it, and so is the ring before.
    for at in 0..rule.len() {
        let (to, next) = row.pass(at, from, leaving, cells);
        from = to;
        leaving = next;
    }
    true
}

// The rule's margin at the latest poll that has all its rows; none while there is no such poll, or if the cells are too few.
pub fn latest_margin<M: Copy>(rule: &Rule, rows: Rows, cells: &[M]) -> Option<M>
    ensures there { is_some result ≡ has_latest rule.now (length cells.now) rows.count }
    ensures value { Latest rule.now rows.count cells.now result }
{
    let horizon = rule.horizon();
    if cells.len() < rule.need() || rows.count <= horizon {
        return None;
    }
    let last = Ring {
        rule,
        at: rule.len() - 1,
        horizon,
        cells,
        rows: rows.within(rule),
    };
    Some(last.back(1))
}
