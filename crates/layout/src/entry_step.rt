// An entry as it takes a row: a window lets a margin go and takes the newest in, and the entry's own margin is worked out.
ghost use Rattle.std.specs.Prelude.{◌≡◌, ◌+◌, ◌<◌, ◌≤◌, ℤ, min, length, MatchOption};
ghost use Rattle.runs.specs.Cells.{PutIn, Replaced};
ghost use Rattle.rules.specs.Nodes.{model};
ghost use Rattle.layout.specs.Shape.{shape, run_width, offset, need};
ghost use Rattle.layout.specs.Steps.{row_at, TakenIn, WorkedOut, Entered, Leaving};

use crate::rings::Ring;
use crate::row::Row;
use records::Record;
use rules::Node;
use runs::OrderedRun;
use scales::{Scale, higher, lower};

// Has an ordered run, the first `used` cells, take a margin in, as one more or in place of the one that leaves, and answers as
// the run does. A function of its own: of a run over a part of its cells a caller's proof knows the length alone.
fn slide<S: Scale>(
    scale: &S,
    cells: &mut [S::Margin],
    used: usize,
    leaving: Option<S::Margin>,
    newest: S::Margin,
) -> bool
    ensures { let kept = min used (length cells.old) in MatchOption leaving (PutIn (S.Scale.model scale.now).whole kept cells.old cells.new newest result) (λ old. Replaced (S.Scale.model scale.now).whole kept cells.old cells.new old newest result) }
{
    let mut run = OrderedRun::over(cells, used);
    match leaving {
        Some(old) => run.replace(scale, old, newest),
        None => run.put(scale, newest),
    }
}

// An entry that is to take a row, with the ends of its run.
#[derive(Drop)]
pub(crate) struct EntryStep<'a, S, R> {
    pub(crate) row: &'a Row<'a, S, R>,
    pub(crate) at: usize,
    // How far its formula looks.
    pub(crate) horizon: u32,
    pub(crate) from: usize,
    pub(crate) to: usize,
    ghost below: { at < (shape row.now.rule.now).count },
    ghost far: { horizon ≡ (shape row.now.rule.now).hz at },
    ghost begins: { from ≡ offset (shape row.now.rule.now) at },
    ghost ends: { to ≡ from + run_width ((shape row.now.rule.now).nodes at) },
}

// The cells are a parameter: each method of a struct over a `&mut` would owe clauses that its rule and its lender stay,
// where one `requires` says that the cells are enough.
impl<'a, S: Scale, R: Record<Reading = S::Reading>> EntryStep<'a, S, R> {
    // Its operation, read again at each use: kept over a write to a cell, the compiled code would store it and load it back.
    fn node(&self) -> Node
        ensures { model result ≡ (shape self.now.row.now.rule.now).nodes self.now.at }
    {
        self.row.rule.node(self.at).unwrap()
    }

    // Takes the margin that the row worked out for its formula into a window, in exchange for the one that leaves it.
    fn take_in(&self, leaving: Option<S::Margin>, cells: &mut [S::Margin])
        requires { need (shape self.now.row.now.rule.now) ≤ length cells.old }
        ensures { TakenIn (shape self.now.row.now.rule.now) (S.Scale.model self.now.row.now.scale.now).whole self.now.row.now.rows.count self.now.at leaving cells.old cells.new }
    {
        let Node::Window { of, .. } = self.node() else {
            return;
        };
        let rows = self.row.rows;
        let ring = Ring {
            rule: self.row.rule,
            at: of,
            horizon: self.row.rule.horizon_at(of).unwrap(),
            cells,
            rows,
        };
        if rows.count < ring.horizon {
            return;
        }
        let newest = ring.back(0);
        let used = (rows.count - ring.horizon) as usize;
        let part = &mut cells[self.from..self.to];
        // No only where the cells do not stand for the rows taken, of which nothing is promised.
        let _ = slide(self.row.scale, part, used, leaving, newest);
    }

    // The margin that the row works out; none where a reading is missing or unlawful.
    fn work_out(&self, cells: &mut [S::Margin]) -> Option<S::Margin>
        requires enough { need (shape self.now.row.now.rule.now) ≤ length cells.old }
        requires ripe { (shape self.now.row.now.rule.now).hz self.now.at ≤ self.now.row.now.rows.count }
        ensures { WorkedOut (S.Scale.model self.now.row.now.scale.now) (shape self.now.row.now.rule.now) (row_at (R.Record.model self.now.row.now.record) self.now.row.now.poll) self.now.row.now.rows.count self.now.at cells.old cells.new result }
    {
        let Row {
            scale,
            rule,
            rows,
            ..
        } = *self.row;
        let ring = Ring {
            rule,
            at: self.at,
            horizon: self.horizon,
            cells,
            rows,
        };
        match self.node() {
            Node::HeadTest { head, test } => self.row.test(head, test),
            Node::ZoneTest { k, test } => {
                let tests = rule.need() - rule.zone().size();
                self.row.zone_margin(k as usize, test, tests, cells)
            }
            Node::Not { of } => Some(scale.complement(ring.operand(of))),
            Node::Either { left, right } => Some(higher(
                scale,
                ring.operand(left),
                ring.operand(right),
            )),
            Node::Both { left, right } => Some(lower(
                scale,
                ring.operand(left),
                ring.operand(right),
            )),
            Node::Window { rank, .. } => Some(cells[self.from + rank as usize - 1]),
        }
    }

    // Has the entry take the row: its own margin goes into its ring.
    pub(crate) fn enter(&self, leaving: Option<S::Margin>, cells: &mut [S::Margin])
        requires { need (shape self.now.row.now.rule.now) ≤ length cells.old }
        ensures { Entered (S.Scale.model self.now.row.now.scale.now) (shape self.now.row.now.rule.now) (row_at (R.Record.model self.now.row.now.record) self.now.row.now.poll) self.now.row.now.rows.count self.now.at leaving cells.old cells.new }
    {
        self.take_in(leaving, cells);
        if self.row.rows.count < self.horizon {
            return;
        }
        let ring = Ring {
            rule: self.row.rule,
            at: self.at,
            horizon: self.horizon,
            cells,
            rows: self.row.rows,
        };
        let place = ring.place(0);
        let Some(m) = self.work_out(cells) else {
            return;
        };
        cells[place] = m;
    }
}

impl<'a, S: Scale, R: Record<Reading = S::Reading>> Row<'a, S, R> {
    // Has an entry take the row; answers where its run ends, and what leaves the window over it. That is read before the
    // entry, the formula of the window, is written: where the window is as wide as the rings, the newest margin takes the
    // place of the oldest.
    pub(crate) fn pass(
        &self,
        at: usize,
        from: usize,
        leaving: Option<S::Margin>,
        cells: &mut [S::Margin],
    ) -> (usize, Option<S::Margin>)
        requires below { at < (shape self.now.rule.now).count }
        requires begins { from ≡ offset (shape self.now.rule.now) at }
        requires enough { need (shape self.now.rule.now) ≤ length cells.old }
        ensures end { result.0 ≡ from + run_width ((shape self.now.rule.now).nodes at) }
        ensures leaves { (whole : S.Margin → ℤ) → at + 1 < (shape self.now.rule.now).count → Leaving (shape self.now.rule.now) whole self.now.rows.count (at + 1) cells.old result.1 }
        ensures entered { Entered (S.Scale.model self.now.scale.now) (shape self.now.rule.now) (row_at (R.Record.model self.now.record) self.now.poll) self.now.rows.count at leaving cells.old cells.new }
    {
        let Row { rule, rows, .. } = *self;
        let node = rule.node(at).unwrap();
        let horizon = rule.horizon_at(at).unwrap();
        let to = from + node.width() as usize;
        let step = EntryStep {
            row: self,
            at,
            horizon,
            from,
            to,
        };
        let ring = Ring {
            rule,
            at,
            horizon,
            cells,
            rows,
        };
        let next = ring.leaving();
        step.enter(leaving, cells);
        (to, next)
    }
}
