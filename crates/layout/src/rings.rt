// Rings: the latest margins of each entry.
ghost use Rattle.std.specs.Prelude.{◌≡◌, ℕ, ◌+◌, ◌-◌, ◌*◌, ◌%◌, ◌<◌, ◌≤◌, length, ℤ};
ghost use Rattle.layout.specs.Shape.{shape, need};
ghost use Rattle.layout.specs.Slots.{RingOf};
ghost use Rattle.layout.specs.Steps.{Back, Leaving};

use crate::taken::Rows;
use rules::{Node, Rule};

// The ring of an entry, in cells that are enough for the rule.
#[derive(Drop)]
pub(crate) struct Ring<'a, M> {
    pub(crate) rule: &'a Rule,
    pub(crate) at: usize,
    // How far the formula of the entry looks.
    pub(crate) horizon: u32,
    pub(crate) cells: &'a [M],
    // The rows taken before the row at hand, from which `back` counts: the one being taken, or the next.
    pub(crate) rows: Rows,
    ghost below: { at < (shape rule.now).count },
    ghost far: { horizon ≡ (shape rule.now).hz at },
    ghost enough: { need (shape rule.now) ≤ length cells.now },
    ghost fits: { rows.ring ≡ (shape rule.now).ring },
}

impl<'a, M: Copy> Ring<'a, M> {
    // Where the margin stands that the row so many before the row at hand works out.
    pub(crate) fn place(&self, back: u32) -> usize
        requires taken { back ≤ self.now.rows.count }
        requires held { back ≤ (shape self.now.rule.now).ring }
        ensures place { result ≡ self.now.at * (shape self.now.rule.now).ring + (self.now.rows.count - back) % (shape self.now.rule.now).ring }
        ensures within { result < length self.now.cells.now }
    {
        self.at * self.rows.ring as usize + self.rows.slot_back(back) as usize
    }

    // The margin that the row so many before the row at hand worked out.
    pub(crate) fn back(&self, back: u32) -> M
        requires taken { back ≤ self.now.rows.count }
        requires held { back ≤ (shape self.now.rule.now).ring }
        ensures { (whole : M → ℤ) → Back (shape self.now.rule.now) whole (self.now.rows.count - back) self.now.at self.now.cells.now result }
    {
        self.cells[self.place(back)]
    }

    // The margin of an operand at the poll that the row at hand works out for the entry.
    pub(crate) fn operand(&self, of: usize) -> M
        requires earlier { of < self.now.at }
        requires nearer { (shape self.now.rule.now).hz of ≤ (shape self.now.rule.now).hz self.now.at }
        requires ripe { (shape self.now.rule.now).hz self.now.at ≤ self.now.rows.count }
        ensures { (whole : M → ℤ) (want : ℕ → ℕ → ℤ) → RingOf (shape self.now.rule.now) whole want (self.now.rows.count + 1) of self.now.cells.now → whole result ≡ want of (self.now.rows.count - (shape self.now.rule.now).hz self.now.at) }
    {
        let ring = Ring {
            rule: self.rule,
            at: of,
            horizon: self.rule.horizon_at(of).unwrap(),
            cells: self.cells,
            rows: self.rows,
        };
        ring.back(self.horizon - ring.horizon)
    }

    // The margin that leaves the window over the entry with the row at hand; none where there is no such window, or it is not
    // full.
    pub(crate) fn leaving(&self) -> Option<M>
        ensures { (whole : M → ℤ) → self.now.at + 1 < (shape self.now.rule.now).count → Leaving (shape self.now.rule.now) whole self.now.rows.count (self.now.at + 1) self.now.cells.now result }
    {
        // One pattern for both ways to be no window.
        let Some(over @ Node::Window { .. }) = self.rule.node(self.at + 1) else {
            return None;
        };
        let width = over.width();
        if self.rows.count < self.horizon + width {
            return None;
        }
        Some(self.back(width))
    }
}
