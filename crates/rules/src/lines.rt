// The lines of a rule, in the order of its entries.
ghost use Rattle.std.specs.Prelude.{◌≡◌, ℕ, ◌+◌, ◌<◌, ◌≤◌, length, slice_index_or};
ghost use Rattle.rules.specs.Spans.{no_line};
ghost use Rattle.rules.specs.declared.sizes.TheConstants.{ENTRIES, HORIZON};

use crate::line::Line;
use crate::sizes::ENTRIES;

// A row with room for all lines and their number: a rule is copied and keeps to fixed memory, and the library's ArrayVec is
// not `Copy`.
#[derive(Clone, Copy)]
pub struct Lines {
    pub(crate) rows: [Line; ENTRIES],
    pub(crate) count: usize,
    ghost room: { length rows ≡ ENTRIES },
    ghost few: { count ≤ ENTRIES },
    ghost sized: { (k : ℕ) → k < count → (slice_index_or rows k no_line).span.size ≤ k + 1 },
    ghost near: { (k : ℕ) → k < count → (slice_index_or rows k no_line).span.horizon ≤ HORIZON },
}
