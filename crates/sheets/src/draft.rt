// A rule's formula on its way to a rule.
ghost use Rattle.std.specs.Prelude.{◌+◌, ◌≤◌, length};
ghost use Rattle.rules.specs.declared.sizes.TheConstants.{ENTRIES};

use arrayvec::ArrayVec;
use entries::Entry;
use rules::ENTRIES;

// The entries of a rule's formula, each after the formulas that it takes, and how many formulas may still begin.
#[derive(Drop)]
pub(crate) struct Draft {
    pub(crate) entries: ArrayVec<Entry, ENTRIES>,
    pub(crate) room: usize,
    ghost few: { length entries.items + room ≤ ENTRIES },
}
