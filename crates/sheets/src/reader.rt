// What was read of a sheet so far.
ghost use Rattle.std.specs.Prelude.{◌≤◌};
ghost use Rattle.entries.specs.declared.heads.TheConstants.{HEADS};

use crate::sizes::{RULES, ZONES};
use arrayvec::ArrayVec;
use entries::HeadSet;
use rules::RulePlace;

// What was met so far, against which later records are held: the zones' numbers and heads, and the rules.
#[derive(Drop)]
pub(crate) struct Reader {
    // The sheet's head total.
    pub(crate) total: u8,
    // How many groups.
    pub(crate) groups: usize,
    // The numbers of the zones.
    pub(crate) zones: ArrayVec<u16, ZONES>,
    // The heads of the zones.
    pub(crate) heads: HeadSet,
    // The rules, as the places are to hold them.
    pub(crate) rules: ArrayVec<RulePlace, RULES>,
    ghost card: { total ≤ HEADS },
}
