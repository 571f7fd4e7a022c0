// A row that holds a rule.
use crate::sizes::ENTRIES;
use entries::{Entry, HeadSet};

// A rule place: a plain row with a rule's entries, how many of them count, its zone, and the numbers of rule and zone.
// Nothing is known of what it holds. It is copied and lent in slices, so its entries stand in a row of fixed room with their
// number beside it: the library's ArrayVec is not `Copy`.
#[derive(Clone, Copy, Debug)]
pub struct RulePlace {
    pub entries: [Entry; ENTRIES],
    pub count: u8,
    pub zone: HeadSet,
    pub rule_number: u16,
    pub zone_number: u16,
}
