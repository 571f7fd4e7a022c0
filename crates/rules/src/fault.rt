// Why a list of entries makes no rule.
ghost use Rattle.std.specs.Prelude.{◌≡◌};
ghost use Rattle.rules.specs.Faults.{at_entry, rule_ground};

use faults::{Fault, Ground, Layer, Place};

// The first ground against a rule, with what a sentence about it needs.
#[derive(Clone, Copy, PartialEq, Eq, Debug)]
pub enum RuleFault {
    // The list is empty or has more than 24 entries.
    EntryCount { count: usize },
    // The zone has no head or more than 32.
    ZoneHeadCount { count: usize },
    // The entry's kind or a field, head apart, is out of range.
    OutOfRange { entry: usize },
    // The entry tests a head outside the zone.
    HeadOutsideZone { entry: usize, head: u8 },
    // The entry takes more formulas than are left.
    TooFewFormulas { entry: usize },
    // The entry is the last and leaves more than one formula.
    TooManyFormulas { entry: usize },
    // The entry's formula looks more than 4,095 polls ahead.
    HorizonTooFar { entry: usize, horizon: u32 },
}

fn at_entry(number: u8, entry: usize) -> Ground
    ensures { result ≡ at_entry number entry }
{
    Ground {
        number,
        layer: Layer::Rule,
        place: Place::Entry(entry),
    }
}

impl Fault for RuleFault {
    ghost cause = { rule_ground };

    fn ground(&self) -> Ground {
        match *self {
            RuleFault::EntryCount { .. } | RuleFault::ZoneHeadCount { .. } => at_entry(1, 0),
            RuleFault::OutOfRange { entry } => at_entry(2, entry),
            RuleFault::HeadOutsideZone { entry, .. } => at_entry(3, entry),
            RuleFault::TooFewFormulas { entry } | RuleFault::TooManyFormulas { entry } => {
                at_entry(4, entry)
            }
            RuleFault::HorizonTooFar { entry, .. } => at_entry(5, entry),
        }
    }
}
