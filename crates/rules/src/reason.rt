// The sentences that the faults of a rule print.
ghost use Rattle.std.specs.Prelude.{◌≡◌, Some};
ghost use Rattle.rules.specs.Texts.{rule_fault_text, rule_words};

use crate::fault::RuleFault;
use crate::sizes::{ENTRIES, HORIZON, ZONE_HEADS};
use faults::Fault;
use std::fmt;

// What is wrong with a rule, in words: what a fault says after its ground.
#[derive(Clone, Copy, PartialEq, Eq, Debug)]
pub struct Reason {
    fault: RuleFault,
}

impl RuleFault {
    // What is wrong, for a caller that tells the ground in its own way.
    pub fn reason(self) -> Reason
        ensures { result.fault ≡ self }
    {
        Reason { fault: self }
    }
}

impl fmt::Display for Reason {
    ghost output = { λ reason. Some (rule_words reason.fault) };

    fn fmt<W: fmt::Write>(&self, f: &mut fmt::Formatter<W>) -> fmt::Result {
        match self.fault {
            RuleFault::EntryCount { count } => {
                write!(f, "{count} entries, where a rule has 1 to {ENTRIES}")
            }
            RuleFault::ZoneHeadCount { count } => {
                write!(
                    f,
                    "a zone of {count} heads, where a rule's has 1 to {ZONE_HEADS}"
                )
            }
            RuleFault::OutOfRange { .. } => {
                write!(f, "its kind, or a field of its kind, is out of range")
            }
            RuleFault::HeadOutsideZone { head, .. } => {
                write!(f, "its head {head} is not in the zone")
            }
            RuleFault::TooFewFormulas { .. } => {
                write!(f, "it takes more formulas than are left")
            }
            RuleFault::TooManyFormulas { .. } => {
                write!(f, "it is the last and leaves more than one formula")
            }
            RuleFault::HorizonTooFar { horizon, .. } => {
                write!(
                    f,
                    "it looks {horizon} polls ahead, where a rule looks at most {HORIZON}"
                )
            }
        }
    }
}

impl fmt::Display for RuleFault {
    ghost output = { λ fault. Some (rule_fault_text fault) };

    fn fmt<W: fmt::Write>(&self, f: &mut fmt::Formatter<W>) -> fmt::Result {
        let ground = self.ground();
        let reason = self.reason();
        write!(f, "{ground}: {reason}")
    }
}
