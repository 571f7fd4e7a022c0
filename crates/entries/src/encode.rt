// The entry that writes an operation down.
ghost use Rattle.entries.specs.Operations.{model};
ghost use Rattle.entries.specs.Writing.{Written};

use crate::entry::Entry;
use crate::kind::Kind;
use crate::operation::Operation;

impl From<Operation> for Entry {
    ghost from_gives = { λ operation entry. Written (model operation) entry };

    #[tactic(auto, using(crate::proofs::Decoding::written))]
    fn from(operation: Operation) -> Entry {
        match operation {
            Operation::HeadTest { head, test } => Entry {
                kind: Kind::HeadTest as u8,
                head,
                sense: test.sense as u8,
                limit: test.limit.value(),
                ..Entry::BLANK
            },
            Operation::ZoneTest { k, test } => Entry {
                kind: Kind::ZoneTest as u8,
                k,
                sense: test.sense as u8,
                limit: test.limit.value(),
                ..Entry::BLANK
            },
            Operation::Not => Entry {
                kind: Kind::Not as u8,
                ..Entry::BLANK
            },
            Operation::Either => Entry {
                kind: Kind::Either as u8,
                ..Entry::BLANK
            },
            Operation::Both => Entry {
                kind: Kind::Both as u8,
                ..Entry::BLANK
            },
            Operation::Window { first, last, share } => Entry {
                kind: Kind::Window as u8,
                first,
                last,
                share,
                ..Entry::BLANK
            },
        }
    }
}
