// An entry's operation, where its fields are in range.
ghost use Rattle.std.specs.Prelude.{◌≡◌};
ghost use Rattle.std.specs.Option.{option_map};
ghost use Rattle.entries.specs.Decode.{test_of, test_model, fair_rank, fair_window, head_test_of, fair_zone_test, window_of, operation_of};
ghost use Rattle.entries.specs.Operations.{model};
ghost use Rattle.entries.specs.Writing.{Decoded, plain_entry};

use crate::entry::Entry;
use crate::kind::Kind;
use crate::operation::Operation;
use scales::{Limit, Sense, Test};

// How far ahead the last poll of a window may lie.
pub const WINDOW_LAST: u16 = 1_439;

// A share of all polls of a window, in thousandths.
pub const SHARE_WHOLE: u16 = 1_000;

impl Entry {
    // Sense and limit of a test; none where one is out of range.
    fn test(self) -> Option<Test>
        ensures { option_map test_model result ≡ test_of self }
    {
        Some(Test {
            sense: Sense::try_from(self.sense).ok()?,
            limit: Limit::new(self.limit)?,
        })
    }

    fn has_fair_rank(self, heads: usize) -> bool
        ensures { result ≡ fair_rank self.k heads }
    {
        (1..=heads).contains(&(self.k as usize))
    }

    fn has_fair_window(self) -> bool
        ensures { result ≡ fair_window self }
    {
        (self.first..=WINDOW_LAST).contains(&self.last) && (1..=SHARE_WHOLE).contains(&self.share)
    }

    fn head_test(self) -> Option<Operation>
        ensures { option_map model result ≡ head_test_of self.head (test_of self) }
    {
        Some(Operation::HeadTest {
            head: self.head,
            test: self.test()?,
        })
    }

    fn zone_test(self, heads: usize) -> Option<Operation>
        ensures { option_map model result ≡ fair_zone_test self heads }
    {
        let test = self.test()?;
        self.has_fair_rank(heads)
            .then_some(Operation::ZoneTest { k: self.k, test })
    }

    fn window(self) -> Option<Operation>
        ensures { option_map model result ≡ window_of self }
    {
        self.has_fair_window().then_some(Operation::Window {
            first: self.first,
            last: self.last,
            share: self.share,
        })
    }

    // The operation in a zone of so many heads; none where the kind or a field, head apart, is out of range. `blank` is of
    // `Entry::BLANK`, since a constant has no contract of its own.
    #[tactic(auto, using(crate::proofs::Decoding::decoded))]
    pub fn operation(self, heads: usize) -> Option<Operation>
        ensures value { option_map model result ≡ operation_of self heads }
        ensures decoded { Decoded self heads }
        ensures blank { Entry.BLANK ≡ plain_entry 0 }
    {
        match Kind::try_from(self.kind).ok()? {
            Kind::HeadTest => self.head_test(),
            Kind::ZoneTest => self.zone_test(heads),
            Kind::Not => Some(Operation::Not),
            Kind::Either => Some(Operation::Either),
            Kind::Both => Some(Operation::Both),
            Kind::Window => self.window(),
        }
    }
}
