// The limit of a test, and the side of it that the test asks for.
ghost use Rattle.std.specs.Prelude.{◌≡◌};
ghost use Rattle.std.specs.Option.{option_map};
ghost use Rattle.scales.specs.Limits.{bounded, Told};

use crate::bounded::Bounded;

// The sense of a test: its reading is to be at least the limit, or at most.
#[derive(Clone, Copy, PartialEq, Eq, Debug)]
pub enum Sense {
    AtLeast = 0,
    AtMost = 1,
}

// A number that tells no sense.
#[derive(Clone, Copy, PartialEq, Eq, Debug)]
pub struct UnknownSense(pub u8);

impl TryFrom<u8> for Sense {
    type Error = UnknownSense;

    ghost try_from_gives = { Told };

    fn try_from(number: u8) -> Result<Sense, UnknownSense> {
        if number == Sense::AtLeast as u8 {
            Ok(Sense::AtLeast)
        } else if number == Sense::AtMost as u8 {
            Ok(Sense::AtMost)
        } else {
            Err(UnknownSense(number))
        }
    }
}

// A limit: a whole number of steps from -1,048,576 to 1,048,576.
pub type Limit = Bounded<1_048_576>;

impl Limit {
    // The lowest limit, in steps.
    pub const LEAST: i32 = -1_048_576;

    // The highest.
    pub const MOST: i32 = 1_048_576;

    // The limit of so many steps; none outside the range.
    pub fn new(steps: i32) -> Option<Limit>
        ensures { option_map (λ l. l.value) result ≡ bounded 1048576 steps }
    {
        if steps < Limit::LEAST || Limit::MOST < steps {
            return None;
        }
        Some(Limit { value: steps })
    }
}

// What a test asks of a reading: to keep to the limit, in this sense.
#[derive(Clone, Copy, PartialEq, Eq, Debug)]
pub struct Test {
    pub sense: Sense,
    pub limit: Limit,
}
