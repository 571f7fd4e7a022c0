// Whole numbers of a bounded size.
ghost use Rattle.std.specs.Prelude.{◌≡◌, ◌^◌, ◌<◌, ◌≤◌, Some, neg_ℤ, unsigned_abs};
ghost use Rattle.std.specs.Fmt.{signed_decimal};
ghost use Rattle.scales.specs.Order.{clipped};

use std::fmt;
use std::ops::Neg;

// The whole number clipped to -most to most.
pub(crate) fn clip(whole: i32, most: u8) -> i32
    ensures { result ≡ clipped most whole }
{
    let most = most as i32;
    whole.clamp(-most, most)
}

// A whole number from -MOST to MOST.
#[derive(Clone, Copy, PartialEq, Eq, PartialOrd, Ord)]
pub struct Bounded<const MOST: u32> {
    pub(crate) value: i32,
    ghost near: { unsigned_abs value ≤ MOST },
    ghost fits: { MOST < 2 ^ 31 },
}

impl<const MOST: u32> Bounded<MOST> {
    // The number itself.
    pub fn value(&self) -> i32
        ensures value { result ≡ self.now.value }
        ensures near { unsigned_abs result ≤ MOST }
    {
        self.value
    }
}

impl<const MOST: u32> Neg for Bounded<MOST> {
    type Output = Bounded<MOST>;

    ghost neg_gives = { λ b r. r.value ≡ neg_ℤ b.value };

    fn neg(self) -> Bounded<MOST> {
        Bounded { value: -self.value }
    }
}

// By hand, so that each number goes by its own name: a derived one would call a limit and a margin the same.
impl<const MOST: u32> fmt::Debug for Bounded<MOST> {
    fn fmt<W: fmt::Write>(&self, f: &mut fmt::Formatter<W>) -> fmt::Result {
        let (name, field) = match MOST {
            1_048_576 => ("Limit", "steps"),
            9 => ("PanelMargin", "value"),
            _ => ("CountMargin", "value"),
        };
        f.debug_struct(name).field(field, &self.value).finish()
    }
}

impl<const MOST: u32> fmt::Display for Bounded<MOST> {
    ghost output = { λ b. Some (signed_decimal b.value) };

    fn fmt<W: fmt::Write>(&self, f: &mut fmt::Formatter<W>) -> fmt::Result {
        self.value.fmt(f)
    }
}
