// Margins as text, exactly.
ghost use Rattle.std.specs.Prelude.{◌≡◌, ◌*◌, ◌^◌, ◌<◌, Some};
ghost use Rattle.desk.specs.Amounts.{amount_text, decimals_of, unit_text};

use std::fmt;

// The unit of a margin.
#[derive(Clone, Copy, PartialEq, Eq, Debug)]
pub enum Unit {
    // One step is one count.
    Count,
    // One step is 1/256 percent per metre.
    PercentPerMetre,
}

impl fmt::Display for Unit {
    ghost output = { λ unit. Some (unit_text unit) };

    fn fmt<W: fmt::Write>(&self, f: &mut fmt::Formatter<W>) -> fmt::Result {
        f.write_str(match *self {
            Unit::Count => "counts",
            Unit::PercentPerMetre => "percent per metre",
        })
    }
}

// A margin of so many steps in its unit, whose text is exact.
#[derive(Clone, Copy, PartialEq, Eq, Debug)]
pub struct Amount {
    pub steps: i32,
    pub unit: Unit,
}

// How many steps make one percent per metre.
const STEPS: u32 = 256;

// A decimal fraction: so many units of the last of its places.
struct Fraction {
    digits: u32,
    places: usize,
}

// Eight decimal places make every 256th exact: ten to the eighth is 256 times this.
const PLACES: usize = 8;

const PER_STEP: u32 = 390_625;

// So many 256ths as a decimal fraction that ends with no nought.
fn fraction_of(parts: u32) -> Fraction
    requires { parts < 256 }
    ensures exact { result.digits * 256 ≡ parts * 10 ^ result.places }
    ensures shortest { result ≡ decimals_of parts }
{
    let mut digits = parts * PER_STEP;
    let mut places = PLACES;
    while places > 0 && digits % 10 == 0 {
        digits /= 10;
        places -= 1;
    }
    Fraction { digits, places }
}

impl fmt::Display for Amount {
    ghost output = { λ amount. Some (amount_text amount) };

    fn fmt<W: fmt::Write>(&self, f: &mut fmt::Formatter<W>) -> fmt::Result {
        if self.unit == Unit::Count {
            return self.steps.fmt(f);
        }
        let size = self.steps.unsigned_abs();
        let sign = if self.steps < 0 { "-" } else { "" };
        let whole = size / STEPS;
        let Fraction { digits, places } = fraction_of(size % STEPS);
        if places == 0 {
            return write!(f, "{sign}{whole}");
        }
        write!(f, "{sign}{whole}.{digits:0places$}")
    }
}
