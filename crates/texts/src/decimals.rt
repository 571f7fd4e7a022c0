// Decimal numbers in steps of 1/256, with nothing rounded.
ghost use Rattle.std.specs.Prelude.{◌≡◌, ◌*◌, ◌+◌, ◌^◌, ◌<◌, T, true, unsigned_abs, length, Ok, IfOk, IfSome};
ghost use Rattle.std.specs.Str.{all_ascii_digits};
ghost use Rattle.std.specs.Str.Parse.{digits_value};
ghost use Rattle.scales.specs.Grid.{on_grid, grid_whole, grid_steps};
ghost use Rattle.texts.specs.Decimals.{even, in_step_range, part_read, size_read, percent_of, percent_read, IsExact};

use crate::lines::cut;
use crate::numbers::{digit, numeral, unsigned};
use crate::punctuation::POINT;
use crate::refusals::Defect;

// How many steps make one percent per metre.
const STEPS: u32 = 256;

// From this many percent per metre on, 32-bit floats do not tell all steps apart.
const PERCENT: u64 = 65_536;

// The steps of 1/256 in the decimals behind a point; none where they come out uneven. What the last decimals make must come
// out even for the whole to, so each decimal from the last to the first adds its steps to a tenth of those behind it.
fn decimal_steps(decimals: &[u8]) -> Option<u32>
    requires { all_ascii_digits decimals.now ≡ true }
    ensures value { result ≡ even (256 * digits_value 10 decimals.now) (10 ^ length decimals.now) }
    ensures below { IfSome result (λ steps. steps < 256) }
{
    let mut steps = 0;
    let mut at = decimals.len();
    while at > 0 {
        at -= 1;
        let tenths = STEPS * u32::from(digit(decimals[at])) + steps;
        if tenths % 10 != 0 {
            return None;
        }
        steps = tenths / 10;
    }
    Some(steps)
}

// The steps of whole percents and of a part of one, where they are not too many.
fn in_range(percent: u64, part: u32) -> Result<u32, Defect>
    requires { part < 256 }
    ensures { result ≡ in_step_range (256 * percent + part) }
{
    if percent >= PERCENT {
        return Err(Defect::OutOfRange);
    }
    Ok(percent as u32 * STEPS + part)
}

// The steps of decimals, which are digits.
fn part(decimals: &[u8]) -> Result<u32, Defect>
    ensures value { result ≡ part_read decimals.now }
    ensures below { IfOk result (λ part. part < 256) }
{
    if numeral(decimals).is_none() {
        return Err(Defect::NotDecimal);
    }
    decimal_steps(decimals).ok_or(Defect::OffSteps)
}

// The steps of a number without a sign.
fn size(text: &[u8]) -> Result<u32, Defect>
    ensures { result ≡ size_read text.now }
{
    let (whole, decimals) = cut(text, POINT);
    let Some(percent) = numeral(whole) else {
        return Err(Defect::NotDecimal);
    };
    match decimals {
        Some(decimals) => in_range(percent, part(decimals)?),
        None => in_range(percent, 0),
    }
}

// The float of so many steps, which is exact.
#[tactic(auto, using(crate::proofs::PercentLaws::percent_on, crate::proofs::PercentLaws::percent_is))]
fn percent(steps: i32) -> f32
    requires { unsigned_abs steps < 2 ^ 24 }
    ensures value { result ≡ percent_of steps }
    ensures on { T (on_grid 16777215 result) }
    ensures steps { grid_whole result ≡ steps }
{
    steps as f32 / STEPS as f32
}

// A reading on obscuration, in percent per metre.
pub(crate) fn obscuration(text: &[u8]) -> Result<f32, Defect>
    ensures value { result ≡ percent_read text.now }
    ensures exact { IfOk result (IsExact text.now) }
{
    let (minus, digits) = unsigned(text);
    let size = size(digits)? as i32;
    Ok(percent(if minus { -size } else { size }))
}
