// Numbers as digits.
ghost use Rattle.std.specs.Prelude.{◌≡◌, ◌-◌, ◌^◌, ◌<◌, drop, cond, min, IsTrue, Some, None};
ghost use Rattle.std.specs.Char.{is_ascii_digit, digit_value};
ghost use Rattle.std.specs.Str.Parse.{digits_value, starts_with_minus};
ghost use Rattle.texts.specs.Numbers.{is_numeral, unsigned, natural_read, count_read, highest_read};

use crate::punctuation::MINUS;
use crate::refusals::Defect;

// The number that a digit stands for.
pub(crate) fn digit(byte: u8) -> u8
    requires { IsTrue (is_ascii_digit byte) }
    ensures value { result ≡ digit_value byte }
    ensures below { result < 10 }
{
    byte - b'0'
}

// The number that digits write, or the highest that 64 bits hold where it is higher; none where the text is no digits.
pub(crate) fn numeral(text: &[u8]) -> Option<u64>
    ensures { result ≡ cond (is_numeral text.now) (Some (min (digits_value 10 text.now) highest_read)) None }
{
    if text.is_empty() {
        return None;
    }
    let mut value = 0u64;
    for byte in text {
        if !byte.is_ascii_digit() {
            return None;
        }
        value = value
            .saturating_mul(10)
            .saturating_add(u64::from(digit(*byte)));
    }
    Some(value)
}

// Whether the text has a minus, and what stands behind it.
pub(crate) fn unsigned(text: &[u8]) -> (bool, &[u8])
    ensures minus { result.0 ≡ starts_with_minus text.now }
    ensures digits { result.1.now ≡ unsigned text.now }
{
    match text.split_first() {
        Some((&MINUS, digits)) => (true, digits),
        _ => (false, text),
    }
}

// A whole number from 0 on that 32 bits hold.
pub(crate) fn natural(text: &[u8]) -> Result<u32, Defect>
    ensures { result ≡ natural_read text.now }
{
    let number = numeral(text).ok_or(Defect::NotNatural)?;
    u32::try_from(number).map_err(|_| Defect::OutOfRange)
}

// A whole number with its sign that 32 bits hold.
pub(crate) fn count(text: &[u8]) -> Result<i32, Defect>
    ensures { result ≡ count_read text.now }
{
    let (minus, digits) = unsigned(text);
    let Some(size) = numeral(digits) else {
        return Err(Defect::NotWhole);
    };
    let most = if minus { 1u64 << 31 } else { (1u64 << 31) - 1 };
    if size > most {
        return Err(Defect::OutOfRange);
    }
    let size = size as i64;
    Ok(if minus { -size } else { size } as i32)
}
