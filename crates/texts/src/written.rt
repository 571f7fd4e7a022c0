// Numbers as texts write them.
ghost use Rattle.std.specs.Prelude.{◌≡◌, ℕ, List, Result, IfOk};
ghost use Rattle.texts.specs.Decimals.{percent_read, IsExact};
ghost use Rattle.texts.specs.Numbers.{natural_read, count_read};
ghost use Rattle.texts.specs.declared.refusals.Defect.{Defect};

use crate::decimals::obscuration;
use crate::numbers::{count, natural};
use crate::refusals::Defect;
use logs::Word;
use std::num;

// A number that a text writes.
pub trait Written: Copy {
    ghost written: { List ℕ → Result Self Defect };

    // The number that the whole text writes, or what is wrong with the text.
    fn read(text: &[u8]) -> Result<Self, Defect>
        ensures { result ≡ written text.now };
}

// A poll, a head, or a number of these: digits alone.
impl Written for u32 {
    ghost written = { natural_read };

    fn read(text: &[u8]) -> Result<u32, Defect> {
        natural(text)
    }
}

// A reading on counts: digits, with or without a minus before them.
impl Written for i32 {
    ghost written = { count_read };

    fn read(text: &[u8]) -> Result<i32, Defect> {
        count(text)
    }
}

// A reading on obscuration, in percent per metre: digits, with or without a minus before them and a point and decimals behind.
impl Written for f32 {
    ghost written = { percent_read };

    fn read(text: &[u8]) -> Result<f32, Defect>
        ensures value { result ≡ percent_read text.now }
        ensures exact { IfOk result (IsExact text.now) }
    {
        obscuration(text)
    }
}

// A reading that a text writes and that a log can keep.
pub trait WrittenReading: Written + Word {
    // The word that spells the reading.
    fn to_word(self) -> u32
        ensures { Self.Word.spelled result ≡ self };
}

impl WrittenReading for i32 {
    fn to_word(self) -> u32 {
        self.cast_unsigned()
    }
}

impl WrittenReading for f32 {
    fn to_word(self) -> u32 {
        num::f32_to_bits_with_nan(self)
    }
}
