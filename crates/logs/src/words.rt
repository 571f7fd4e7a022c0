// Readings as 32-bit words.
ghost use Rattle.std.specs.Prelude.{◌≡◌, ℕ, from_bits};
ghost use Rattle.std.specs.Float.{binary32};
ghost use Rattle.std.proofs.Common.{to_z};
ghost use Rattle.std.specs.Int.{w32};

use std::num;

// A reading that a 32-bit word spells. A trait of its own: From<u32> of i32 and of f32 is not for
// this crate to implement.
pub trait Word: Copy {
    ghost spelled: { ℕ → Self };

    // The reading that the word spells.
    fn from_word(word: u32) -> Self
        ensures { result ≡ spelled word };
}

// A signed reading, in two's complement.
impl Word for i32 {
    ghost spelled = { to_z w32 };

    fn from_word(word: u32) -> i32 {
        word.cast_signed()
    }
}

// A float, by its bits. Every pattern of a NaN spells the one NaN.
impl Word for f32 {
    ghost spelled = { from_bits binary32 };

    fn from_word(word: u32) -> f32 {
        num::f32_from_bits_with_nan(word)
    }
}
