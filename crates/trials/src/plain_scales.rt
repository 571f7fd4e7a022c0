// Scales as the definitions say them: which steps a reading stands for, and what a difference in steps is worth.
use crate::random::Random;
use logs::Word;
use scales::{Bounded, OnGrid, VerdictMargin};
use std::fmt::Debug;
use std::num::nearest_i32_to_f32;

// What lies over counts or obscuration, the lowest first.
#[derive(Clone, Copy, PartialEq, Eq, Debug)]
pub enum Over {
    Verdict,
    Panel,
}

// The mark of a difference in steps.
pub fn mark(layers: &[Over], difference: i64) -> i64 {
    let mut mark = difference;
    for layer in layers {
        mark = match *layer {
            Over::Verdict if mark >= 0 => 1,
            Over::Verdict => -1,
            Over::Panel => mark.clamp(-9, 9),
        };
    }
    mark
}

// A reading whose steps are told here anew.
pub trait Plain: Word + Debug {
    // The steps of a lawful reading; none where it is unlawful.
    fn steps(self) -> Option<i64>;

    // A reading, mostly lawful and near a number of steps.
    fn any(random: &mut Random, near: i64) -> Self;

    // An unlawful one.
    fn unlawful(random: &mut Random) -> Self;

    // The word that spells it in a log.
    fn word(self) -> u32;
}

impl Plain for i32 {
    fn steps(self) -> Option<i64> {
        (0..=65_535).contains(&self).then_some(self as i64)
    }

    fn any(random: &mut Random, near: i64) -> i32 {
        let steps = match random.below(12) {
            0 => 0,
            1 => 65_535,
            2 => random.between(0, 65_535),
            _ => random.between(near.saturating_sub(12), near.saturating_add(12)),
        };
        i32::try_from(steps.clamp(0, 65_535)).unwrap_or(0)
    }

    fn unlawful(random: &mut Random) -> i32 {
        random
            .one_of(&[65_536, -1, i32::MIN, i32::MAX])
            .unwrap_or(-1)
    }

    fn word(self) -> u32 {
        self.cast_unsigned()
    }
}

// How many steps of 1/256 a float is, by its parts; none where that is no whole number, or above the most in size.
fn steps_of(reading: f32, most: u64) -> Option<i64> {
    if reading.is_nan() {
        return None;
    }
    let bits = reading.to_bits();
    let exponent = (bits >> 23) & 0xff;
    let fraction = bits & 0x7f_ffff;
    // The float is the mantissa times 2 to the exponent less 150, or less 149 where the exponent is 0, and a step is 2 to the
    // -8. From 142 on the mantissa's first bit alone is above every limit.
    let mantissa = if exponent == 0 {
        fraction
    } else {
        fraction | 0x80_0000
    };
    let down = 142u32.checked_sub(exponent.max(1))?;
    let whole = mantissa.checked_shr(down).unwrap_or(0);
    if whole.checked_shl(down).unwrap_or(0) != mantissa {
        return None;
    }
    let steps = if bits >> 31 == 1 {
        -(whole as i64)
    } else {
        whole as i64
    };
    (steps.unsigned_abs() <= most).then_some(steps)
}

impl Plain for f32 {
    fn steps(self) -> Option<i64> {
        steps_of(self, 1_048_576)
    }

    fn any(random: &mut Random, near: i64) -> f32 {
        let steps = match random.below(14) {
            0 => 0,
            1 => 1_048_576,
            2 => -1_048_576,
            3 => return -0.0,
            4 => random.between(-1_048_576, 1_048_576),
            _ => random.between(near.saturating_sub(12), near.saturating_add(12)),
        };
        let steps = i32::try_from(steps.clamp(-1_048_576, 1_048_576)).unwrap_or(0);
        nearest_i32_to_f32(steps) / 256.0
    }

    fn unlawful(random: &mut Random) -> f32 {
        random
            .one_of(&[
                0.001,
                4096.003_906_25,
                -4096.003_906_25,
                f32::NAN,
                f32::INFINITY,
                1e30,
                -1e-40,
                0.001_953_125,
            ])
            .unwrap_or(f32::NAN)
    }

    fn word(self) -> u32 {
        // The one NaN by a pattern of its own: `to_bits` is of every other float.
        if self.is_nan() {
            0x7fc0_0000
        } else {
            self.to_bits()
        }
    }
}

// A margin whose whole number is told here anew.
pub trait Whole: Copy {
    fn whole(self) -> i64;
}

impl<const MOST: u32> Whole for Bounded<MOST> {
    fn whole(self) -> i64 {
        self.value() as i64
    }
}

impl<const MOST: u32> Whole for OnGrid<MOST> {
    fn whole(self) -> i64 {
        steps_of(self.value(), 2_097_152).unwrap_or(i64::MIN)
    }
}

impl Whole for VerdictMargin {
    fn whole(self) -> i64 {
        match self {
            VerdictMargin::Yes => 1,
            VerdictMargin::No => -1,
        }
    }
}
