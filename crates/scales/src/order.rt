// Margins in the order of their whole numbers, on any scale. A margin may be of any type, and only its scale orders it,
// so this is no impl of Ord.
ghost use Rattle.std.specs.Prelude.{◌≡◌};
ghost use Rattle.std.specs.Int.{int_min, int_max};
ghost use Rattle.scales.specs.Order.{ordered};

use crate::scale::Scale;
use std::cmp::Ordering;

// How two margins compare.
pub fn compare<S: Scale>(scale: &S, a: S::Margin, b: S::Margin) -> Ordering
    ensures { result ≡ ordered ((S.Scale.model scale.now).whole a) ((S.Scale.model scale.now).whole b) }
{
    if scale.exceeds(a, b) {
        Ordering::Greater
    } else if scale.exceeds(b, a) {
        Ordering::Less
    } else {
        Ordering::Equal
    }
}

// The higher of two margins.
pub fn higher<S: Scale>(scale: &S, a: S::Margin, b: S::Margin) -> S::Margin
    ensures { (S.Scale.model scale.now).whole result ≡ int_max ((S.Scale.model scale.now).whole a) ((S.Scale.model scale.now).whole b) }
{
    if scale.exceeds(b, a) { b } else { a }
}

// The lower of two margins.
pub fn lower<S: Scale>(scale: &S, a: S::Margin, b: S::Margin) -> S::Margin
    ensures { (S.Scale.model scale.now).whole result ≡ int_min ((S.Scale.model scale.now).whole a) ((S.Scale.model scale.now).whole b) }
{
    if scale.exceeds(a, b) { b } else { a }
}
