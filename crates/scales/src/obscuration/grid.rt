// Floats by their whole number of 256ths. Each float operation stands alone here, with the fact that it is exact.
ghost use Rattle.std.specs.Prelude.{◌≡◌, ◌≤◌, T, ◌-ℤ◌, neg_ℤ, pos, int_lt, nat_le, unsigned_abs};
ghost use Rattle.std.specs.Float.Ieee.{eq};
ghost use Rattle.std.specs.Option.{option_map, ForSome};
ghost use Rattle.scales.specs.Grid.{on_grid, grid_whole, grid_steps};

use crate::limit::Limit;
use std::num::saturating_f32_to_i32;
use std::ops::Neg;

// How many steps make one percent per metre.
const STEPS: f32 = 256.0;

// A float that is a whole number of steps, from -MOST to MOST. Either zero is nought. It is a type beside `Bounded`, since its
// fact is of the float's whole number and each operation has a proof of its own: a type over both would want a trait with all.
#[derive(Clone, Copy)]
pub struct OnGrid<const MOST: u32> {
    value: f32,
    ghost grid: { T (on_grid MOST value) },
}

// A lawful reading, or a limit.
pub(super) type Lawful = OnGrid<1_048_576>;

// The steps of a float that is a whole number of them.
#[tactic(auto, using(crate::proofs::GridValues::times_256))]
fn to_steps(value: f32) -> i32
    ensures { T (on_grid 2097152 value) → result ≡ grid_whole value }
{
    saturating_f32_to_i32(value * STEPS)
}

// Whether a reading or a limit may have so many steps.
fn in_range(steps: i32) -> bool
    ensures { result ≡ nat_le (unsigned_abs steps) 1048576 }
{
    Limit::LEAST <= steps && steps <= Limit::MOST
}

// Whether two floats are equal; either zero is nought.
fn is_same(a: f32, b: f32) -> bool
    ensures { result ≡ eq a b }
{
    a == b
}

impl Lawful {
    // The float of so many steps.
    #[tactic(auto, using(crate::proofs::GridValues::limit_on, crate::proofs::GridValues::limit_is))]
    pub(super) fn from_steps(steps: i32) -> Lawful
        requires { unsigned_abs steps ≤ 1048576 }
        ensures { grid_whole result.value ≡ steps }
    {
        Lawful {
            value: steps as f32 / STEPS,
        }
    }

    // A reading that has steps; none where they are no whole number or out of range. The way there and back tells. The reading
    // stands as it is, and is not made anew from its steps, which would take a zero's sign.
    #[tactic(auto, using(crate::proofs::GridReadings::no_steps, crate::proofs::GridReadings::other_float, crate::proofs::GridReadings::same_on, crate::proofs::GridReadings::on_steps))]
    pub(super) fn of(reading: f32) -> Option<Lawful>
        ensures steps { option_map (λ r. grid_whole r.value) result ≡ grid_steps 1048576 reading }
        ensures itself { ForSome result (λ r. r.value ≡ reading) }
    {
        let steps = to_steps(reading);
        if !in_range(steps) {
            return None;
        }
        if !is_same(Lawful::from_steps(steps).value, reading) {
            return None;
        }
        Some(Lawful { value: reading })
    }

    // The float difference, which is exact.
    #[tactic(auto, using(crate::proofs::GridSums::difference_on, crate::proofs::GridSums::difference_is))]
    pub(super) fn minus(self, other: Lawful) -> OnGrid<2_097_152>
        ensures { grid_whole result.value ≡ grid_whole self.value -ℤ grid_whole other.value }
    {
        OnGrid {
            value: self.value - other.value,
        }
    }
}

impl<const MOST: u32> OnGrid<MOST> {
    // The float itself.
    pub fn value(&self) -> f32
        ensures { result ≡ self.now.value }
    {
        self.value
    }

    // By hand, since a derived order brings `==`, and two zeros are one margin.
    #[tactic(auto, using(crate::proofs::GridTests::lt_grid))]
    pub(super) fn is_below(self, other: OnGrid<MOST>) -> bool
        ensures { result ≡ int_lt (grid_whole self.entry.value) (grid_whole other.entry.value) }
    {
        self.value < other.value
    }
}

impl OnGrid<2_097_152> {
    // Neither above nor below.
    #[tactic(auto, unfolding(crate::specs::Grid::on_grid, crate::specs::Grid::grid_whole))]
    pub(super) fn nought() -> OnGrid<2_097_152>
        ensures { grid_whole result.value ≡ pos 0 }
    {
        OnGrid { value: 0.0 }
    }

    // How many steps it is.
    pub(super) fn steps(self) -> i32
        ensures { result ≡ grid_whole self.value }
    {
        to_steps(self.value)
    }
}

impl<const MOST: u32> Neg for OnGrid<MOST> {
    type Output = OnGrid<MOST>;

    ghost neg_gives = { λ a r. grid_whole r.value ≡ neg_ℤ (grid_whole a.value) };

    #[tactic(auto, using(crate::proofs::GridValues::neg_grid, crate::proofs::GridValues::neg_whole))]
    fn neg(self) -> OnGrid<MOST> {
        OnGrid { value: -self.value }
    }
}
