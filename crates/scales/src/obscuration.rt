// The scale of obscuration, and its margins.
mod grid;
mod scaling;

pub use grid::OnGrid;

// Obscuration in percent per metre: a reading is lawful if it is a whole number of steps of 1/256 from -1,048,576 to
// 1,048,576, and the margin of a test is the float difference, which is exact over such steps.
#[derive(Clone, Copy)]
pub struct Obscuration;

// A margin in percent per metre: a whole number of steps of 1/256, at most 2,097,152 in size.
pub type ObscurationMargin = OnGrid<2_097_152>;
