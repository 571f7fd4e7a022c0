// The scale of counts, and its margins.
use crate::bounded::Bounded;

mod scaling;

// Counts: readings are lawful from 0 to 65,535, and the margin of a test is the difference.
#[derive(Clone, Copy)]
pub struct Counts;

impl Counts {
    // The highest lawful reading.
    pub const MOST: i32 = 65_535;
}

// A margin in counts. A lawful reading and a limit lie at most 1,114,111 apart, so every margin has a complement.
pub type CountMargin = Bounded<1_114_111>;
