// The cells of a watch, and the step that keeps them: a ring of margins for each entry of a rule, an ordered run for each
// window, and the tests of a zone's heads.
#![tactic(auto)]

mod entry_step;
mod nodes;
mod rings;
mod row;
mod rows;
mod taken;

pub use rows::{latest_margin, take_row};
pub use taken::Rows;
