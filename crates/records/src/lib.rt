// Records: up to 64 heads, up to 16,777,216 polls, and for each head and poll a reading or none.
#![tactic(auto)]

mod excerpts;
mod grids;
mod limits;
mod readings;
mod refusals;

pub use excerpts::Excerpt;
pub use grids::Grid;
pub use limits::{HEADS, POLLS, Size};
pub use readings::Record;
pub use refusals::RecordFault;

#[cfg(test)]
mod tests;
