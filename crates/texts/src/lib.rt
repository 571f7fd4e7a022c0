// Text files of readings: what a grid or a log spells, or the first place that cannot be read and why.
#![tactic(auto)]

mod decimals;
mod fields;
mod grid_text;
mod lines;
mod log_text;
mod numbers;
mod punctuation;
mod refusals;
mod rows;
mod taking;
mod written;

pub use grid_text::{GridText, read_grid};
pub use log_text::{LogText, is_log, read_log};
pub use refusals::{Defect, ReadError, TextFault};
pub use written::{Written, WrittenReading};

#[cfg(test)]
mod tests;
