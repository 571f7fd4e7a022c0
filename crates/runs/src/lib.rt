// The K-th highest of margins, and runs that keep margins in order, on any scale.
#![tactic(auto)]

mod cells;
mod run;
mod select;
mod share;
#[cfg(test)]
mod tests;

pub use run::OrderedRun;
pub use select::pick;
pub use share::rank;
