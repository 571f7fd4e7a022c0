// What a commissioner reads of rules over a soak: a report of all rules, and one rule's margins as a table and as a picture.
#![tactic(auto)]

mod amount;
mod answered;
mod columns;
mod following;
mod margins;
mod measured;
mod outcome;
mod picture;
mod plot;
mod progress;
mod report;
mod soaks;
#[cfg(test)]
mod tests;
mod trouble;

pub use amount::{Amount, Unit};
pub use answered::{Answered, Listener};
pub use measured::Measured;
pub use outcome::{Outcome, Summary};
pub use progress::{Progress, Quiet};
pub use report::RuleRow;
pub use soaks::Soak;
pub use trouble::Trouble;
