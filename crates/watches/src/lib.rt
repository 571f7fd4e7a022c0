// Watches: a rule on a scale, fed with the polls of records row by row, and its margin asked for at any time.
#![tactic(auto)]

mod answers;
mod cells;
mod refusals;
mod source;
mod surveys;
#[cfg(test)]
mod tests;
mod watch;

pub use answers::{Answer, Play};
pub use refusals::{ROWS, WatchFault};
pub use surveys::survey;
pub use watch::Watch;
