// Rules over detector heads: a list of entries in a zone, what it assembles to, and what is asked of the rule it makes.
#![tactic(auto)]

mod assemble;
mod draft;
mod fault;
mod line;
mod lines;
mod listing;
mod node;
mod nodes;
mod operands;
mod place;
mod questions;
mod reason;
mod rule;
mod sizes;
mod span;
mod start;
#[cfg(test)]
mod tests;
mod totals;
mod walk;

pub use fault::RuleFault;
pub use node::Node;
pub use place::RulePlace;
pub use reason::Reason;
pub use rule::Rule;
pub use sizes::{ENTRIES, HORIZON, ZONE_HEADS};
