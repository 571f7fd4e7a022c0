// Worked examples of the contracts of watches: a run of calls of every kind, how far heads may wander, and the settled
// readings.
#![tactic(auto)]

mod calls;
mod settled;

pub use calls::{begun_anew, may_wander};
pub use settled::settled_examples_stand;
