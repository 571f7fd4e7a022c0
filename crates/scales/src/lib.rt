// Scales: how a reading becomes steps, and how a difference in steps becomes a margin.
#![tactic(auto)]

mod bounded;
mod counts;
mod limit;
mod obscuration;
mod order;
mod panel;
mod scale;
#[cfg(test)]
mod tests;
mod verdict;

pub use bounded::Bounded;
pub use counts::{CountMargin, Counts};
pub use limit::{Limit, Sense, Test, UnknownSense};
pub use obscuration::{Obscuration, ObscurationMargin, OnGrid};
pub use order::{compare, higher, lower};
pub use panel::{Panel, PanelMargin};
pub use scale::Scale;
pub use verdict::{Verdict, VerdictMargin};
