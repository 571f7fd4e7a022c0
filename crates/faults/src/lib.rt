// The one form of every refusal: its number, the layer that refuses, and the place at fault.
#![tactic(auto)]

mod grounds;
mod layers;
mod places;
mod refusals;

pub use grounds::Ground;
pub use layers::Layer;
pub use places::Place;
pub use refusals::Fault;
