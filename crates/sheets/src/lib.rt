// The reader of the panel's rule sheet.
#![tactic(auto)]

mod draft;
mod fault;
mod fields;
mod formula;
mod group;
mod loaded;
mod loading;
mod piece;
mod reader;
mod rule;
mod sentence;
mod sheet;
mod sizes;
mod split;
mod stretch;
mod zone;
mod zones;

pub use fault::SheetFault;
pub use loaded::Loaded;
pub use loading::load;
pub use sizes::{GROUPS, NAME_BYTES, RULES, SHEET_BYTES, ZONES};
