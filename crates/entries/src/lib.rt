// What a rule is made of: sets of heads, entries as a caller writes them, and the operations that they stand for.
#![tactic(auto)]

mod decode;
mod encode;
mod entry;
mod heads;
mod iter;
mod kind;
mod operation;

pub use decode::{SHARE_WHOLE, WINDOW_LAST};
pub use entry::Entry;
pub use heads::{HEADS, HeadSet};
pub use iter::Heads;
pub use kind::{Kind, UnknownKind};
pub use operation::Operation;
