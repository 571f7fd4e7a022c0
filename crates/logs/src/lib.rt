// Logs: records that keep only what changed.
#![tactic(auto)]

mod entries;
mod log;
mod marks;
mod order;
mod refusals;
mod timeline;
mod words;

pub use entries::LogEntry;
pub use log::Log;
pub use refusals::LogFault;
pub use words::Word;

#[cfg(test)]
mod tests;
