// What panel firmware in C calls: surveys of a record at a poll, and plays of a record through a watch into a list of margins.
#![tactic(auto)]

mod answers;
mod cell_scale;
mod cells;
mod exports;
mod lent;
mod plain;
mod plays;
mod refusals;
