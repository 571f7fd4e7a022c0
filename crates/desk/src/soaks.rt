// A soak as the commissioner has it: a record on a scale.
use std::alloc::Global;

// A record of readings on a scale, with the heap for the cells of one rule at a time.
#[derive(Drop)]
pub struct Soak<'a, S, R> {
    pub heap: Global,
    pub scale: S,
    pub record: &'a R,
}
