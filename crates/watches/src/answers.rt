// What a watch answers.
use crate::refusals::WatchFault;

// The answer to ask. Waiting is no fault, so this is no Result.
#[derive(Clone, Copy, PartialEq, Eq, Debug)]
pub enum Answer<M> {
    // No poll has all its rows yet: so many are to come.
    Waiting { rows: u32 },
    // The latest poll that has all its rows, and its margin.
    At { poll: u32, margin: M },
}

// The answer to play: the rows that it took, and the refusal that stopped it, if one did.
#[derive(Clone, Copy, PartialEq, Eq, Debug)]
pub struct Play {
    pub rows: u32,
    pub fault: Option<WatchFault>,
}
