// The entries of a log.

// One entry of a log: from this poll on the head reads what the word spells, until its next entry.
#[derive(Clone, Copy, PartialEq, Eq, Debug)]
pub struct LogEntry {
    pub poll: u32,
    pub head: u32,
    // The reading as 32 bits, a float by its bits.
    pub word: u32,
}
