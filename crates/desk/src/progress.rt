// How far the work is.

// Who is told how far the work is. It is told after every poll, so it should mostly answer at once.
pub trait Progress {
    // The rule of this number begins.
    fn begin(&mut self, rule_number: u16);

    // So many polls of the rule are done.
    fn tell(&mut self, polls: u32);
}

// Nobody is told.
#[derive(Clone, Copy, Debug)]
pub struct Quiet;

impl Progress for Quiet {
    fn begin(&mut self, _rule_number: u16) {}

    fn tell(&mut self, _polls: u32) {}
}
