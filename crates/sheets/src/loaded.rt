// What a load answers.

// How many groups, zones and rules a sheet has.
#[derive(Clone, Copy, PartialEq, Eq, Debug)]
pub struct Loaded {
    pub groups: usize,
    pub zones: usize,
    pub rules: usize,
}
