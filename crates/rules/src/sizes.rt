// The sizes that a rule keeps to.

// The most entries of a rule.
pub const ENTRIES: usize = 24;

// The most heads of a rule's zone.
pub const ZONE_HEADS: usize = 32;

// The most polls past its own that a rule looks ahead.
pub const HORIZON: u32 = 4_095;
