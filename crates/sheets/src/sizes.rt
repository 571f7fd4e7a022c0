// The sizes that a sheet keeps to.

// The most bytes of a sheet.
pub const SHEET_BYTES: usize = 16_384;

// The most groups of a sheet.
pub const GROUPS: usize = 16;

// The most bytes of a group's name.
pub const NAME_BYTES: usize = 24;

// The most zones of a sheet.
pub const ZONES: usize = 32;

// The most rules of a sheet.
pub const RULES: usize = 64;
