// Entries as a caller writes them.
use entries::{Entry, Kind};

// A head at least a limit.
pub fn head_test(head: u8, limit: i32) -> Entry {
    Entry {
        kind: Kind::HeadTest as u8,
        head,
        limit,
        ..Entry::BLANK
    }
}

// So many heads of the zone at least a limit.
pub fn zone_test(k: u8, limit: i32) -> Entry {
    Entry {
        kind: Kind::ZoneTest as u8,
        k,
        limit,
        ..Entry::BLANK
    }
}
