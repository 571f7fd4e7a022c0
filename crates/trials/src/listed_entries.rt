// Entries written out, for what is tried one by one.
use entries::Entry;

// A head at least a limit.
pub fn head_test(head: u8, limit: i32) -> Entry {
    Entry {
        kind: 16,
        head,
        limit,
        ..Entry::BLANK
    }
}

// A share in thousandths of the polls from `first` to `last`.
pub fn window(first: u16, last: u16, share: u16) -> Entry {
    Entry {
        kind: 21,
        first,
        last,
        share,
        ..Entry::BLANK
    }
}

// The opposite of a formula.
pub fn not() -> Entry {
    Entry {
        kind: 18,
        ..Entry::BLANK
    }
}

// The higher of two formulas.
pub fn either() -> Entry {
    Entry {
        kind: 19,
        ..Entry::BLANK
    }
}

// Windows one in another, the outermost with this last poll.
pub fn nested(last: u16) -> [Entry; 4] {
    [
        head_test(0, 8),
        window(0, 1_439, 1_000),
        window(0, 1_439, 500),
        window(0, last, 500),
    ]
}
