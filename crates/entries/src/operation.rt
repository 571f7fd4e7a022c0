// What an entry with lawful fields does.
use scales::Test;

// The operation of an entry, on the formulas before it.
#[derive(Clone, Copy)]
pub enum Operation {
    // The test of one head against a limit.
    HeadTest { head: u8, test: Test },
    // The K-th highest test over all heads of the zone.
    ZoneTest { k: u8, test: Test },
    // The complement of one formula.
    Not,
    // The higher of two.
    Either,
    // The lower of two.
    Both,
    // The K-th highest of one formula's margins from `first` to `last` polls ahead, K by the share in thousandths.
    Window { first: u16, last: u16, share: u16 },
}
