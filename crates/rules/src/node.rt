// An entry of a rule, with the entries of its operands.
ghost use Rattle.std.specs.Prelude.{◌≡◌, ◌≤◌};
ghost use Rattle.rules.specs.Nodes.{model, window_width};

use crate::totals::width;
use scales::Test;

// The operation of an entry, with the entries at which the formulas that it takes end.
#[derive(Clone, Copy)]
pub enum Node {
    // The complement of one formula. It stands first, so that a blank line is nothing but zeros and 24 of them are quickly laid.
    Not {
        of: usize,
    },
    // The test of one head against a limit.
    HeadTest {
        head: u8,
        test: Test,
    },
    // The K-th highest test over all heads of the zone.
    ZoneTest {
        k: u8,
        test: Test,
    },
    // The higher of two.
    Either {
        left: usize,
        right: usize,
    },
    // The lower of two.
    Both {
        left: usize,
        right: usize,
    },
    // The margin of this rank among one formula's from `first` to `last` polls ahead.
    Window {
        of: usize,
        first: u16,
        last: u16,
        rank: u32,
    },
}

impl Node {
    // How many polls its window has; 0 where it is none.
    pub fn width(self) -> u32
        ensures value { result ≡ window_width (model self) }
        ensures small { result ≤ 65536 }
    {
        match self {
            Node::Window { first, last, .. } => width(first, last),
            _ => 0,
        }
    }
}
