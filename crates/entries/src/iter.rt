// The heads of a set, one after another.
ghost use Rattle.std.specs.Prelude.{◌≡◌};
ghost use Rattle.std.specs.Iterator.{YieldsFirst, item_count};
ghost use Rattle.entries.specs.Heads.{heads, Rising};
ghost use Rattle.entries.specs.Iter.{heads_left};

use crate::heads::HeadSet;

// The heads of a set that are still to come, in rising order.
#[derive(Clone, Debug, Drop)]
pub struct Heads {
    left: HeadSet,
}

impl Iterator for Heads {
    type Item = u8;

    ghost next_gives = { YieldsFirst heads_left };

    ghost remaining = { item_count heads_left };

    fn next(&mut self) -> Option<u8> {
        let (head, left) = self.left.split_first()?;
        self.left = left;
        Some(head)
    }
}

impl HeadSet {
    // All its heads, in rising order.
    #[tactic(auto, using(crate::proofs::Listing::rising))]
    pub fn iter(self) -> Heads
        ensures all { heads_left result ≡ heads self.bits }
        ensures rising { Rising (heads self.bits) }
    {
        Heads { left: self }
    }
}

impl IntoIterator for HeadSet {
    type Item = u8;

    type IntoIter = Heads;

    ghost into_iter_gives = { λ set it. heads_left it ≡ heads set.bits };

    fn into_iter(self) -> Heads {
        self.iter()
    }
}
