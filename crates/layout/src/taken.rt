// How many rows were taken, and where the next one stands.
ghost use Rattle.std.specs.Prelude.{◌≡◌, ◌+◌, ◌-◌, ◌%◌, ◌<◌, ◌≤◌, min};
ghost use Rattle.layout.specs.Rows.{most_counted};
ghost use Rattle.layout.specs.Shape.{shape};

use crate::nodes::ring_size;
use rules::Rule;

// So many rows, with the place of the next one in rings of a size: a division takes as long as twenty other instructions, and
// one for each place as long as all else in a rule of many entries.
#[derive(Clone, Copy)]
pub struct Rows {
    pub(crate) count: u32,
    pub(crate) slot: u32,
    pub(crate) ring: u32,
    ghost some: { 0 < ring },
    ghost standing: { slot ≡ count % ring },
}

impl Rows {
    // No row, for the rings of a rule.
    pub fn none(rule: &Rule) -> Rows
        ensures count { result.count ≡ 0 }
        ensures ring { result.ring ≡ (shape rule.now).ring }
    {
        Rows {
            count: 0,
            slot: 0,
            ring: ring_size(rule),
        }
    }

    // How many rows.
    pub fn count(self) -> u32
        ensures { result ≡ self.count }
    {
        self.count
    }

    // The place after that of the next one.
    fn slot_after(self) -> u32
        ensures { result ≡ (self.count + 1) % self.ring }
    {
        let after = self.slot + 1;
        if after < self.ring { after } else { 0 }
    }

    // One row more, up to as many as can be counted.
    pub fn next(self) -> Rows
        ensures count { result.count ≡ min (self.count + 1) most_counted }
        ensures ring { result.ring ≡ self.ring }
    {
        if self.count == u32::MAX {
            return self;
        }
        Rows {
            count: self.count + 1,
            slot: self.slot_after(),
            ring: self.ring,
        }
    }

    // As many, for the rings of a rule: they are the same, but where another rule's rows are handed in.
    pub(crate) fn within(self, rule: &Rule) -> Rows
        ensures count { result.count ≡ self.count }
        ensures ring { result.ring ≡ (shape rule.now).ring }
    {
        let ring = ring_size(rule);
        if ring == self.ring {
            return self;
        }
        Rows {
            count: self.count,
            slot: self.count % ring,
            ring,
        }
    }

    // The place of the row so many before the next one, a whole ring at most.
    pub(crate) fn slot_back(self, back: u32) -> u32
        requires taken { back ≤ self.count }
        requires held { back ≤ self.ring }
        ensures { result ≡ (self.count - back) % self.ring }
    {
        if back <= self.slot {
            self.slot - back
        } else {
            self.slot + (self.ring - back)
        }
    }
}
