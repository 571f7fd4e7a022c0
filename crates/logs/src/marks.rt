// An index of a log: for every 256th entry, where each head's latest entry before it stands.
ghost use Rattle.std.specs.Prelude.{◌≡◌, ◌-◌, ◌^◌, ◌≤◌, length, min};
ghost use Rattle.logs.specs.Marks.{IsRow, Marked, room};
ghost use Rattle.records.specs.Model.{most_heads};

use crate::timeline::Timeline;
use records::HEADS;

// The entries from one row of marks to the next.
pub(crate) const STRIDE: usize = 256;

// How many marks the index of so many entries takes.
pub(crate) fn marks_for(heads: u32, entries: usize) -> usize
    ensures { result ≡ min (room heads entries) (2 ^ 64 - 1) }
{
    (entries / STRIDE + 1).saturating_mul(heads as usize)
}

impl Timeline<'_> {
    // Takes the entries of a stretch into a row with a mark for each head that a record may have.
    fn absorb(&self, row: &mut [usize; HEADS as usize], from: usize, to: usize)
        requires order { from ≤ to }
        requires within { to ≤ length self.now.entries.now }
        requires before { IsRow most_heads self.now.entries.now from row.old }
        ensures { IsRow most_heads self.now.entries.now to row.new }
    {
        for (i, e) in self.entries[from..to].iter().enumerate() {
            row[e.head as usize] = from + i + 1;
        }
    }

    // Makes the marks the index of the entries. A mark is one more than an entry's place, and 0
    // where there is none: the caller lends words, and options would ask more of it. So is the
    // row, which is copied into the marks.
    pub(crate) fn fill(&self, marks: &mut [usize])
        requires { room self.now.size.heads (length self.now.entries.now) ≤ length marks.old }
        ensures { Marked self.now.size.heads self.now.entries.now marks.new }
    {
        let mut row = [0; HEADS as usize];
        let width = self.size.heads as usize;
        // By index: what is written through `chunks_mut` is not known once its borrow is over.
        for b in 0..self.entries.len() / STRIDE + 1 {
            let at = b * width;
            marks[at..at + width].copy_from_slice(&row[..width]);
            let from = b * STRIDE;
            let to = from.saturating_add(STRIDE).min(self.entries.len());
            self.absorb(&mut row, from, to);
        }
    }
}
