// Ordered runs: margins kept highest first in cells that the caller lends.
ghost use Rattle.std.specs.Prelude.{◌≡◌, ◌+◌, ◌-◌, ◌≤◌, min, length, take, ℤ, Option};
ghost use Rattle.std.specs.Option.{option_map};
ghost use Rattle.runs.specs.Highest.{hit};
ghost use Rattle.runs.specs.Cells.{wholes, InOrder, PutIn, TakenOut, Replaced, in_place};
ghost use Rattle.runs.specs.Laws.{KthHighest};

use crate::cells::{find, insert_at, place, remove_at, replace_at};
use scales::Scale;

// A run of margins, highest first, in the first kept of the cells that it was lent, since it has no memory of its own. Each
// `lender` clause says that the run still holds that loan: it compares two values, which neither an invariant nor a model of
// one value can. A call that can be refused answers yes or no, as a set's insert and remove do: there is one refusal, and
// nothing to tell of it.
#[derive(Drop)]
pub struct OrderedRun<'a, M> {
    cells: &'a mut [M],
    kept: usize,
    ghost within: { kept ≤ length cells.now },
}

impl<'a, M: Copy> OrderedRun<'a, M> {
    // A run that keeps no margin yet.
    pub fn new(cells: &'a mut [M]) -> Self
        ensures kept { result.kept ≡ 0 }
        ensures cells { result.cells.now ≡ cells.old }
        ensures lender { result.cells.ghost_name ≡ cells.entry.ghost_name }
    {
        OrderedRun { cells, kept: 0 }
    }

    // The run that the first kept cells already are; all of them where there are fewer.
    pub fn over(cells: &'a mut [M], kept: usize) -> Self
        ensures kept { result.kept ≡ min kept (length cells.old) }
        ensures cells { result.cells.now ≡ cells.old }
        ensures lender { result.cells.ghost_name ≡ cells.entry.ghost_name }
    {
        let kept = kept.min(cells.len());
        OrderedRun { cells, kept }
    }

    // How many margins it keeps.
    pub fn len(&self) -> usize
        ensures { result ≡ self.now.kept }
    {
        self.kept
    }

    // Puts a margin in, or says no exactly if the run fills its cells.
    pub fn put<S: Scale<Margin = M>>(&mut self, scale: &S, m: M) -> bool
        ensures puts { PutIn (S.Scale.model scale.now).whole self.old.kept self.old.cells.now self.new.cells.now m result }
        ensures kept { self.new.kept ≡ self.old.kept + hit result }
        ensures lender { self.new.cells.ghost_name ≡ self.old.cells.ghost_name }
    {
        let kept = self.kept;
        let cells = &mut *self.cells;
        if kept == cells.len() {
            return false;
        }
        let at = place(scale, &cells[..kept], m);
        insert_at(&mut cells[..=kept], at, m);
        self.kept = kept + 1;
        true
    }

    // Takes out one margin of m's whole number, and says whether there was one.
    pub fn take<S: Scale<Margin = M>>(&mut self, scale: &S, m: M) -> bool
        ensures takes { TakenOut (S.Scale.model scale.now).whole self.old.kept self.old.cells.now self.new.cells.now m result }
        ensures kept { self.new.kept ≡ self.old.kept - hit result }
        ensures lender { self.new.cells.ghost_name ≡ self.old.cells.ghost_name }
    {
        let kept = self.kept;
        let cells = &mut *self.cells;
        let margins = &mut cells[..kept];
        let Some(at) = find(scale, margins, m) else {
            return false;
        };
        remove_at(margins, at);
        self.kept = kept - 1;
        true
    }

    // Takes out one margin of old's whole number and puts new in, by one shift; says whether there was one.
    pub fn replace<S: Scale<Margin = M>>(&mut self, scale: &S, old: M, new: M) -> bool
        ensures replaces { Replaced (S.Scale.model scale.now).whole self.old.kept self.old.cells.now self.new.cells.now old new result }
        ensures kept { self.new.kept ≡ self.old.kept }
        ensures lender { self.new.cells.ghost_name ≡ self.old.cells.ghost_name }
    {
        let kept = self.kept;
        let cells = &mut *self.cells;
        let margins = &mut cells[..kept];
        let Some(gone) = find(scale, margins, old) else {
            return false;
        };
        let at = place(scale, margins, new);
        replace_at(margins, gone, at, new);
        true
    }

    // The K-th margin kept, which is the K-th highest; none if K is 0 or above their number.
    pub fn pick(&self, k: usize) -> Option<M>
        ensures stands { result ≡ in_place k (take self.now.kept self.now.cells.now) }
        ensures highest { (whole : M → ℤ) → InOrder whole self.now.kept self.now.cells.now → KthHighest k (wholes whole self.now.kept self.now.cells.now) (option_map whole result) }
    {
        let cells = &*self.cells;
        let at = k.checked_sub(1)?;
        cells[..self.kept].get(at).copied()
    }
}
