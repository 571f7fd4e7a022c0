// The margins of many polls in as many columns as a picture has.
ghost use Rattle.std.specs.Prelude.{◌≡◌, ℕ};
ghost use Rattle.desk.specs.Columns.{AreColumns, each_of, middle_of, one_margin, widened, with_last};
ghost use Rattle.desk.specs.Told.{IsMemory};
ghost use Rattle.desk.specs.declared.answered.Answered.{Answered};

use crate::answered::{Answered, Listener};
use crate::picture::COLUMNS;
use crate::trouble::Trouble;
use std::alloc::Global;

// The margins of some polls that follow one another: the lowest and the highest.
#[derive(Clone, Copy, PartialEq, Eq, Debug)]
pub(crate) struct Column {
    pub lowest: i32,
    pub highest: i32,
}

impl Column {
    // The column of one margin.
    fn of(margin: i32) -> Column
        ensures { result ≡ one_margin margin }
    {
        Column {
            lowest: margin,
            highest: margin,
        }
    }

    // The same with a margin more.
    fn with(self, margin: i32) -> Column
        ensures { result ≡ widened self margin }
    {
        Column {
            lowest: self.lowest.min(margin),
            highest: self.highest.max(margin),
        }
    }
}

// Puts a margin more into the last column.
fn widen_last(columns: &mut Vec<Column>, margin: i32)
    ensures { columns.new.items ≡ with_last columns.old.items margin }
{
    if let Some(last) = columns.last_mut() {
        *last = last.with(margin);
    }
}

// Columns of equally many polls each, but for the last, which may have fewer.
#[derive(Drop)]
pub(crate) struct Columns {
    // How many polls are in each.
    pub each: u32,
    // How many are in the last one so far. Before the first it is as if one were full.
    pub filled: u32,
    pub columns: Vec<Column>,
}

impl Columns {
    // No columns yet, for so many polls.
    pub(crate) fn over(heap: Global, polls: u32) -> Columns
        ensures columns { (answers : ℕ → Answered) → AreColumns result.each result.filled result.columns.items result.each 0 answers }
        ensures each { result.each ≡ each_of polls }
    {
        let each = polls.div_ceil(COLUMNS).max(1);
        Columns {
            each,
            filled: each,
            columns: Vec::new(heap),
        }
    }

    // The poll in the middle of a column.
    pub(crate) fn middle(&self, at: usize) -> u32
        ensures { result ≡ middle_of self.now.each at }
    {
        let first = (at as u64).saturating_mul(self.each as u64);
        first
            .saturating_add(self.each as u64 / 2)
            .min(u32::MAX as u64) as u32
    }
}

impl Listener for Columns {
    ghost heard = { λ first columns n answers. AreColumns columns.each columns.filled columns.columns.items first.each n answers };

    ghost stops = { IsMemory };

    fn hear(&mut self, answered: Answered) -> Result<(), Trouble> {
        if self.filled < self.each {
            widen_last(&mut self.columns, answered.margin);
            self.filled += 1;
            return Ok(());
        }
        let column = Column::of(answered.margin);
        self.columns.push(column).map_err(|_| Trouble::Memory)?;
        self.filled = 1;
        Ok(())
    }
}
