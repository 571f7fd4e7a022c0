// Grids: every reading, poll by poll.
ghost use Rattle.std.specs.Prelude.{◌≡◌, ◌+◌, ◌*◌, ⊤, true, length, IfOk};
ghost use Rattle.std.specs.Result.{result_err};
ghost use Rattle.faults.specs.Checks.{checked};
ghost use Rattle.records.specs.Grid.{grid_fault, grid_record, grid_kept};

use crate::limits::Size;
use crate::readings::Record;
use crate::refusals::RecordFault;
use std::alloc::AllocError;

// A record over lent readings, poll by poll, and within a poll head by head.
pub struct Grid<'a, T> {
    size: Size,
    readings: &'a [T],
    ghost lawful: { grid_kept size.heads size.polls (length readings.now) ≡ true },
}

// By hand, since none can be derived for a struct with a ghost field over a type parameter.
impl<'a, T> Clone for Grid<'a, T> {
    ghost is_clone = { λ grid copy. copy ≡ grid };

    ghost is_infallible = { λ _. ⊤ };

    fn clone(&self) -> Result<Grid<'a, T>, AllocError> {
        Ok(*self)
    }
}

impl<'a, T> Copy for Grid<'a, T> {}

// Where the reading of the head at the poll stands.
fn place(heads: u32, head: u32, poll: u32) -> usize
    ensures { result ≡ poll * heads + head }
{
    poll as usize * heads as usize + head as usize
}

// The public clauses name fields: a record's meaning is a function of head and poll, which the
// Value of a Model cannot hold.
impl<'a, T: Copy> Grid<'a, T> {
    // The grid of these readings, or the fault that refuses them.
    fn made(heads: u32, polls: u32, readings: &'a [T]) -> Result<Grid<'a, T>, RecordFault>
        ensures fault { result_err result ≡ grid_fault heads polls (length readings.now) }
        ensures grid { IfOk result (λ g. grid_record g.size.heads g.size.polls g.readings.now ≡ grid_record heads polls readings.now) }
    {
        let size = Size::new(heads, polls)?;
        if readings.len() != heads as usize * polls as usize {
            return Err(RecordFault::ReadingsDoNotFill {
                readings: readings.len(),
                heads,
                polls,
            });
        }
        Ok(Grid { size, readings })
    }

    // Whether these readings make a grid: ground 6 where they do not.
    pub fn check(heads: u32, polls: u32, readings: &[T]) -> Result<(), RecordFault>
        ensures { result ≡ checked (grid_fault heads polls (length readings.now)) }
    {
        Grid::made(heads, polls, readings)?;
        Ok(())
    }

    // The grid of these readings, or the empty record where the check refuses them.
    pub fn new(heads: u32, polls: u32, readings: &'a [T]) -> Grid<'a, T>
        ensures { grid_record result.size.heads result.size.polls result.readings.now ≡ grid_record heads polls readings.now }
    {
        Grid::made(heads, polls, readings).unwrap_or(Grid {
            size: Size::none(),
            readings: &[],
        })
    }
}

impl<'a, T: Copy> Record for Grid<'a, T> {
    type Reading = T;

    ghost model = { λ g. grid_record g.size.heads g.size.polls g.readings.now };

    // As a log answers: a trait's methods are written for each type, and its size is what they share.
    fn heads(&self) -> u32 {
        self.size.heads
    }

    fn polls(&self) -> u32 {
        self.size.polls
    }

    fn reading(&self, head: u32, poll: u32) -> Option<T> {
        if !self.size.holds(head, poll) {
            return None;
        }
        Some(self.readings[place(self.size.heads, head, poll)])
    }
}
