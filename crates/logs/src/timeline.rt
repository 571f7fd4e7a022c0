// The entries of a log, and how a head's latest entry is found.
ghost use Rattle.std.specs.Prelude.{◌≡◌, ◌<◌, ◌≤◌, ◌==◌, true, length, reverse, find, is_some, IfOk};
ghost use Rattle.std.specs.Option.{ForSome};
ghost use Rattle.std.specs.Result.{result_err};
ghost use Rattle.logs.specs.Log.{log_fault, log_kept, latest_entry};
ghost use Rattle.logs.specs.Lookup.{HeadsBelow, Rising, Upto};
ghost use Rattle.logs.specs.Marks.{Marked, at_mark, room};

use crate::entries::LogEntry;
use crate::marks::{STRIDE, marks_for};
use crate::order::check_entries;
use crate::refusals::LogFault;
use records::Size;

// The entries of a log, in their order, and its index where there is one.
#[derive(Clone, Copy)]
pub(crate) struct Timeline<'a> {
    pub size: Size,
    pub entries: &'a [LogEntry],
    pub marks: Option<&'a [usize]>,
    ghost lawful: { log_kept size.heads size.polls entries.now ≡ true },
    ghost below: { HeadsBelow size.heads entries.now },
    ghost rising: { Rising entries.now },
    ghost indexed: { ForSome marks (λ m. Marked size.heads entries.now m.now) },
}

// The last of the entries that is the head's.
fn last_of(head: u32, entries: &[LogEntry]) -> Option<LogEntry>
    ensures { result ≡ find (λ e. e.head == head) (reverse entries.now) }
{
    entries.iter().rev().find(|e| e.head == head).copied()
}

impl<'a> Timeline<'a> {
    ghost use Rattle.logs.specs.Timeline.{IsOf};

    // The timeline of these entries, or the fault that refuses them.
    pub(crate) fn new(
        heads: u32,
        polls: u32,
        entries: &'a [LogEntry],
    ) -> Result<Timeline<'a>, LogFault>
        ensures fault { result_err result ≡ log_fault heads polls entries.now }
        ensures timeline { IfOk result (IsOf heads polls entries.now) }
    {
        let size = Size::new(heads, polls)?;
        check_entries(size, entries)?;
        Ok(Timeline {
            size,
            entries,
            marks: None,
        })
    }

    // The same timeline with an index in the lent marks, where they suffice.
    pub(crate) fn indexed(self, marks: &'a mut [usize]) -> Timeline<'a>
        ensures same { IsOf self.entry.size.heads self.entry.size.polls self.entry.entries.now result }
        ensures laid { room result.size.heads (length result.entries.now) ≤ length marks.old → is_some result.marks ≡ true }
    {
        if marks.len() < marks_for(self.size.heads, self.entries.len()) {
            return self;
        }
        self.fill(marks);
        Timeline {
            size: self.size,
            entries: self.entries,
            marks: Some(marks),
        }
    }

    // How many entries come at or before the poll.
    fn count_upto(&self, poll: u32) -> usize
        ensures { Upto self.now.entries.now poll result }
    {
        self.entries.partition_point(|e| e.poll <= poll)
    }

    // The entry that a mark names.
    fn marked(&self, mark: usize) -> Option<LogEntry>
        requires { mark ≤ length self.now.entries.now }
        ensures { result ≡ at_mark self.now.entries.now mark }
    {
        let place = mark.checked_sub(1)?;
        Some(self.entries[place])
    }

    // The head's latest entry at or before the poll: by a walk back from the poll's place, with an
    // index to the last row of marks alone.
    pub(crate) fn latest(&self, head: u32, poll: u32) -> Option<LogEntry>
        requires { head < self.now.size.heads }
        ensures { result ≡ latest_entry head poll self.now.entries.now }
    {
        let end = self.count_upto(poll);
        let Some(marks) = self.marks else {
            return last_of(head, &self.entries[..end]);
        };
        let row = end / STRIDE;
        let near = last_of(head, &self.entries[row * STRIDE..end]);
        // The mark and its entry lie anywhere in memory, so they are read only where the walk finds nothing.
        if near.is_some() {
            return near;
        }
        self.marked(marks[row * self.size.heads as usize + head as usize])
    }
}
