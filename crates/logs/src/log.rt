// Logs: only what changed.
ghost use Rattle.std.specs.Prelude.{◌≡◌, ◌-◌, ◌^◌, ◌≤◌, true, length, min, is_ok, is_some, Decides};
ghost use Rattle.faults.specs.Checks.{checked};
ghost use Rattle.logs.specs.Lawful.{LawfulLog, Told};
ghost use Rattle.logs.specs.Log.{log_fault, log_record};
ghost use Rattle.logs.specs.Marks.{room};
ghost use Rattle.logs.specs.Timeline.{told_by};

use crate::entries::LogEntry;
use crate::marks::marks_for;
use crate::refusals::LogFault;
use crate::timeline::Timeline;
use crate::words::Word;
use records::{Record, Size};

// A record over lent entries: a head reads what its latest entry at or before the poll says, and
// the standing reading before its first.
#[derive(Clone, Copy)]
pub struct Log<'a, T> {
    timeline: Timeline<'a>,
    standing: T,
}

// The public clauses name fields: a record's meaning is a function of head and poll, which the
// Value of a Model cannot hold.
impl<'a, T: Word> Log<'a, T> {
    // Whether these entries make a log: ground 6, then ground 7, where they do not.
    pub fn check(heads: u32, polls: u32, entries: &[LogEntry]) -> Result<(), LogFault>
        ensures value { result ≡ checked (log_fault heads polls entries.now) }
        ensures lawful { Decides (is_ok result) (LawfulLog heads polls entries.now) }
    {
        Timeline::new(heads, polls, entries)?;
        Ok(())
    }

    // The log of these entries, or the empty record where the check refuses them. A reading costs a
    // binary search, and a walk back from the poll to the head's latest entry.
    pub fn new(heads: u32, polls: u32, entries: &'a [LogEntry], standing: T) -> Log<'a, T>
        ensures model { told_by T.Word.spelled result.timeline result.standing ≡ log_record T.Word.spelled heads polls entries.now standing }
        ensures told { LawfulLog heads polls entries.now → Told T.Word.spelled heads polls entries.now standing (told_by T.Word.spelled result.timeline result.standing) }
    {
        let timeline = Timeline::new(heads, polls, entries).unwrap_or(Timeline {
            size: Size::none(),
            entries: &[],
            marks: None,
        });
        Log { timeline, standing }
    }

    // How many marks the index of so many entries takes.
    pub fn marks_for(heads: u32, entries: usize) -> usize
        ensures { result ≡ min (room heads entries) (2 ^ 64 - 1) }
    {
        marks_for(heads, entries)
    }

    // The same log as `new` makes, with an index in the lent marks, where they suffice. A reading
    // then costs a binary search and fewer than 256 steps.
    pub fn indexed(
        heads: u32,
        polls: u32,
        entries: &'a [LogEntry],
        standing: T,
        marks: &'a mut [usize],
    ) -> Log<'a, T>
        ensures laid { room result.timeline.size.heads (length result.timeline.entries.now) ≤ length marks.old → is_some result.timeline.marks ≡ true }
        ensures model { told_by T.Word.spelled result.timeline result.standing ≡ log_record T.Word.spelled heads polls entries.now standing }
        ensures told { LawfulLog heads polls entries.now → Told T.Word.spelled heads polls entries.now standing (told_by T.Word.spelled result.timeline result.standing) }
    {
        let log = Log::new(heads, polls, entries, standing);
        Log {
            timeline: log.timeline.indexed(marks),
            ..log
        }
    }
}

impl<'a, T: Word> Record for Log<'a, T> {
    type Reading = T;

    ghost model = { λ l. told_by T.Word.spelled l.timeline l.standing };

    // As a grid answers: a trait's methods are written for each type, and its size is what they share.
    fn heads(&self) -> u32 {
        self.timeline.size.heads
    }

    fn polls(&self) -> u32 {
        self.timeline.size.polls
    }

    fn reading(&self, head: u32, poll: u32) -> Option<T> {
        if !self.timeline.size.holds(head, poll) {
            return None;
        }
        let entry = self.timeline.latest(head, poll);
        Some(entry.map_or(self.standing, |e| T::from_word(e.word)))
    }
}
