// Following a rule over a record: one step and one ask a poll, for the margin and for the verdict.
ghost use Rattle.std.specs.Prelude.{◌≡◌, ℕ, ◌+◌, ◌<◌, ◌≤◌, length, OnOk};
ghost use Rattle.layout.specs.Rows.{cells_of};
ghost use Rattle.rules.specs.Rules.{formula};
ghost use Rattle.rules.specs.declared.rule.Rule.{Rule};
ghost use Rattle.scales.specs.Verdict.{verdict_whole};
ghost use Rattle.desk.specs.Answers.{answers_of, polls_of, record_fault, Hears};
ghost use Rattle.desk.specs.Follows.{Advances, meant};
ghost use Rattle.desk.specs.Pairs.{FollowsBoth, BothTaken, joined};
ghost use Rattle.desk.specs.Told.{TellsFirst};

use crate::answered::{Answered, Listener};
use crate::measured::Measured;
use crate::progress::Progress;
use crate::soaks::Soak;
use crate::trouble::Trouble;
use records::Record;
use rules::Rule;
use scales::{Scale, Verdict, VerdictMargin};
use watches::{Answer, Watch, WatchFault};

// Takes one poll more of a record, and asks.
fn advance<S: Scale, R: Record<Reading = S::Reading>>(
    watch: &mut Watch<S>,
    cells: &mut [S::Margin],
    record: &R,
    poll: u32,
) -> Result<Answer<S::Margin>, WatchFault>
    ensures { Advances S.Scale.model (R.Record.model «record».now) poll watch.old cells.old watch.new cells.new result }
{
    watch.step(cells, record, poll)?;
    watch.ask(cells)
}

// What a margin and a verdict tell together; none while either is still to come.
fn join<S: Measured>(
    scale: &S,
    margin: Answer<S::Margin>,
    verdict: Answer<VerdictMargin>,
) -> Option<Answered>
    ensures { result ≡ joined (meant (S.model scale.now).whole margin) (meant verdict_whole verdict) }
{
    match (margin, verdict) {
        (
            Answer::At { poll, margin },
            Answer::At {
                margin: verdict,
                ..
            },
        ) => Some(Answered {
            poll,
            margin: scale.steps(margin),
            yes: verdict == VerdictMargin::Yes,
        }),
        _ => None,
    }
}

// The watches of one rule: for its margins, and for its verdicts.
#[derive(Drop)]
struct Pair<S> {
    margins: Watch<S>,
    verdicts: Watch<Verdict<S>>,
}

impl<'a, S: Measured + Copy, R: Record<Reading = S::Reading>> Soak<'a, S, R> {
    // Takes one poll more with both watches of a rule, and tells what they answer together.
    fn take(
        &self,
        pair: &mut Pair<S>,
        cells: &mut [S::Margin],
        verdict_cells: &mut [VerdictMargin],
        poll: u32,
    ) -> Result<Option<Answered>, WatchFault>
        ensures { (rule : Rule) → poll < (R.Record.model self.now.«record».now).polls → FollowsBoth S.model rule self.now.scale (R.Record.model self.now.«record».now) poll pair.old.margins pair.old.verdicts cells.old verdict_cells.old → BothTaken S.model rule self.now.scale (R.Record.model self.now.«record».now) poll pair.new.margins pair.new.verdicts cells.new verdict_cells.new result }
    {
        let margin = advance(&mut pair.margins, cells, self.record, poll)?;
        let verdict = advance(&mut pair.verdicts, verdict_cells, self.record, poll)?;
        Ok(join(&self.scale, margin, verdict))
    }

    // Follows a rule from the record's first poll to its last; the listener hears every answer.
    fn follow_in<L: Listener, P: Progress>(
        &self,
        rule: &Rule,
        cells: &mut [S::Margin],
        verdict_cells: &mut [VerdictMargin],
        listener: &mut L,
        progress: &mut P,
    ) -> Result<(), Trouble>
        requires cells { cells_of rule.now ≤ length cells.old }
        requires verdict_cells { cells_of rule.now ≤ length verdict_cells.old }
        ensures told { TellsFirst L.stops (record_fault (S.model self.now.scale) rule.now (R.Record.model self.now.«record».now)) result }
        ensures heard { OnOk result (Hears L.heard (answers_of (S.model self.now.scale) rule.now (R.Record.model self.now.«record».now)) (polls_of (formula rule.now) (R.Record.model self.now.«record».now)) listener.old listener.new) }
    {
        let mut pair = Pair {
            margins: Watch::new(*rule, self.scale),
            verdicts: Watch::new(*rule, Verdict::over(self.scale)),
        };
        for poll in 0..self.record.polls() {
            if let Some(answered) = self.take(&mut pair, cells, verdict_cells, poll)? {
                listener.hear(answered)?;
            }
            progress.tell(poll + 1);
        }
        Ok(())
    }

    // Follows a rule from the record's first poll to its last; the listener hears every answer. The cells are the rule's own
    // and are given back at the end.
    pub fn follow<L: Listener, P: Progress>(
        &self,
        rule: &Rule,
        listener: &mut L,
        progress: &mut P,
    ) -> Result<(), Trouble>
        ensures told { TellsFirst L.stops (record_fault (S.model self.now.scale) rule.now (R.Record.model self.now.«record».now)) result }
        ensures heard { OnOk result (Hears L.heard (answers_of (S.model self.now.scale) rule.now (R.Record.model self.now.«record».now)) (polls_of (formula rule.now) (R.Record.model self.now.«record».now)) listener.old listener.new) }
    {
        let need = rule.need();
        let mut cells = vec![in self.heap; self.scale.nought(); need]?;
        let mut verdict_cells = vec![in self.heap; VerdictMargin::No; need]?;
        self.follow_in(rule, &mut cells, &mut verdict_cells, listener, progress)
    }
}
