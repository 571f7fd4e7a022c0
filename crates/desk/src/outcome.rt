// What a rule comes to over a whole soak.
ghost use Rattle.std.specs.Prelude.{◌≡◌, ℕ, ◌+◌, ◌<◌, IfOk};
ghost use Rattle.formulas.specs.Formula.{horizon};
ghost use Rattle.rules.specs.Rules.{formula};
ghost use Rattle.desk.specs.declared.answered.Answered.{Answered};
ghost use Rattle.desk.specs.Answers.{answers_of, polls_of, record_fault};
ghost use Rattle.desk.specs.Summaries.{Tallied, Summarizes, IsOutcome};
ghost use Rattle.desk.specs.Told.{TellsFirst, IsNothing};

use crate::answered::{Answered, Listener};
use crate::measured::Measured;
use crate::progress::Progress;
use crate::soaks::Soak;
use crate::trouble::Trouble;
use records::Record;
use rules::Rule;

// What the answered polls of a rule come to.
#[derive(Clone, Copy, PartialEq, Eq, Debug)]
pub struct Summary {
    // How many polls were answered.
    pub polls: u32,
    // At how many of them the verdict was yes.
    pub yes: u32,
    // The latest of them.
    pub latest: Answered,
    // The one whose margin is smallest in size, the earliest among equals.
    pub nearest: Answered,
}

impl Summary {
    // The summary of one answer.
    fn of(first: Answered) -> Summary
        ensures { (answers : ℕ → Answered) → first ≡ answers 0 → Summarizes answers 1 result }
    {
        Summary {
            polls: 1,
            yes: u32::from(first.yes),
            latest: first,
            nearest: first,
        }
    }

    // The summary of one answer more. No record has so many polls that the numbers end.
    fn with(self, next: Answered) -> Summary
        ensures { (answers : ℕ → Answered) (n : ℕ) → n < 16777216 → next ≡ answers n → Summarizes answers n self → Summarizes answers (n + 1) result }
    {
        Summary {
            polls: self.polls.saturating_add(1),
            yes: self.yes.saturating_add(u32::from(next.yes)),
            latest: next,
            nearest: if next.is_nearer(self.nearest) {
                next
            } else {
                self.nearest
            },
        }
    }
}

// What a rule comes to over a soak.
#[derive(Clone, Copy, PartialEq, Eq, Debug)]
pub enum Outcome {
    // No poll has all its rows: so many are to come.
    Waiting { rows: u32 },
    // What its answered polls come to.
    Answered(Summary),
}

// Sums up what it hears.
#[derive(Drop)]
pub(crate) struct Tally {
    pub summary: Option<Summary>,
}

impl Listener for Tally {
    ghost heard = { λ _ tally n answers. Tallied answers n tally.summary };

    ghost stops = { IsNothing };

    fn hear(&mut self, answered: Answered) -> Result<(), Trouble> {
        self.summary = Some(match self.summary {
            None => Summary::of(answered),
            Some(summary) => summary.with(answered),
        });
        Ok(())
    }
}

impl<'a, S: Measured + Copy, R: Record<Reading = S::Reading>> Soak<'a, S, R> {
    // What a summary of all answers says of a rule: without one, how many rows are to come.
    pub(crate) fn outcome_of(&self, rule: &Rule, summary: Option<Summary>) -> Outcome
        ensures { (answers : ℕ → Answered) → Tallied answers (polls_of (formula rule.now) (R.Record.model self.now.«record».now)) summary → IsOutcome answers (horizon (formula rule.now)) (R.Record.model self.now.«record».now).polls result }
    {
        match summary {
            Some(summary) => Outcome::Answered(summary),
            None => Outcome::Waiting {
                rows: (rule.horizon() + 1).saturating_sub(self.record.polls()),
            },
        }
    }

    // What a rule comes to over the soak.
    pub fn outcome<P: Progress>(&self, rule: &Rule, progress: &mut P) -> Result<Outcome, Trouble>
        ensures told { TellsFirst IsNothing (record_fault (S.model self.now.scale) rule.now (R.Record.model self.now.«record».now)) result }
        ensures outcome { IfOk result (IsOutcome (answers_of (S.model self.now.scale) rule.now (R.Record.model self.now.«record».now)) (horizon (formula rule.now)) (R.Record.model self.now.«record».now).polls) }
    {
        let mut tally = Tally { summary: None };
        self.follow(rule, &mut tally, progress)?;
        Ok(self.outcome_of(rule, tally.summary))
    }
}
