// One rule's margins as a table: a line per answered poll, values parted by commas.
ghost use Rattle.std.specs.Prelude.{◌≡◌, OnOk};
ghost use Rattle.std.specs.Fmt.{WritesInCalls};
ghost use Rattle.desk.specs.Rows.{place_answers, place_fault, place_polls};
ghost use Rattle.desk.specs.Tables.{lines_text, table_text};
ghost use Rattle.desk.specs.Told.{IsNothing, IsOutput, OnRefused, TellsFirst};

use crate::amount::{Amount, Unit};
use crate::answered::{Answered, Listener, verdict_word};
use crate::measured::Measured;
use crate::progress::Progress;
use crate::soaks::Soak;
use crate::trouble::Trouble;
use records::Record;
use rules::RulePlace;
use std::fmt;

// Hears answers and does nothing with them.
#[derive(Drop)]
struct Unheard;

impl Listener for Unheard {
    ghost heard = { λ _ _ _ _. Unit {0} };

    ghost stops = { IsNothing };

    fn hear(&mut self, _answered: Answered) -> Result<(), Trouble> {
        Ok(())
    }
}

// Writes a line for each answer.
#[derive(Drop)]
struct Lines<W> {
    out: W,
    unit: Unit,
}

impl<W: fmt::Write> Lines<W> {
    // No line yet, over this writer.
    fn over(out: W, unit: Unit) -> Lines<W>
        ensures out { result.out ≡ out }
        ensures unit { result.unit ≡ unit }
    {
        Lines { out, unit }
    }

    // The writer again.
    fn into_out(self) -> W
        ensures { result ≡ self.out }
    {
        self.out
    }
}

impl<W: fmt::Write> Listener for Lines<W> {
    ghost heard = { λ first lines n answers. WritesInCalls W.write_str_gives first.out (lines_text lines.unit answers n) lines.out × (lines.unit ≡ first.unit) };

    ghost stops = { IsOutput };

    fn hear(&mut self, answered: Answered) -> Result<(), Trouble> {
        let Answered { poll, margin, yes } = answered;
        let amount = Amount {
            steps: margin,
            unit: self.unit,
        };
        let verdict = verdict_word(yes);
        writeln!(self.out, "{poll},{amount},{verdict}")?;
        Ok(())
    }
}

impl<'a, S: Measured + Copy, R: Record<Reading = S::Reading>> Soak<'a, S, R> {
    // Writes a line that names the columns, and a line for each answered poll of a rule. All rows are looked at first, so that
    // no margin is told of a rule that a row stops.
    pub fn margins<W: fmt::Write, P: Progress>(
        &self,
        place: &RulePlace,
        out: &mut W,
        progress: &mut P,
    ) -> Result<(), Trouble>
        ensures told { TellsFirst IsOutput (place_fault (S.model self.now.scale) place.now (R.Record.model self.now.«record».now)) result }
        ensures unwritten { OnRefused result (out.new ≡ out.old) }
        ensures table { OnOk result (WritesInCalls W.write_str_gives out.old (table_text S.told_in (place_answers (S.model self.now.scale) place.now (R.Record.model self.now.«record».now)) (place_polls place.now (R.Record.model self.now.«record».now))) out.new) }
    {
        let rule = place.rule();
        progress.begin(place.rule_number);
        self.follow(&rule, &mut Unheard, progress)?;
        writeln!(out, "poll,margin,verdict")?;
        let mut lines = Lines::over(out, self.scale.unit());
        self.follow(&rule, &mut lines, progress)?;
        // No effect at run time: what it gives back is what the table is promised of.
        lines.into_out();
        Ok(())
    }
}
