// The report: one row per rule of a sheet.
ghost use Rattle.std.specs.Prelude.{◌≡◌, ℕ, List, ◌++◌, IfErr, IfOk, OnOk, codes};
ghost use Rattle.std.specs.Fmt.{WritesInCalls};
ghost use Rattle.desk.specs.Amounts.{amount_of};
ghost use Rattle.desk.specs.Reports.{IsReport, row_text, smallest_text, summary_text};
ghost use Rattle.desk.specs.Rows.{IsRow, place_fault, sheet_fault, smaller_of};
ghost use Rattle.desk.specs.Told.{IsNothing, IsOutput, IsOutside, TellsFirst};

use crate::amount::Amount;
use crate::answered::{Answered, verdict_word};
use crate::measured::Measured;
use crate::outcome::{Outcome, Summary};
use crate::progress::Progress;
use crate::soaks::Soak;
use crate::trouble::Trouble;
use records::Record;
use rules::RulePlace;
use std::fmt;

// What the report tells of one rule.
#[derive(Clone, Copy, PartialEq, Eq, Debug)]
pub struct RuleRow {
    pub rule_number: u16,
    pub zone_number: u16,
    // How many polls past its own the rule looks.
    pub horizon: u32,
    pub outcome: Outcome,
}

// The margin of a sheet that is smallest in size, and whose it is.
#[derive(Clone, Copy, PartialEq, Eq, Debug)]
pub struct Smallest {
    pub rule_number: u16,
    pub answered: Answered,
}

// The smallest so far, and a row more: of equal margins the earlier rule's stays.
fn smaller(smallest: Option<Smallest>, row: &RuleRow) -> Option<Smallest>
    ensures { result ≡ smaller_of smallest row.now }
{
    let Outcome::Answered(summary) = row.outcome else {
        return smallest;
    };
    let own = Smallest {
        rule_number: row.rule_number,
        answered: summary.nearest,
    };
    match smallest {
        Some(other) if !own.answered.is_nearer(other.answered) => smallest,
        _ => Some(own),
    }
}

// The names of the columns, over the rows of `write_row`.
const COLUMNS: &str =
    " rule  zone  horizon  answered       yes    latest  verdict         margin   nearest  verdict         margin";

impl<'a, S: Measured + Copy, R: Record<Reading = S::Reading>> Soak<'a, S, R> {
    // What the report tells of a rule.
    pub fn row<P: Progress>(&self, place: &RulePlace, progress: &mut P) -> Result<RuleRow, Trouble>
        ensures told { TellsFirst IsNothing (place_fault (S.model self.now.scale) place.now (R.Record.model self.now.«record».now)) result }
        ensures row { IfOk result (IsRow (S.model self.now.scale) place.now (R.Record.model self.now.«record».now)) }
    {
        let rule = place.rule();
        progress.begin(place.rule_number);
        Ok(RuleRow {
            rule_number: place.rule_number,
            zone_number: place.zone_number,
            horizon: rule.horizon(),
            outcome: self.outcome(&rule, progress)?,
        })
    }

    // A margin of so many steps in the scale's unit.
    pub(crate) fn amount(&self, steps: i32) -> Amount
        ensures { result ≡ amount_of S.told_in steps }
    {
        Amount {
            steps,
            unit: self.scale.unit(),
        }
    }

    // The columns of a rule with answers.
    fn write_summary<W: fmt::Write>(&self, out: &mut W, summary: &Summary) -> Result<(), Trouble>
        ensures outside { IfErr result IsOutside }
        ensures text { OnOk result (WritesInCalls W.write_str_gives out.old (summary_text S.told_in summary.now) out.new) }
    {
        let Summary {
            polls,
            yes,
            latest,
            nearest,
        } = *summary;
        let verdict = verdict_word(latest.yes);
        let there = verdict_word(nearest.yes);
        let margin = self.amount(latest.margin).to_string(self.heap)?;
        let least = self.amount(nearest.margin).to_string(self.heap)?;
        write!(
            out,
            "{polls:>10}{yes:>10}{:>10}{verdict:>9}{margin:>15}{:>10}{there:>9}{least:>15}",
            latest.poll, nearest.poll
        )?;
        Ok(())
    }

    // One line of the report.
    fn write_row<W: fmt::Write>(&self, out: &mut W, row: &RuleRow) -> Result<(), Trouble>
        ensures outside { IfErr result IsOutside }
        ensures text { OnOk result (WritesInCalls W.write_str_gives out.old (row_text S.told_in row.now) out.new) }
    {
        let RuleRow {
            rule_number,
            zone_number,
            horizon,
            outcome,
        } = *row;
        write!(out, "{rule_number:>5}{zone_number:>6}{horizon:>9}")?;
        match outcome {
            Outcome::Waiting { rows } => write!(out, "  waiting: {rows} rows to come")?,
            Outcome::Answered(summary) => self.write_summary(out, &summary)?,
        }
        writeln!(out)?;
        Ok(())
    }

    // The last line of the report.
    fn write_smallest<W: fmt::Write>(&self, out: &mut W, smallest: Option<Smallest>) -> fmt::Result
        ensures { OnOk result (WritesInCalls W.write_str_gives out.old (codes "\n" ++ smallest_text S.told_in smallest) out.new) }
    {
        writeln!(out)?;
        let Some(
            Smallest {
                rule_number,
                answered,
            },
        ) = smallest
        else {
            writeln!(out, "No rule has an answer yet.")?;
            return Ok(());
        };
        let margin = self.amount(answered.margin);
        let unit = self.scale.unit();
        let verdict = verdict_word(answered.yes);
        writeln!(
            out,
            "Smallest margin of the sheet: {margin} {unit}, rule {rule_number} at poll {}, verdict {verdict}.",
            answered.poll
        )?;
        Ok(())
    }

    // Writes the report of the rules in their order, each as soon as it is worked out: a line that names the columns, one line
    // a rule, and the smallest margin of all. The memory that it takes does not grow with their number.
    pub fn report<W: fmt::Write, P: Progress>(
        &self,
        places: &[RulePlace],
        out: &mut W,
        progress: &mut P,
    ) -> Result<(), Trouble>
        ensures told { TellsFirst IsOutput (sheet_fault (S.model self.now.scale) places.now (R.Record.model self.now.«record».now)) result }
        ensures report { OnOk result ((text : List ℕ) × IsReport (S.model self.now.scale) S.told_in places.now (R.Record.model self.now.«record».now) text × WritesInCalls W.write_str_gives out.old text out.new) }
    {
        let unit = self.scale.unit();
        let polls = self.record.polls();
        writeln!(out, "Margins in {unit} over a soak of {polls} polls.")?;
        writeln!(out)?;
        writeln!(out, "{COLUMNS}")?;
        let mut smallest = None;
        for place in places {
            let row = self.row(place, progress)?;
            self.write_row(out, &row)?;
            smallest = smaller(smallest, &row);
        }
        self.write_smallest(out, smallest)?;
        Ok(())
    }
}
