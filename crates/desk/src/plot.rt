// One rule's margins as a picture.
ghost use Rattle.std.specs.Prelude.{◌≡◌, ℕ, List, OnOk, length};
ghost use Rattle.std.specs.Fmt.{WritesInCalls};
ghost use Rattle.desk.specs.Amounts.{amount_text};
ghost use Rattle.desk.specs.Bands.{band_text, highest_text, lowest_text, pen_text, point_text};
ghost use Rattle.desk.specs.Columns.{AreColumns};
ghost use Rattle.desk.specs.Frames.{frame_over};
ghost use Rattle.desk.specs.Pictures.{IsPicture, names_text, ringed_text, sketch_over, waiting_text};
ghost use Rattle.desk.specs.Rows.{place_fault};
ghost use Rattle.desk.specs.Summaries.{Tallied};
ghost use Rattle.desk.specs.Ticks.{level_text, levels_text, lines_text, ticks_text};
ghost use Rattle.desk.specs.Told.{IsMemory, IsOutput, OnRefused, TellsFirst};

use crate::amount::Amount;
use crate::answered::{Answered, Listener, verdict_word};
use crate::columns::{Column, Columns};
use crate::measured::Measured;
use crate::outcome::{Outcome, Summary, Tally};
use crate::picture::{
    BOTTOM, Frame, HEADING, HEIGHT, LEFT, RIGHT, TOP, WIDTH, fall, level_at, poll_step, rise,
};
use crate::progress::Progress;
use crate::soaks::Soak;
use crate::trouble::Trouble;
use records::Record;
use rules::RulePlace;
use std::fmt;

// Sums up what it hears and keeps it in columns.
#[derive(Drop)]
struct Sketch {
    tally: Tally,
    columns: Columns,
}

impl Listener for Sketch {
    ghost heard = { λ first sketch n answers. Tallied answers n sketch.tally.summary × AreColumns sketch.columns.each sketch.columns.filled sketch.columns.columns.items first.columns.each n answers };

    ghost stops = { IsMemory };

    fn hear(&mut self, answered: Answered) -> Result<(), Trouble> {
        self.tally.hear(answered)?;
        self.columns.hear(answered)?;
        Ok(())
    }
}

// The frame of all columns; nought is always in it.
fn frame_of(polls: u32, columns: &[Column]) -> Frame
    ensures { result ≡ frame_over polls columns.now }
{
    let mut above: u32 = 0;
    let mut below: u32 = 0;
    for column in columns {
        above = above.max(rise(column.highest));
        below = below.max(fall(column.lowest));
    }
    Frame::of(polls, above, below)
}

// A horizontal line at a margin, with its text at the left.
fn write_level<W: fmt::Write>(out: &mut W, y: u64, colour: &str, margin: Amount) -> fmt::Result
    ensures { OnOk result (WritesInCalls W.write_str_gives out.old (level_text colour.now y (amount_text margin)) out.new) }
{
    let x = LEFT - 8;
    let foot = y.saturating_add(4);
    writeln!(
        out,
        "<line x1=\"{LEFT}\" y1=\"{y}\" x2=\"{RIGHT}\" y2=\"{y}\" stroke=\"{colour}\"/>"
    )?;
    writeln!(
        out,
        "<text x=\"{x}\" y=\"{foot}\" text-anchor=\"end\">{margin}</text>"
    )?;
    Ok(())
}

// The ticks of the polls, along the foot.
fn write_polls<W: fmt::Write>(out: &mut W, frame: &Frame) -> fmt::Result
    ensures { OnOk result (WritesInCalls W.write_str_gives out.old (ticks_text frame.now.polls) out.new) }
{
    let step = poll_step(frame.polls);
    let foot = BOTTOM + 6;
    let text = BOTTOM + 22;
    for tick in 0..frame.polls.div_ceil(step) {
        let poll = tick.saturating_mul(step);
        let x = frame.x(poll);
        writeln!(
            out,
            "<line x1=\"{x}\" y1=\"{BOTTOM}\" x2=\"{x}\" y2=\"{foot}\" stroke=\"#888\"/>"
        )?;
        writeln!(
            out,
            "<text x=\"{x}\" y=\"{text}\" text-anchor=\"middle\">{poll}</text>"
        )?;
    }
    Ok(())
}

// What a picture says where no poll has all its rows.
fn write_waiting<W: fmt::Write>(out: &mut W, rows: u32) -> fmt::Result
    ensures { OnOk result (WritesInCalls W.write_str_gives out.old (waiting_text rows) out.new) }
{
    write!(out, "<text x=\"{LEFT}\" y=\"{TOP}\">")?;
    writeln!(out, "waiting: {rows} rows to come</text>")?;
    Ok(())
}

// The pen is put down at the first point, and drawn on from there.
fn pen(at: usize) -> &'static str
    ensures { result.now ≡ pen_text at }
{
    if at == 0 { "M" } else { "L" }
}

// The next point of the band.
fn write_point<W: fmt::Write>(
    out: &mut W,
    pen: &str,
    frame: &Frame,
    poll: u32,
    margin: i32,
) -> fmt::Result
    ensures { OnOk result (WritesInCalls W.write_str_gives out.old (point_text pen.now frame.now poll margin) out.new) }
{
    let x = frame.x(poll);
    let y = frame.y(margin);
    write!(out, "{pen}{x} {y}")?;
    Ok(())
}

// Along the highest margins of the columns.
fn write_highest<W: fmt::Write>(out: &mut W, frame: &Frame, columns: &Columns) -> fmt::Result
    ensures { OnOk result (WritesInCalls W.write_str_gives out.old (highest_text frame.now columns.now.each columns.now.columns.items (length columns.now.columns.items)) out.new) }
{
    let all = columns.columns.as_slice();
    for at in 0..all.len() {
        let column = all[at];
        write_point(out, pen(at), frame, columns.middle(at), column.highest)?;
    }
    Ok(())
}

// Back along the lowest.
fn write_lowest<W: fmt::Write>(out: &mut W, frame: &Frame, columns: &Columns) -> fmt::Result
    ensures { OnOk result (WritesInCalls W.write_str_gives out.old (lowest_text frame.now columns.now.each columns.now.columns.items (length columns.now.columns.items)) out.new) }
{
    let all = columns.columns.as_slice();
    for back in 0..all.len() {
        let at = all.len() - 1 - back;
        let column = all[at];
        write_point(out, "L", frame, columns.middle(at), column.lowest)?;
    }
    Ok(())
}

// The band between the lowest and the highest margin of each column.
fn write_band<W: fmt::Write>(out: &mut W, frame: &Frame, columns: &Columns) -> fmt::Result
    ensures { OnOk result (WritesInCalls W.write_str_gives out.old (band_text frame.now columns.now.each columns.now.columns.items) out.new) }
{
    write!(
        out,
        "<path fill=\"#9db8d2\" stroke=\"#1f4e79\" stroke-linejoin=\"round\" d=\""
    )?;
    write_highest(out, frame, columns)?;
    write_lowest(out, frame, columns)?;
    writeln!(out, "Z\"/>")?;
    Ok(())
}

impl<'a, S: Measured + Copy, R: Record<Reading = S::Reading>> Soak<'a, S, R> {
    // So many lines of the margins above nought, or below.
    fn write_levels<W: fmt::Write>(
        &self,
        out: &mut W,
        frame: &Frame,
        step: u32,
        below: bool,
        many: u32,
    ) -> fmt::Result
        ensures { OnOk result (WritesInCalls W.write_str_gives out.old (levels_text S.told_in frame.now step below many) out.new) }
    {
        for at in 0..many {
            let steps = level_at(step, below, at);
            write_level(out, frame.y(steps), "#ddd", self.amount(steps))?;
        }
        Ok(())
    }

    // The lines of the margins.
    fn write_margins<W: fmt::Write>(&self, out: &mut W, frame: &Frame) -> fmt::Result
        ensures { OnOk result (WritesInCalls W.write_str_gives out.old (lines_text S.told_in frame.now) out.new) }
    {
        let step = frame.margin_step(self.scale.unit());
        self.write_levels(out, frame, step, false, frame.above / step)?;
        self.write_levels(out, frame, step, true, frame.below / step)?;
        Ok(())
    }

    // The poll whose margin is nearest to tripping, ringed, and under the heading its margin.
    fn write_nearest<W: fmt::Write>(
        &self,
        out: &mut W,
        frame: &Frame,
        nearest: Answered,
    ) -> fmt::Result
        ensures { OnOk result (WritesInCalls W.write_str_gives out.old (ringed_text S.told_in frame.now nearest) out.new) }
    {
        let x = frame.x(nearest.poll);
        let y = frame.y(nearest.margin);
        let margin = self.amount(nearest.margin);
        let unit = self.scale.unit();
        let Answered { poll, yes, .. } = nearest;
        let verdict = verdict_word(yes);
        writeln!(
            out,
            "<circle cx=\"{x}\" cy=\"{y}\" r=\"5\" fill=\"none\" stroke=\"#c00\" stroke-width=\"2\"/>"
        )?;
        writeln!(
            out,
            "<line x1=\"{x}\" y1=\"{TOP}\" x2=\"{x}\" y2=\"{BOTTOM}\" stroke=\"#c00\" stroke-dasharray=\"2 4\"/>"
        )?;
        write!(out, "<text x=\"{LEFT}\" y=\"{HEADING}\" fill=\"#c00\">")?;
        writeln!(
            out,
            "nearest to tripping: {margin} {unit} at poll {poll}, verdict {verdict}</text>"
        )?;
        Ok(())
    }

    // The heading, and the names of the axes.
    fn write_names<W: fmt::Write>(&self, out: &mut W, place: &RulePlace) -> fmt::Result
        ensures { OnOk result (WritesInCalls W.write_str_gives out.old (names_text S.told_in place.now) out.new) }
    {
        let unit = self.scale.unit();
        let rule = place.rule_number;
        let zone = place.zone_number;
        let middle = (LEFT + RIGHT) / 2;
        let height = (TOP + BOTTOM) / 2;
        let foot = HEIGHT - 14;
        write!(out, "<text x=\"{LEFT}\" y=\"30\" font-size=\"18\">")?;
        writeln!(out, "Rule {rule}, zone {zone}: margin over the soak</text>")?;
        writeln!(
            out,
            "<text x=\"{middle}\" y=\"{foot}\" text-anchor=\"middle\">poll</text>"
        )?;
        writeln!(
            out,
            "<text transform=\"translate(24 {height}) rotate(-90)\" text-anchor=\"middle\">margin in {unit}</text>"
        )?;
        Ok(())
    }

    // What the picture shows of a rule with answers.
    fn write_sketch<W: fmt::Write>(
        &self,
        out: &mut W,
        summary: &Summary,
        columns: &Columns,
    ) -> fmt::Result
        ensures { OnOk result (WritesInCalls W.write_str_gives out.old (sketch_over S.told_in summary.now.polls columns.now.each columns.now.columns.items summary.now.nearest) out.new) }
    {
        let frame = frame_of(summary.polls, &columns.columns);
        self.write_margins(out, &frame)?;
        write_polls(out, &frame)?;
        write_band(out, &frame, columns)?;
        write_level(out, frame.y(0), "#c00", self.amount(0))?;
        self.write_nearest(out, &frame, summary.nearest)?;
        Ok(())
    }

    // Draws a rule's margins over the soak: polls along, margins up, and the poll that was nearest to tripping. However long the
    // soak, the picture has a few hundred columns with the lowest and the highest margin of each.
    pub fn plot<W: fmt::Write, P: Progress>(
        &self,
        place: &RulePlace,
        out: &mut W,
        progress: &mut P,
    ) -> Result<(), Trouble>
        ensures told { TellsFirst IsOutput (place_fault (S.model self.now.scale) place.now (R.Record.model self.now.«record».now)) result }
        ensures unwritten { OnRefused result (out.new ≡ out.old) }
        ensures picture { OnOk result ((text : List ℕ) × IsPicture (S.model self.now.scale) S.told_in place.now (R.Record.model self.now.«record».now) text × WritesInCalls W.write_str_gives out.old text out.new) }
    {
        let rule = place.rule();
        progress.begin(place.rule_number);
        let mut sketch = Sketch {
            tally: Tally { summary: None },
            columns: Columns::over(
                self.heap,
                self.record.polls().saturating_sub(rule.horizon()),
            ),
        };
        self.follow(&rule, &mut sketch, progress)?;
        writeln!(
            out,
            "<svg xmlns=\"http://www.w3.org/2000/svg\" viewBox=\"0 0 {WIDTH} {HEIGHT}\" font-family=\"sans-serif\" font-size=\"13\">"
        )?;
        writeln!(
            out,
            "<rect width=\"{WIDTH}\" height=\"{HEIGHT}\" fill=\"#fff\"/>"
        )?;
        self.write_names(out, place)?;
        match self.outcome_of(&rule, sketch.tally.summary) {
            Outcome::Answered(summary) => self.write_sketch(out, &summary, &sketch.columns)?,
            Outcome::Waiting { rows } => write_waiting(out, rows)?,
        }
        writeln!(out, "</svg>")?;
        Ok(())
    }
}
