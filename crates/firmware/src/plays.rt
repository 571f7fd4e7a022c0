// Plays of a record through a watch into a list of margins, over cells that hold plain numbers.
ghost use Rattle.std.specs.Prelude.{◌≡◌, ◌++◌, List, length};
ghost use Rattle.std.specs.Option.{option_map};
ghost use Rattle.layout.specs.Rows.{Row, latest_margin};
ghost use Rattle.watches.specs.Watching.{Holds};
ghost use Rattle.firmware.specs.Plays.{Played, nothing_played};

use crate::cell_scale::CellScale;
use crate::plain::Plain;
use crate::refusals::Refusal;
use records::Record;
use rules::Rule;
use scales::Scale;
use watches::{Answer, Watch};

// What a play comes to: the rows that it took, the refusal that stopped it, if one did, and the margins that it wrote.
#[repr(C)]
#[derive(Clone, Copy, PartialEq, Eq, Debug)]
pub struct Play {
    pub refusal: Refusal,
    pub rows: u32,
    pub margins: usize,
}

impl Play {
    // Nothing is played.
    pub(crate) fn none(refusal: Refusal) -> Play
        ensures { result ≡ nothing_played refusal }
    {
        Play {
            refusal,
            rows: 0,
            margins: 0,
        }
    }
}

// The margin of the latest poll that has all its rows.
fn latest<S: Scale>(watch: &Watch<S>, cells: &[S::Margin]) -> Option<S::Margin>
    ensures { (rest : List S.Margin) (rows : List Row) → Holds (S.Scale.model watch.now.scale) watch.now.rule watch.now.rows.count (cells.now ++ rest) rows → option_map (S.Scale.model watch.now.scale).whole result ≡ latest_margin (S.Scale.model watch.now.scale).mark watch.now.rule (length cells.now) rows }
{
    match watch.ask(cells) {
        Ok(Answer::At { margin, .. }) => Some(margin),
        Ok(Answer::Waiting { .. }) => None,
        Err(_) => None,
    }
}

// Plays a record through a new watch of the rule.
pub(crate) fn play_record<S: Plain, R: Record<Reading = S::Reading>>(
    rule: Rule,
    scale: S,
    record: &R,
    cells: &mut [i32],
    list: &mut [S::Told],
) -> Play
    ensures { Played (S.Scale.model scale) S.Plain.told rule (R.Record.model «record».now) cells.old cells.new list.old list.new result }
{
    let mut watch = Watch::new(rule, CellScale { lower: scale });
    let polls = record.polls();
    let mut margins: usize = 0;
    for poll in 0..polls {
        if let Err(fault) = watch.step(cells, record, poll) {
            return Play {
                refusal: fault.into(),
                rows: poll,
                margins,
            };
        }
        if let Some(cell) = latest(&watch, cells) {
            if margins < list.len() {
                list[margins] = S::tell(cell);
                margins += 1;
            }
        }
    }
    Play {
        refusal: Refusal::none(),
        rows: polls,
        margins,
    }
}
