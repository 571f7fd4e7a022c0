// The lines of a grid.
ghost use Rattle.std.specs.Prelude.{◌≡◌, ◌+◌, ◌*◌, ◌≤◌, ◌++◌, length, OnOk, IfOk};
ghost use Rattle.records.specs.Model.{most_polls};
ghost use Rattle.texts.specs.Parts.{lines};
ghost use Rattle.texts.specs.Grids.{FaultIs, row_fault, rows_fault, row_readings, readings_in};

use crate::fields::Fields;
use crate::lines::{Line, Lines};
use crate::punctuation::COMMA;
use crate::refusals::{Defect, ReadError, TextFault};
use crate::written::Written;
use records::POLLS;

// Reads the readings of a line behind the others: one for each head.
fn read_row<T: Written>(line: Line, heads: u32, readings: &mut Vec<T>) -> Result<(), ReadError>
    ensures fault { FaultIs (row_fault T.Written.written heads line.entry.number line.entry.text.now) result }
    ensures readings { OnOk result (readings.new.items ≡ readings.old.items ++ row_readings T.Written.written line.entry.text.now) }
    ensures filled { OnOk result (length readings.new.items ≡ length readings.old.items + heads) }
{
    let mut fields = Fields::of(line.number, heads, COMMA, line.text);
    for _head in 0..heads {
        readings.push(fields.take()?)?;
    }
    fields.end()?;
    Ok(())
}

// Reads the lines of a text that are still to be read behind the readings, and says how many there are.
pub(crate) fn read_rows<T: Written>(
    text: &[u8],
    heads: u32,
    readings: &mut Vec<T>,
) -> Result<u32, ReadError>
    ensures fault { FaultIs (rows_fault T.Written.written heads 1 (lines text.now)) result }
    ensures readings { OnOk result (readings.new.items ≡ readings.old.items ++ readings_in T.Written.written (lines text.now)) }
    ensures polls { IfOk result (λ polls. polls ≡ length (lines text.now)) }
    ensures filled { IfOk result (λ polls. length readings.new.items ≡ length readings.old.items + heads * polls) }
    ensures few { IfOk result (λ polls. polls ≤ most_polls) }
{
    let mut lines = Lines::of(text);
    let mut polls = 0;
    while let Some(line) = lines.next_line() {
        if polls == POLLS {
            return Err(ReadError::Text(TextFault {
                line: line.number,
                column: 1,
                defect: Defect::TooManyLines,
            }));
        }
        read_row(line, heads, readings)?;
        polls += 1;
    }
    Ok(polls)
}
