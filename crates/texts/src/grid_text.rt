// Grids as texts.
ghost use Rattle.std.specs.Prelude.{◌≡◌, ◌==◌, None, IfOk, count_by, length};
ghost use Rattle.records.specs.Grid.{grid_fault};
ghost use Rattle.texts.specs.Parts.{lines_of};
ghost use Rattle.texts.specs.Grids.{FaultIs, grid_lines_fault, heads_in, readings_in, fields_beside, IsGrid, IsNoGrid, IsRefused};

use crate::lines::{Lines, content};
use crate::punctuation::COMMA;
use crate::refusals::{Defect, ReadError, TextFault};
use crate::rows::read_rows;
use crate::written::Written;
use records::HEADS;
use std::alloc::Global;

// What a grid's text spells: a line for each poll, with a reading for each head.
#[derive(Drop)]
pub struct GridText<T> {
    pub heads: u32,
    pub polls: u32,
    // Poll by poll, and within a poll head by head.
    pub readings: Vec<T>,
}

// How many commas a line has.
fn commas(line: &[u8]) -> usize
    ensures { result ≡ count_by (λ b. b == COMMA) line.now }
{
    line.iter().filter(|byte| **byte == COMMA).count()
}

// How many heads a first line has readings for, but no more than a record may have.
fn heads_of(line: &[u8]) -> u32
    ensures { result ≡ fields_beside line.now }
{
    (commas(line) + 1).min(HEADS as usize) as u32
}

// Reads a grid: the readings that the text spells, or the first place that cannot be read.
pub fn read_grid<T: Written>(heap: Global, text: &[u8]) -> Result<GridText<T>, ReadError>
    ensures fault { FaultIs (grid_lines_fault T.Written.written (lines_of text.now)) result }
    ensures heads { IfOk result (λ grid. grid.heads ≡ heads_in (lines_of text.now)) }
    ensures polls { IfOk result (λ grid. grid.polls ≡ length (lines_of text.now)) }
    ensures readings { IfOk result (λ grid. grid.readings.items ≡ readings_in T.Written.written (lines_of text.now)) }
    ensures grid { IfOk result (λ grid. IsGrid T.Written.written (lines_of text.now) grid.heads grid.polls grid.readings.items) }
    ensures refused { IsRefused result → IsNoGrid T.Written.written (lines_of text.now) }
    ensures lawful { IfOk result (λ grid. grid_fault grid.heads grid.polls (length grid.readings.items) ≡ None) }
{
    let text = content(text);
    let mut lines = Lines::of(text);
    let Some(first) = lines.next_line() else {
        return Err(ReadError::Text(TextFault {
            line: 1,
            column: 1,
            defect: Defect::EmptyFile,
        }));
    };
    let heads = heads_of(first.text);
    let mut readings = Vec::new(heap);
    let polls = read_rows(text, heads, &mut readings)?;
    Ok(GridText {
        heads,
        polls,
        readings,
    })
}
