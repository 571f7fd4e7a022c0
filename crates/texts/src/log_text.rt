// Logs as texts.
ghost use Rattle.std.specs.Prelude.{◌≡◌, ◌+◌, [], ◌∷◌, ◌++◌, IfOk, OnOk, codes, flat_map, map, take, drop, nat_eq};
ghost use Rattle.std.specs.Result.{result_err};
ghost use Rattle.texts.specs.Parts.{content, lines, lines_of};
ghost use Rattle.texts.specs.Logs.{head_fault, head_in, entry_fault, entry_in, entry_of, three_in, entries_fault, entries_in, log_lines_fault};
ghost use Rattle.texts.specs.Grids.{FaultIs};
ghost use Rattle.std.specs.List.{starts_with};
ghost use Rattle.texts.specs.Numbers.{natural_read};
ghost use Rattle.texts.specs.Fields.{ahead, left, defect_of};

use crate::fields::Fields;
use crate::lines::{Line, Lines, content};
use crate::punctuation::{COMMA, LOG_BEGINS, SPACE};
use crate::refusals::{Defect, ReadError, TextFault};
use crate::written::{Written, WrittenReading};
use logs::LogEntry;
use std::alloc::Global;

// The last three fields of a line: two numbers from 0 on and a reading.
fn take_three<T: Written>(fields: &mut Fields) -> Result<(u32, u32, T), TextFault>
    ensures fault { result_err result ≡ ahead fields.old (defect_of natural_read ∷ defect_of natural_read ∷ defect_of T.Written.written ∷ []) }
    ensures numbers { IfOk result (λ x. (x.0, x.1, x.2) ∷ [] ≡ three_in T.Written.written (left fields.old)) }
{
    let first = fields.take::<u32>()?;
    let second = fields.take::<u32>()?;
    let reading = fields.take::<T>()?;
    fields.end()?;
    Ok((first, second, reading))
}

// An entry: the poll, the head and the reading.
fn read_entry<T: WrittenReading>(line: Line) -> Result<LogEntry, TextFault>
    ensures fault { result_err result ≡ entry_fault T.Written.written line.entry.number line.entry.text.now }
    ensures entry { IfOk result (λ e. entry_of T.Word.spelled e ∷ [] ≡ entry_in T.Written.written line.entry.text.now) }
{
    let mut fields = Fields::of(line.number, 3, COMMA, line.text);
    let (poll, head, reading) = take_three::<T>(&mut fields)?;
    Ok(LogEntry {
        poll,
        head,
        word: reading.to_word(),
    })
}

// What the first line of a log says: heads, polls and the standing reading.
fn read_head<T: Written>(line: Line) -> Result<(u32, u32, T), TextFault>
    requires { line.number ≡ 1 }
    ensures fault { result_err result ≡ head_fault T.Written.written line.entry.text.now }
    ensures head { IfOk result (λ x. (x.0, x.1, x.2) ∷ [] ≡ head_in T.Written.written line.entry.text.now) }
{
    let mut fields = Fields::of(line.number, 4, SPACE, line.text);
    fields.take_log()?;
    take_three(&mut fields)
}

// Reads the entries of the lines that are left behind the others.
fn read_entries<T: WrittenReading>(
    text: &mut Lines,
    entries: &mut Vec<LogEntry>,
) -> Result<(), ReadError>
    ensures fault { FaultIs (entries_fault T.Written.written (text.old.read + 1) (lines text.old.rest.now)) result }
    ensures entries { OnOk result (map (entry_of T.Word.spelled) entries.new.items ≡ map (entry_of T.Word.spelled) entries.old.items ++ entries_in T.Written.written (lines text.old.rest.now)) }
{
    while let Some(line) = text.next_line() {
        entries.push(read_entry::<T>(line)?)?;
    }
    Ok(())
}

// What a log's text spells: heads, polls and the standing reading, and then an entry a line.
#[derive(Drop)]
pub struct LogText<T> {
    pub heads: u32,
    pub polls: u32,
    pub standing: T,
    pub entries: Vec<LogEntry>,
}

// Whether a text is a log, and not a grid: whether it begins with the word log and a space.
pub fn is_log(text: &[u8]) -> bool
    ensures { result ≡ starts_with nat_eq (content text.now) (codes "log ") }
{
    content(text).starts_with(LOG_BEGINS)
}

// Reads a log: what the text spells, or the first place that cannot be read.
pub fn read_log<T: WrittenReading>(heap: Global, text: &[u8]) -> Result<LogText<T>, ReadError>
    ensures fault { FaultIs (log_lines_fault T.Written.written (lines_of text.now)) result }
    ensures head { IfOk result (λ log. (log.heads, log.polls, log.standing) ∷ [] ≡ flat_map (head_in T.Written.written) (take 1 (lines_of text.now))) }
    ensures entries { IfOk result (λ log. map (entry_of T.Word.spelled) log.entries.items ≡ entries_in T.Written.written (drop 1 (lines_of text.now))) }
{
    let mut lines = Lines::of(content(text));
    let Some(first) = lines.next_line() else {
        return Err(ReadError::Text(TextFault {
            line: 1,
            column: 1,
            defect: Defect::EmptyFile,
        }));
    };
    let (heads, polls, standing) = read_head(first)?;
    let mut entries = Vec::new(heap);
    read_entries::<T>(&mut lines, &mut entries)?;
    Ok(LogText {
        heads,
        polls,
        standing,
        entries,
    })
}
