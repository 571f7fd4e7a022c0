// Reading lines, and adding one.
ghost use Rattle.std.specs.Prelude.{◌≡◌, [], ◌+◌, ◌<◌, ◌≤◌, cond, take, map, Some, None, nat_lt, slice_index_or, slice_set};
ghost use Rattle.rules.specs.Lines.{listed, before as span_before};
ghost use Rattle.rules.specs.Spans.{no_line};

use crate::line::Line;
use crate::lines::Lines;
use crate::sizes::{ENTRIES, HORIZON};
use crate::span::Span;
use entries::Entry;

impl Lines {
    // No line.
    pub(crate) fn empty() -> Lines
        ensures { result.count ≡ 0 }
    {
        Lines {
            rows: [Line::BLANK; ENTRIES],
            count: 0,
        }
    }

    // One line more.
    pub(crate) fn push(&mut self, line: Line)
        requires room { self.old.count < ENTRIES }
        requires sized { line.span.size ≤ self.old.count + 1 }
        requires near { line.span.horizon ≤ HORIZON }
        ensures rows { self.new.rows ≡ slice_set self.old.rows self.old.count line }
        ensures count { self.new.count ≡ self.old.count + 1 }
    {
        self.rows[self.count] = line;
        self.count += 1;
    }

    // The line at a place; none past the last.
    pub(crate) fn get(&self, at: usize) -> Option<Line>
        ensures { result ≡ cond (nat_lt at self.now.count) (Some (slice_index_or self.now.rows at no_line)) None }
    {
        self.rows[..self.count].get(at).copied()
    }

    // The span of the formula that ends just before a place; none at the first.
    pub(crate) fn before(&self, at: usize) -> Option<Span>
        requires { at ≤ self.now.count }
        ensures { result ≡ span_before self.now at }
    {
        Some(self.rows[..at].last()?.span)
    }

    // The entries, with blank ones behind them.
    pub(crate) fn entries(&self) -> [Entry; ENTRIES]
        ensures { take self.now.count result ≡ listed self.now }
    {
        self.rows.map(|line| line.entry)
    }
}
