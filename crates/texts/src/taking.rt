// How the fields of a line are read, one after another.
ghost use Rattle.std.specs.Prelude.{◌≡◌, ℕ, ◌+◌, ◌-◌, ◌<◌, ◌≤◌, ◌^◌, ◌∷◌, [], List, Ok, Some, Option, OnOk, codes, nat_eq, IfOk, IfErr, MatchResult, length};
ghost use Rattle.std.specs.Cmp.Lexicographic.{pointwise};
ghost use Rattle.texts.specs.Logs.{log_test};
ghost use Rattle.std.specs.Result.{result_err};
ghost use Rattle.texts.specs.Parts.{fields};
ghost use Rattle.texts.specs.Fields.{at, left, ahead, given, defect_of};
ghost use Rattle.texts.specs.declared.refusals.Defect.{Defect};
ghost use Rattle.texts.specs.declared.refusals.Defect.TheVariants.{TooFew};

use crate::fields::Fields;
use crate::lines::cut;
use crate::punctuation::LOG;
use crate::refusals::{Defect, TextFault};
use crate::written::Written;

// A field, and where it stands.
#[derive(Clone, Copy)]
struct Field<'a> {
    text: &'a [u8],
    column: usize,
}

// Whether a field is the first word of a log.
fn is_log_word(text: &[u8]) -> bool
    ensures { result ≡ pointwise nat_eq text.now (codes "log") }
{
    text == LOG
}

// The number that a field writes.
fn number<T: Written>(text: &[u8]) -> Result<T, Defect>
    ensures { result ≡ given T.Written.written text.now }
{
    if text.is_empty() {
        return Err(Defect::Missing);
    }
    T::read(text)
}

impl<'a> Fields<'a> {
    // The fields of a line with this number, of which so many are to stand there, parted by this byte.
    pub(crate) fn of(line: usize, wanted: u32, mark: u8, text: &'a [u8]) -> Fields<'a>
        ensures line { result.line ≡ line }
        ensures wanted { result.wanted ≡ wanted }
        ensures column { result.column ≡ 1 }
        ensures fields { left result ≡ fields mark text.now }
    {
        Fields {
            line,
            wanted,
            mark,
            column: 1,
            rest: Some(text),
        }
    }

    // The next field; a fault where the line has ended.
    fn next_field(&mut self) -> Result<Field<'a>, TextFault>
        ensures field { IfOk result (λ field. (left self.old ≡ field.text.now ∷ left self.new) × (field.column ≡ self.old.column) × (self.new.column ≡ self.old.column + length field.text.now + 1)) }
        ensures fault { IfErr result (λ fault. (left self.old ≡ []) × (fault ≡ at self.old.line (self.old.column - 1) (TooFew self.old.wanted))) }
        ensures line { self.new.line ≡ self.old.line }
        ensures wanted { self.new.wanted ≡ self.old.wanted }
    {
        let column = self.column;
        let Some(line) = self.rest else {
            return Err(TextFault {
                line: self.line,
                column: column - 1,
                defect: Defect::TooFew {
                    wanted: self.wanted,
                },
            });
        };
        let (text, rest) = cut(line, self.mark);
        self.column = column + text.len() + 1;
        self.rest = rest;
        Ok(Field { text, column })
    }

    // The number that the next field writes, or the first fault.
    pub(crate) fn take<T: Written>(&mut self) -> Result<T, TextFault>
        ensures number { IfOk result (λ x. (text : List ℕ) × (left self.old ≡ text ∷ left self.new) × (given T.Written.written text ≡ Ok x)) }
        ensures fault { (tests : List (List ℕ → Option Defect)) → MatchResult result (λ x. ahead self.old (defect_of T.Written.written ∷ tests) ≡ ahead self.new tests) (λ fault. ahead self.old (defect_of T.Written.written ∷ tests) ≡ Some fault) }
    {
        let line = self.line;
        let field = self.next_field()?;
        let column = field.column;
        match number(field.text) {
            Ok(number) => Ok(number),
            Err(defect) => Err(TextFault {
                line,
                column,
                defect,
            }),
        }
    }

    // Takes the first word of a log, or tells the first fault.
    pub(crate) fn take_log(&mut self) -> Result<(), TextFault>
        ensures word { OnOk result ((text : List ℕ) × (left self.old ≡ text ∷ left self.new)) }
        ensures fault { (tests : List (List ℕ → Option Defect)) → MatchResult result (λ _. ahead self.old (log_test ∷ tests) ≡ ahead self.new tests) (λ fault. ahead self.old (log_test ∷ tests) ≡ Some fault) }
    {
        let line = self.line;
        let field = self.next_field()?;
        if !is_log_word(field.text) {
            return Err(TextFault {
                line,
                column: field.column,
                defect: Defect::NotLog,
            });
        }
        Ok(())
    }

    // A fault where a field is left.
    pub(crate) fn end(&self) -> Result<(), TextFault>
        ensures { result_err result ≡ ahead self.now [] }
    {
        if self.rest.is_some() {
            return Err(TextFault {
                line: self.line,
                column: self.column,
                defect: Defect::TooMany {
                    wanted: self.wanted,
                },
            });
        }
        Ok(())
    }
}
