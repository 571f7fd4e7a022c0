// How a text falls into lines, and a line into fields.
ghost use Rattle.std.specs.Prelude.{◌≡◌, ◌+◌, ◌≤◌, ◌<◌, ◌^◌, ◌==◌, [], ◌∷◌, length, position, MatchOption};
ghost use Rattle.std.specs.Str.Lines.{strip_carriage_return};
ghost use Rattle.texts.specs.Parts.{content, fields, lines};

use crate::punctuation::{BYTE_ORDER_MARK, CARRIAGE_RETURN, LINE_FEED};

// The text without the byte order mark that may begin it.
pub(crate) fn content(text: &[u8]) -> &[u8]
    ensures { result.now ≡ content text.now }
{
    match text.strip_prefix(&BYTE_ORDER_MARK) {
        Some(content) => content,
        None => text,
    }
}

// Where the first such byte stands.
fn place(text: &[u8], mark: u8) -> Option<usize>
    ensures { result ≡ position (λ b. b == mark) text.now }
{
    text.iter().position(|byte| *byte == mark)
}

// The text before the first such byte, and what follows that byte, if there is one.
pub(crate) fn cut(text: &[u8], mark: u8) -> (&[u8], Option<&[u8]>)
    ensures { MatchOption result.1 ((result.0.now ≡ text.now) × (fields mark text.now ≡ text.now ∷ [])) (λ rest. (fields mark text.now ≡ result.0.now ∷ fields mark rest.now) × (length result.0.now + length rest.now + 1 ≡ length text.now)) }
{
    match place(text, mark) {
        Some(at) => (&text[..at], Some(&text[at + 1..])),
        None => (text, None),
    }
}

// The line without the carriage return that may end it.
fn without_return(line: &[u8]) -> &[u8]
    ensures { result.now ≡ strip_carriage_return line.now }
{
    match line.split_last() {
        Some((&CARRIAGE_RETURN, front)) => front,
        _ => line,
    }
}

// The first line of a text that has one, and the text behind it.
#[tactic(auto, using(crate::proofs::PartLaws::first_line, crate::proofs::PartLaws::last_line))]
fn first_line(text: &[u8]) -> (&[u8], &[u8])
    requires { 0 < length text.now }
    ensures lines { lines text.now ≡ result.0.now ∷ lines result.1.now }
    ensures shorter { length result.1.now < length text.now }
{
    let (line, rest) = cut(text, LINE_FEED);
    match rest {
        Some(rest) => (without_return(line), rest),
        None => (without_return(line), &[]),
    }
}

// A line of a text, and its number.
#[derive(Clone, Copy)]
pub(crate) struct Line<'a> {
    pub number: usize,
    pub text: &'a [u8],
}

// The lines of a text that are still to be read, and how many have been.
#[derive(Drop)]
pub(crate) struct Lines<'a> {
    pub rest: &'a [u8],
    pub read: usize,
    ghost fits: { read + length rest.now < 2 ^ 63 },
}

impl<'a> Lines<'a> {
    // The lines of this text.
    pub(crate) fn of(text: &'a [u8]) -> Lines<'a>
        ensures rest { result.rest.now ≡ text.now }
        ensures read { result.read ≡ 0 }
    {
        Lines {
            rest: text,
            read: 0,
        }
    }

    // The next line; none where all have been read.
    #[tactic(auto, using(crate::proofs::PartLaws::no_lines_of))]
    pub(crate) fn next_line(&mut self) -> Option<Line<'a>>
        ensures { MatchOption result (lines self.old.rest.now ≡ []) (λ line. (lines self.old.rest.now ≡ line.text.now ∷ lines self.new.rest.now) × (line.number ≡ self.old.read + 1) × (self.new.read ≡ line.number) × (length self.new.rest.now < length self.old.rest.now)) }
    {
        if self.rest.is_empty() {
            return None;
        }
        let (text, rest) = first_line(self.rest);
        self.rest = rest;
        self.read += 1;
        Some(Line {
            number: self.read,
            text,
        })
    }
}
