// What the words behind the program's name ask for.
ghost use Rattle.std.specs.Prelude.{◌≡◌};
ghost use Rattle.soak.specs.Words.{scale_meant};

use std::slice;
use texts::Written;

// The scale that readings are on.
#[derive(Clone, Copy, PartialEq, Eq)]
pub enum ScaleName {
    Counts,
    Obscuration,
}

impl ScaleName {
    // The scale that a word names; counts where there is none.
    fn of(words: &[String]) -> Option<ScaleName>
        ensures { result ≡ scale_meant words.now }
    {
        match words {
            [] => Some(ScaleName::Counts),
            [word] => match word.as_str() {
                "counts" => Some(ScaleName::Counts),
                "obscuration" => Some(ScaleName::Obscuration),
                _ => None,
            },
            _ => None,
        }
    }
}

// What is to be written of a soak.
#[derive(Clone, Copy)]
pub enum Task<'a> {
    // One row per rule.
    Report,
    // A line per answered poll of one rule.
    Margins { rule: u32 },
    // A picture of one rule's margins, in a file.
    Plot { rule: u32, picture: &'a str },
}

// A soak's files, and what is to be written of it.
#[derive(Clone, Copy)]
pub struct Job<'a> {
    pub sheet: &'a str,
    pub readings: &'a str,
    pub scale: ScaleName,
    pub task: Task<'a>,
}

// One of the program's jobs.
pub enum Command<'a> {
    // The built-in example.
    Example,
    // What a sheet file holds.
    Check { sheet: &'a str },
    // The margins of a soak.
    Soak(Job<'a>),
}

// What is printed when the words ask for nothing that the program does.
pub const USAGE: &str = "\
usage:
  soak                                        a small soak, from its readings to its margins
  soak check SHEET                            what a sheet file holds, or why it is refused
  soak report SHEET READINGS [SCALE]          a row per rule, and the smallest margin of the sheet
  soak margins SHEET READINGS RULE [SCALE]    a line per answered poll of one rule, as CSV
  soak plot SHEET READINGS RULE OUT [SCALE]   a picture of one rule's margins, as SVG in the file OUT
SCALE is counts, which is meant where it is left out, or obscuration.";

impl<'a> Command<'a> {
    // The job that the words ask for.
    pub fn of(words: &'a [String]) -> Option<Command<'a>> {
        let [name, rest @ ..] = words else {
            return Some(Command::Example);
        };
        match name.as_str() {
            "check" => check(rest),
            "report" => report(rest),
            "margins" => margins(rest),
            "plot" => plot(rest),
            _ => None,
        }
    }
}

// The number that a word writes in digits.
fn number(word: &String) -> Option<u32> {
    u32::read(word.as_str().as_bytes()).ok()
}

fn check(words: &[String]) -> Option<Command<'_>> {
    match words {
        [sheet] => Some(Command::Check {
            sheet: sheet.as_str(),
        }),
        _ => None,
    }
}

fn report(words: &[String]) -> Option<Command<'_>> {
    let [sheet, readings, scale @ ..] = words else {
        return None;
    };
    Some(Command::Soak(Job {
        sheet: sheet.as_str(),
        readings: readings.as_str(),
        scale: ScaleName::of(scale)?,
        task: Task::Report,
    }))
}

fn margins(words: &[String]) -> Option<Command<'_>> {
    let [sheet, readings, rule, scale @ ..] = words else {
        return None;
    };
    Some(Command::Soak(Job {
        sheet: sheet.as_str(),
        readings: readings.as_str(),
        scale: ScaleName::of(scale)?,
        task: Task::Margins {
            rule: number(rule)?,
        },
    }))
}

fn plot(words: &[String]) -> Option<Command<'_>> {
    let [sheet, readings, rule, picture, scale @ ..] = words else {
        return None;
    };
    // A scale in the picture's place is a picture forgotten.
    if ScaleName::of(slice::from_ref(picture)).is_some() {
        return None;
    }
    Some(Command::Soak(Job {
        sheet: sheet.as_str(),
        readings: readings.as_str(),
        scale: ScaleName::of(scale)?,
        task: Task::Plot {
            rule: number(rule)?,
            picture: picture.as_str(),
        },
    }))
}
