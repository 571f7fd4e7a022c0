// The sentences that the faults of a sheet print.
ghost use Rattle.std.specs.Prelude.{Some};
ghost use Rattle.sheets.specs.Texts.{sheet_fault_text, sheet_words, words_by};

use crate::fault::SheetFault;
use crate::sizes::{GROUPS, NAME_BYTES, RULES, SHEET_BYTES, ZONES};
use entries::HEADS;
use faults::Fault;
use rules::{ENTRIES, ZONE_HEADS};
use std::fmt;

// The sentences stand in parts by their grounds, since one match over all faults is too long for a function. A part says nothing
// of the faults of another, which `Words` never hands to it.

// What is wrong with how bytes part into records, where a fault of grounds 13 to 16 is told.
#[derive(Clone, Copy)]
struct Form(SheetFault);

impl fmt::Display for Form {
    ghost output = { λ words. words_by 13 16 words.0 };

    fn fmt<W: fmt::Write>(&self, f: &mut fmt::Formatter<W>) -> fmt::Result {
        match self.0 {
            SheetFault::Size { bytes } => {
                write!(f, "{bytes} bytes, where a sheet has 4 to {SHEET_BYTES}")
            }
            SheetFault::NotASheet => {
                write!(f, "the bytes are not one record of kind 1 that fills them")
            }
            SheetFault::RunsPast { .. } => {
                write!(
                    f,
                    "a record begins here that runs past the end of its holder"
                )
            }
            SheetFault::Misplaced { kind, .. } => {
                write!(f, "a record of kind {kind} may not stand here")
            }
            SheetFault::ShortFields { .. } => write!(f, "the record is too short for its fields"),
            SheetFault::BytesLeft { .. } => {
                write!(f, "bytes are left over at the end of the record")
            }
            _ => Ok(()),
        }
    }
}

// What is out of range, where a fault of ground 17 is told.
#[derive(Clone, Copy)]
struct Range(SheetFault);

impl fmt::Display for Range {
    ghost output = { λ words. words_by 17 17 words.0 };

    fn fmt<W: fmt::Write>(&self, f: &mut fmt::Formatter<W>) -> fmt::Result {
        match self.0 {
            SheetFault::HeadTotal { total, .. } => {
                write!(f, "a total of {total} heads, where a card has 1 to {HEADS}")
            }
            SheetFault::NameLength { length, .. } => {
                write!(
                    f,
                    "a name of {length} bytes, where a group's has 1 to {NAME_BYTES}"
                )
            }
            SheetFault::NameByte { byte, .. } => {
                write!(
                    f,
                    "the name has the byte {byte}, which is no printable character"
                )
            }
            SheetFault::HeadCount { count, .. } => {
                write!(
                    f,
                    "a zone of {count} heads, where a zone has 1 to {ZONE_HEADS}"
                )
            }
            _ => Ok(()),
        }
    }
}

// Which head or number is at odds with others, where a fault of ground 18 is told.
#[derive(Clone, Copy)]
struct Odds(SheetFault);

impl fmt::Display for Odds {
    ghost output = { λ words. words_by 18 18 words.0 };

    fn fmt<W: fmt::Write>(&self, f: &mut fmt::Formatter<W>) -> fmt::Result {
        match self.0 {
            SheetFault::HeadAboveTotal { head, .. } => {
                write!(f, "its head {head} is not below the sheet's total")
            }
            SheetFault::HeadNotRising { head, .. } => {
                write!(f, "its head {head} comes after one that is not lower")
            }
            SheetFault::HeadInTwoZones { head, .. } => {
                write!(f, "its head {head} is in an earlier zone")
            }
            SheetFault::ZoneNumberTwice { number, .. } => {
                write!(f, "an earlier zone has its number {number}")
            }
            SheetFault::RuleNumberTwice { number, .. } => {
                write!(f, "an earlier rule has its number {number}")
            }
            SheetFault::HeadInNoZone { head } => write!(f, "head {head} is in no zone"),
            _ => Ok(()),
        }
    }
}

// What is wrong, after the ground.
#[derive(Clone, Copy)]
struct Words(SheetFault);

impl fmt::Display for Words {
    ghost output = { λ words. Some (sheet_words words.0) };

    fn fmt<W: fmt::Write>(&self, f: &mut fmt::Formatter<W>) -> fmt::Result {
        match self.0 {
            SheetFault::Size { .. }
            | SheetFault::NotASheet
            | SheetFault::RunsPast { .. }
            | SheetFault::Misplaced { .. }
            | SheetFault::ShortFields { .. }
            | SheetFault::BytesLeft { .. } => write!(f, "{}", Form(self.0)),
            SheetFault::HeadTotal { .. }
            | SheetFault::NameLength { .. }
            | SheetFault::NameByte { .. }
            | SheetFault::HeadCount { .. } => write!(f, "{}", Range(self.0)),
            SheetFault::HeadAboveTotal { .. }
            | SheetFault::HeadNotRising { .. }
            | SheetFault::HeadInTwoZones { .. }
            | SheetFault::ZoneNumberTwice { .. }
            | SheetFault::RuleNumberTwice { .. }
            | SheetFault::HeadInNoZone { .. } => write!(f, "{}", Odds(self.0)),
            SheetFault::TooManyGroups { .. } => write!(f, "a sheet has at most {GROUPS} groups"),
            SheetFault::TooManyZones { .. } => write!(f, "a sheet has at most {ZONES} zones"),
            SheetFault::TooManyRules { .. } => write!(f, "a sheet has at most {RULES} rules"),
            SheetFault::TooManyFormulas { .. } => {
                write!(f, "a rule has at most {ENTRIES} formulas")
            }
            SheetFault::Rule { fault, .. } => {
                let number = fault.number();
                let place = fault.place();
                let reason = fault.reason();
                write!(f, "the rule itself by {number}, at {place}: {reason}")
            }
            SheetFault::TooFewPlaces { rules, places } => {
                write!(f, "{rules} rules, where there are {places} places")
            }
        }
    }
}

impl fmt::Display for SheetFault {
    ghost output = { λ fault. Some (sheet_fault_text fault) };

    fn fmt<W: fmt::Write>(&self, f: &mut fmt::Formatter<W>) -> fmt::Result {
        let ground = self.ground();
        let words = Words(*self);
        write!(f, "{ground}: {words}")
    }
}
