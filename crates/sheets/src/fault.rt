// Why a sheet is refused.
ghost use Rattle.std.specs.Prelude.{◌≡◌};
ghost use Rattle.sheets.specs.Faults.{sheet_ground, at_byte, at_whole};

use faults::{Fault, Ground, Layer, Place};
use rules::RuleFault;

// The first ground against a sheet, with what a sentence about it needs; `at` is the byte where the record at fault begins,
// or would begin.
#[derive(Clone, Copy, PartialEq, Eq, Debug)]
pub enum SheetFault {
    // The sheet has under 4 or above 16,384 bytes.
    Size { bytes: usize },
    // The bytes are not one record of kind 1 that fills them.
    NotASheet,
    // The record's header or payload runs past its holder.
    RunsPast { at: usize },
    // A record of this kind may not stand here.
    Misplaced { at: usize, kind: u16 },
    // The payload is too short for the record's fields.
    ShortFields { at: usize },
    // Bytes are left over behind the record's parts.
    BytesLeft { at: usize },
    // The sheet's head total is not from 1 to 64.
    HeadTotal { at: usize, total: u8 },
    // The length of the group's name is not from 1 to 24.
    NameLength { at: usize, length: usize },
    // The group's name has a byte outside 32 to 126.
    NameByte { at: usize, byte: u8 },
    // The zone's head count is not from 1 to 32.
    HeadCount { at: usize, count: u8 },
    // The zone names a head that is not below the total.
    HeadAboveTotal { at: usize, head: u8 },
    // The zone's heads do not rise.
    HeadNotRising { at: usize, head: u8 },
    // The zone has a head of an earlier zone.
    HeadInTwoZones { at: usize, head: u8 },
    // The zone's number is an earlier zone's.
    ZoneNumberTwice { at: usize, number: u16 },
    // The rule's number is an earlier rule's.
    RuleNumberTwice { at: usize, number: u16 },
    // No zone has the head.
    HeadInNoZone { head: u8 },
    // The sheet has above 16 groups.
    TooManyGroups { at: usize },
    // The sheet has above 32 zones.
    TooManyZones { at: usize },
    // The sheet has above 64 rules.
    TooManyRules { at: usize },
    // A rule has above 24 formulas.
    TooManyFormulas { at: usize },
    // The rule's own fault.
    Rule { at: usize, fault: RuleFault },
    // There are fewer rule places than rules.
    TooFewPlaces { rules: usize, places: usize },
}

fn at_whole(number: u8) -> Ground
    ensures { result ≡ at_whole number }
{
    Ground {
        number,
        layer: Layer::Sheet,
        place: Place::Whole,
    }
}

fn at_byte(number: u8, at: usize) -> Ground
    ensures { result ≡ at_byte number at }
{
    Ground {
        number,
        layer: Layer::Sheet,
        place: Place::Byte(at),
    }
}

impl Fault for SheetFault {
    ghost cause = { sheet_ground };

    fn ground(&self) -> Ground {
        match *self {
            SheetFault::Size { .. } | SheetFault::NotASheet => at_whole(13),
            SheetFault::RunsPast { at } => at_byte(14, at),
            SheetFault::Misplaced { at, .. } => at_byte(15, at),
            SheetFault::ShortFields { at } | SheetFault::BytesLeft { at } => at_byte(16, at),
            SheetFault::HeadTotal { at, .. }
            | SheetFault::NameLength { at, .. }
            | SheetFault::NameByte { at, .. }
            | SheetFault::HeadCount { at, .. } => at_byte(17, at),
            SheetFault::HeadAboveTotal { at, .. }
            | SheetFault::HeadNotRising { at, .. }
            | SheetFault::HeadInTwoZones { at, .. }
            | SheetFault::ZoneNumberTwice { at, .. }
            | SheetFault::RuleNumberTwice { at, .. } => at_byte(18, at),
            SheetFault::HeadInNoZone { .. } => at_whole(18),
            SheetFault::TooManyGroups { at }
            | SheetFault::TooManyZones { at }
            | SheetFault::TooManyRules { at }
            | SheetFault::TooManyFormulas { at } => at_byte(19, at),
            SheetFault::Rule { at, .. } => at_byte(20, at),
            SheetFault::TooFewPlaces { .. } => at_whole(21),
        }
    }
}
