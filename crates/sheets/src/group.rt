// Groups: each its name, and zones.
ghost use Rattle.std.specs.Prelude.{◌≡◌, ◌<◌, length, IfOk};
ghost use Rattle.sheets.specs.Layout.{stretch, piece as piece_of};
ghost use Rattle.sheets.specs.Parts.{name as name_of, group as group_of};
ghost use Rattle.sheets.specs.Standing.{Adds, Fills, InSheet, OpensGroup};

use crate::fault::SheetFault;
use crate::piece::Piece;
use crate::reader::Reader;
use crate::sizes::{GROUPS, NAME_BYTES};
use crate::stretch::Stretch;

// The kind of a group's record.
const GROUP: u16 = 2;

// The ground against a group's name.
fn check_name(name: &[u8], at: usize) -> Result<(), SheetFault>
    ensures { result ≡ name_of at name.now }
{
    let length = name.len();
    if !(1..=NAME_BYTES).contains(&length) {
        return Err(SheetFault::NameLength { at, length });
    }
    for byte in name {
        if !(32..=126).contains(byte) {
            return Err(SheetFault::NameByte { at, byte: *byte });
        }
    }
    Ok(())
}

impl Reader {
    // The group of a record, met from now on: the stretch of its zones.
    fn open_group<'a>(&mut self, piece: Piece<'a>) -> Result<Stretch<'a>, SheetFault>
        ensures { OpensGroup (piece_of piece.entry) self.old self.new result }
    {
        let at = piece.at;
        let ([length], inside) = piece.of_kind(GROUP)?.fields::<1>()?;
        let (name, zones) = inside.counted(length, at)?;
        check_name(name, at)?;
        if self.groups >= GROUPS {
            return Err(SheetFault::TooManyGroups { at });
        }
        self.groups += 1;
        Ok(zones)
    }

    // The group that begins the stretch, with its zones; what stands behind it is handed back.
    fn group<'a>(&mut self, holder: Stretch<'a>) -> Result<Stretch<'a>, SheetFault>
        ensures value { Adds InSheet group_of (stretch holder.entry) self.old self.new result }
        ensures shorter { IfOk result (λ left. length left.bytes.now < length holder.entry.bytes.now) }
    {
        let (piece, behind) = holder.split()?;
        let zones = self.open_group(piece)?;
        self.zones(zones)?;
        Ok(behind)
    }

    // Groups to the end of the stretch.
    pub(crate) fn groups(&mut self, holder: Stretch<'_>) -> Result<(), SheetFault>
        ensures { Fills InSheet group_of (stretch holder.entry) self.old self.new result }
    {
        let mut left = holder;
        while !left.is_empty() {
            left = self.group(left)?;
        }
        Ok(())
    }
}
