// The sheet's own record: the head total, and groups.
ghost use Rattle.std.specs.Prelude.{◌≡◌, ◌≤◌, [], List, MatchResult, Ok, Err, OnOk};
ghost use Rattle.entries.specs.declared.heads.TheConstants.{HEADS};
ghost use Rattle.sheets.specs.Layout.{piece as piece_of};
ghost use Rattle.sheets.specs.Outlines.{Outline, SheetZone};
ghost use Rattle.sheets.specs.Reading.{whole as whole_of, read, all_zoned, head_total};
ghost use Rattle.sheets.specs.Standing.{HeadsMet, InSheet, Meets, Stands};

use crate::fault::SheetFault;
use crate::piece::Piece;
use crate::reader::Reader;
use crate::sizes::SHEET_BYTES;
use crate::stretch::Stretch;
use arrayvec::ArrayVec;
use entries::{HEADS, HeadSet};

// The kind of the sheet's record.
const SHEET: u16 = 1;

// The one record of kind 1 that fills the bytes.
fn whole(sheet: &[u8]) -> Result<Piece<'_>, SheetFault>
    ensures { Meets piece_of (whole_of sheet.now) result }
{
    let bytes = sheet.len();
    if !(4..=SHEET_BYTES).contains(&bytes) {
        return Err(SheetFault::Size { bytes });
    }
    let holder = Stretch {
        bytes: sheet,
        place: 0,
    };
    match holder.split() {
        Ok((piece, left)) if piece.kind == SHEET && left.is_empty() => Ok(piece),
        _ => Err(SheetFault::NotASheet),
    }
}

// The ground against a head total.
fn check_total(total: u8) -> Result<(), SheetFault>
    ensures value { result ≡ head_total total }
    ensures card { OnOk result (total ≤ HEADS) }
{
    if !(1..=HEADS).contains(&total) {
        return Err(SheetFault::HeadTotal { at: 0, total });
    }
    Ok(())
}

impl Reader {
    // Nothing met yet, on a card of so many heads.
    fn new(total: u8) -> Reader
        requires { total ≤ HEADS }
        ensures { Stands total 0 [] result }
    {
        Reader {
            total,
            groups: 0,
            zones: ArrayVec::new(),
            heads: HeadSet::empty(),
            rules: ArrayVec::new(),
        }
    }

    // Every head below the total is in a zone, or the first that is not.
    fn all_zoned(&self) -> Result<(), SheetFault>
        ensures { (zs : List SheetZone) → HeadsMet zs self.now.heads → result ≡ all_zoned zs 0 self.now.total }
    {
        for head in 0..self.total {
            if !self.heads.contains(head) {
                return Err(SheetFault::HeadInNoZone { head });
            }
        }
        Ok(())
    }

    // What a whole sheet holds.
    pub(crate) fn sheet(sheet: &[u8]) -> Result<Reader, SheetFault>
        ensures { MatchResult result (λ r. (o : Outline) × (read sheet.now ≡ Ok o) × InSheet o r) (λ f. read sheet.now ≡ Err f) }
    {
        let piece = whole(sheet)?;
        let ([total], groups) = piece.fields::<1>()?;
        check_total(total)?;
        let mut reader = Reader::new(total);
        reader.groups(groups)?;
        reader.all_zoned()?;
        Ok(reader)
    }
}
