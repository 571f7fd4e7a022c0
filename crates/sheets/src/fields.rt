// The fields of a formula's record.
ghost use Rattle.std.specs.Prelude.{◌≡◌, ◌≤◌, length, IfOk};
ghost use Rattle.entries.specs.Kinds.{kind_number};
ghost use Rattle.sheets.specs.Formulas.{taken, entry_of, kind_of};
ghost use Rattle.sheets.specs.Layout.{stretch, piece, limit_at};
ghost use Rattle.sheets.specs.Standing.{Meets};

use crate::fault::SheetFault;
use crate::piece::Piece;
use crate::stretch::Stretch;
use entries::{Entry, Kind};

// How many formulas a formula of this kind takes.
pub(crate) fn operands(kind: Kind) -> u8
    ensures { result ≡ taken (kind_number kind) }
{
    match kind {
        Kind::HeadTest | Kind::ZoneTest => 0,
        Kind::Not | Kind::Window => 1,
        Kind::Either | Kind::Both => 2,
    }
}

// The limit in the last four bytes of a test's fields.
fn limit(fields: [u8; 6]) -> i32
    ensures { result ≡ limit_at 2 fields }
{
    i32::from_le_bytes([fields[2], fields[3], fields[4], fields[5]])
}

impl<'a> Piece<'a> {
    // The kind of the formula that it is, or it may not stand here.
    pub(crate) fn formula_kind(self) -> Result<Kind, SheetFault>
        ensures { Meets kind_number (kind_of (piece self.entry)) result }
    {
        let Piece { kind, at, .. } = self;
        u8::try_from(kind)
            .ok()
            .and_then(|number| Kind::try_from(number).ok())
            .ok_or(SheetFault::Misplaced { at, kind })
    }

    // The entry that its fields spell, and the stretch of the formulas that it takes.
    pub(crate) fn entry(self, kind: Kind) -> Result<(Entry, Stretch<'a>), SheetFault>
        ensures value { Meets (λ x. (x.0, stretch x.1)) (entry_of (kind_number kind) (piece self.entry)) result }
        ensures shorter { IfOk result (λ x. length x.1.bytes.now ≤ length self.entry.inside.bytes.now) }
    {
        let blank = Entry {
            kind: kind as u8,
            ..Entry::BLANK
        };
        match kind {
            Kind::HeadTest | Kind::ZoneTest => {
                let (fields, inside) = self.fields::<6>()?;
                let (head, k) = if kind == Kind::HeadTest {
                    (fields[0], 0)
                } else {
                    (0, fields[0])
                };
                let entry = Entry {
                    head,
                    k,
                    sense: fields[1],
                    limit: limit(fields),
                    ..blank
                };
                Ok((entry, inside))
            }
            Kind::Window => {
                let (fields, inside) = self.fields::<6>()?;
                let entry = Entry {
                    first: u16::from_le_bytes([fields[0], fields[1]]),
                    last: u16::from_le_bytes([fields[2], fields[3]]),
                    share: u16::from_le_bytes([fields[4], fields[5]]),
                    ..blank
                };
                Ok((entry, inside))
            }
            Kind::Not | Kind::Either | Kind::Both => Ok((blank, self.inside)),
        }
    }
}
