// Parting a stretch of a sheet's bytes into records and their fields.
ghost use Rattle.std.specs.Prelude.{◌≡◌, ◌+◌, ◌≤◌, ◌==◌, length, IfOk};
ghost use Rattle.sheets.specs.Layout.{stretch, piece, split as split_of, of_kind as of_kind_of, fields as fields_of, ended, counted as counted_of};
ghost use Rattle.sheets.specs.Standing.{Meets};

use crate::fault::SheetFault;
use crate::piece::Piece;
use crate::stretch::Stretch;

impl<'a> Stretch<'a> {
    // Whether no byte is left.
    pub(crate) fn is_empty(self) -> bool
        ensures { result ≡ (length self.entry.bytes.now == 0) }
    {
        self.bytes.is_empty()
    }

    // No byte is left over of the record at a place.
    pub(crate) fn end(self, at: usize) -> Result<(), SheetFault>
        ensures { result ≡ ended at (stretch self.entry) }
    {
        if !self.is_empty() {
            return Err(SheetFault::BytesLeft { at });
        }
        Ok(())
    }

    // The record that begins it, and the stretch behind that record; refused where its header or payload runs past the end.
    pub(crate) fn split(self) -> Result<(Piece<'a>, Stretch<'a>), SheetFault>
        ensures value { Meets (λ x. (piece x.0, stretch x.1)) (split_of (stretch self.entry)) result }
        ensures inside { IfOk result (λ x. length x.0.inside.bytes.now + 4 ≤ length self.entry.bytes.now) }
        ensures behind { IfOk result (λ x. length x.1.bytes.now + 4 ≤ length self.entry.bytes.now) }
    {
        let at = self.place;
        let (header, behind) = self
            .bytes
            .split_first_chunk::<4>()
            .ok_or(SheetFault::RunsPast { at })?;
        let length = u16::from_le_bytes([header[0], header[1]]) as usize;
        let (payload, rest) = behind
            .split_at_checked(length)
            .ok_or(SheetFault::RunsPast { at })?;
        let piece = Piece {
            kind: u16::from_le_bytes([header[2], header[3]]),
            at,
            inside: Stretch {
                bytes: payload,
                place: at + 4,
            },
        };
        let behind = Stretch {
            bytes: rest,
            place: at + 4 + length,
        };
        Ok((piece, behind))
    }

    // So many bytes of a list that a field of its record, which is at a place, counts; and the stretch behind them.
    pub(crate) fn counted(self, count: u8, at: usize) -> Result<(&'a [u8], Stretch<'a>), SheetFault>
        ensures { Meets (λ x. (x.0.now, stretch x.1)) (counted_of at count (stretch self.entry)) result }
    {
        let (listed, behind) = self
            .bytes
            .split_at_checked(count as usize)
            .ok_or(SheetFault::ShortFields { at })?;
        let rest = Stretch {
            bytes: behind,
            place: self.place + count as usize,
        };
        Ok((listed, rest))
    }
}

impl<'a> Piece<'a> {
    // It is of this kind, or may not stand here.
    pub(crate) fn of_kind(self, kind: u16) -> Result<Piece<'a>, SheetFault>
        ensures { Meets piece (of_kind_of kind (piece self.entry)) result }
    {
        if self.kind != kind {
            return Err(SheetFault::Misplaced {
                at: self.at,
                kind: self.kind,
            });
        }
        Ok(self)
    }

    // Its first fields, so many bytes, and the stretch behind them.
    pub(crate) fn fields<const BYTES: usize>(self) -> Result<([u8; BYTES], Stretch<'a>), SheetFault>
        ensures value { Meets (λ x. (x.0, stretch x.1)) (fields_of BYTES (piece self.entry)) result }
        ensures shorter { IfOk result (λ x. length x.1.bytes.now ≤ length self.entry.inside.bytes.now) }
    {
        let (fields, behind) = self
            .inside
            .bytes
            .split_first_chunk::<BYTES>()
            .ok_or(SheetFault::ShortFields { at: self.at })?;
        let rest = Stretch {
            bytes: behind,
            place: self.inside.place + BYTES,
        };
        Ok((*fields, rest))
    }
}
