// Zones: each its number, its heads, and rules.
ghost use Rattle.std.specs.Prelude.{◌≡◌, ℕ, ◌<◌, List, length, map, IfOk, OnOk};
ghost use Rattle.sheets.specs.Layout.{stretch, piece as piece_of};
ghost use Rattle.sheets.specs.Outlines.{SheetZone};
ghost use Rattle.sheets.specs.Parts.{zone as zone_of, zone_number, head_count};
ghost use Rattle.sheets.specs.Standing.{Adds, Fills, GivesHeads, InGroup, OpensZone};
ghost use Rattle.sheets.specs.declared.sizes.TheConstants.{ZONES};

use crate::fault::SheetFault;
use crate::piece::Piece;
use crate::reader::Reader;
use crate::stretch::Stretch;
use crate::zone::Zone;
use entries::HeadSet;
use rules::ZONE_HEADS;

// The kind of a zone's record.
const ZONE: u16 = 3;

// The ground against a zone's head count.
fn check_count(count: u8, at: usize) -> Result<(), SheetFault>
    ensures { result ≡ head_count at count }
{
    if !(1..=ZONE_HEADS).contains(&(count as usize)) {
        return Err(SheetFault::HeadCount { at, count });
    }
    Ok(())
}

impl Reader {
    // The heads of a zone, as a set: below the total, rising, and in no earlier zone.
    fn zone_heads(&self, listed: &[u8], at: usize) -> Result<HeadSet, SheetFault>
        ensures { GivesHeads at self.now.total self.now.heads listed.now result }
    {
        let mut set = HeadSet::empty();
        let mut low = 0;
        for head in listed {
            let head = *head;
            if head >= self.total {
                return Err(SheetFault::HeadAboveTotal { at, head });
            }
            if head < low {
                return Err(SheetFault::HeadNotRising { at, head });
            }
            if self.heads.contains(head) {
                return Err(SheetFault::HeadInTwoZones { at, head });
            }
            set = set
                .with(head)
                .ok_or(SheetFault::HeadAboveTotal { at, head })?;
            low = head + 1;
        }
        Ok(set)
    }

    // The ground against a zone's number: an earlier zone has it, or there is no room for one more zone.
    fn check_zone(&self, number: u16, at: usize) -> Result<(), SheetFault>
        ensures value { (zs : List SheetZone) → self.now.zones.items ≡ map (λ z. z.number) zs → result ≡ zone_number at number zs }
        ensures room { OnOk result (length self.now.zones.items < ZONES) }
    {
        let earlier = self.zones.as_slice();
        if earlier.iter().any(|zone| *zone == number) {
            return Err(SheetFault::ZoneNumberTwice { at, number });
        }
        if self.zones.is_full() {
            return Err(SheetFault::TooManyZones { at });
        }
        Ok(())
    }

    // The zone of a record, met from now on, and the stretch of its rules.
    fn open_zone<'a>(&mut self, piece: Piece<'a>) -> Result<(Zone, Stretch<'a>), SheetFault>
        ensures value { OpensZone (piece_of piece.entry) self.old self.new result }
    {
        let at = piece.at;
        let ([low, high, count], inside) = piece.of_kind(ZONE)?.fields::<3>()?;
        let (listed, rules) = inside.counted(count, at)?;
        check_count(count, at)?;
        let heads = self.zone_heads(listed, at)?;
        let number = u16::from_le_bytes([low, high]);
        self.check_zone(number, at)?;
        self.zones.push(number);
        self.heads = self.heads.union(heads);
        Ok((Zone { number, heads }, rules))
    }

    // The zone that begins the stretch, with its rules; what stands behind it is handed back.
    fn zone<'a>(&mut self, holder: Stretch<'a>) -> Result<Stretch<'a>, SheetFault>
        ensures value { (total groups : ℕ) (before : List SheetZone) → Adds (InGroup total groups before) (zone_of total before) (stretch holder.entry) self.old self.new result }
        ensures shorter { IfOk result (λ left. length left.bytes.now < length holder.entry.bytes.now) }
    {
        let (piece, behind) = holder.split()?;
        let (zone, rules) = self.open_zone(piece)?;
        self.rules(zone, rules)?;
        Ok(behind)
    }

    // Zones to the end of the stretch.
    pub(crate) fn zones(&mut self, holder: Stretch<'_>) -> Result<(), SheetFault>
        ensures { (total groups : ℕ) (before : List SheetZone) → Fills (InGroup total groups before) (zone_of total before) (stretch holder.entry) self.old self.new result }
    {
        let mut left = holder;
        while !left.is_empty() {
            left = self.zone(left)?;
        }
        Ok(())
    }
}
