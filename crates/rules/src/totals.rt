// What the entries of a list add up to: the heads that they read, the widths of their windows, and the cells needed.
ghost use Rattle.std.specs.Prelude.{◌≡◌, ℕ, ◌+◌, ◌*◌, ◌<◌, ◌≤◌, cond, length, sum_by, ◌==◌};
ghost use Rattle.std.specs.List.{list_any};
ghost use Rattle.formulas.specs.Formula.{among, width};
ghost use Rattle.entries.specs.Heads.{head_total, heads};
ghost use Rattle.rules.specs.Totals.{entry_reads, tests_zone, entry_width};

use crate::draft::Draft;
use crate::sizes::{ENTRIES, HORIZON, ZONE_HEADS};
use entries::{Entry, HeadSet, Kind};

// The head alone; no head where there is no such head.
fn alone(head: u8) -> HeadSet
    ensures { (h : ℕ) → h < head_total → among h (heads result.bits) ≡ (head == h) }
{
    HeadSet::empty().with(head).unwrap_or(HeadSet::empty())
}

// The heads that one entry reads.
fn entry_reads(entry: Entry, zone: HeadSet) -> HeadSet
    ensures { (h : ℕ) → h < head_total → among h (heads result.bits) ≡ entry_reads (heads zone.bits) h entry }
{
    match Kind::try_from(entry.kind) {
        Ok(Kind::HeadTest) => alone(entry.head),
        Ok(Kind::ZoneTest) => zone,
        _ => HeadSet::empty(),
    }
}

impl Draft<'_> {
    // The heads that the entries read.
    pub(crate) fn heads_read(&self) -> HeadSet
        ensures { (h : ℕ) → h < head_total → among h (heads result.bits) ≡ list_any (entry_reads (heads self.now.zone.bits) h) self.now.entries.now }
    {
        self.entries.iter().fold(HeadSet::empty(), |read, entry| {
            read.union(entry_reads(*entry, self.zone))
        })
    }

    // Whether one of the entries is a zone test.
    pub(crate) fn any_zone_test(&self) -> bool
        ensures { result ≡ list_any tests_zone self.now.entries.now }
    {
        self.entries
            .iter()
            .any(|entry| Kind::try_from(entry.kind) == Ok(Kind::ZoneTest))
    }

    // How many polls all windows have.
    pub(crate) fn widths(&self) -> usize
        ensures { result ≡ sum_by entry_width self.now.entries.now }
    {
        self.entries.iter().map(|entry| entry_width(*entry)).sum()
    }
}

// How many polls a window has.
pub(crate) fn width(first: u16, last: u16) -> u32
    ensures value { result ≡ width first last }
    ensures small { result ≤ 65536 }
{
    last.saturating_sub(first) as u32 + 1
}

// How many polls the window of an entry has.
fn entry_width(entry: Entry) -> usize
    ensures value { result ≡ entry_width entry }
    ensures small { result ≤ 65536 }
{
    if Kind::try_from(entry.kind) == Ok(Kind::Window) {
        width(entry.first, entry.last) as usize
    } else {
        0
    }
}

// The cells for the tests of the zone's heads.
pub(crate) fn test_cells(zone_test: bool, zone: HeadSet) -> usize
    ensures { result ≡ cond zone_test (length (heads zone.bits)) 0 }
{
    if zone_test { zone.size() } else { 0 }
}

// The cells for so many entries, with a margin of each for every poll up to the horizon, for the windows and for the
// tests of a zone.
pub(crate) fn cells(entries: usize, horizon: u32, windows: usize, tests: usize) -> usize
    requires entries { entries ≤ ENTRIES }
    requires horizon { horizon ≤ HORIZON }
    requires windows { windows ≤ 1440 * ENTRIES }
    requires tests { tests ≤ ZONE_HEADS }
    ensures { result ≡ entries * (horizon + 1) + windows + tests }
{
    entries * (horizon as usize + 1) + windows + tests
}
