// A second reader of sheets, over what they say and not over their bytes: which rules a sheet has, or the first ground against
// it. Its outlines have records in their places and no bytes left over, so 13 to 16 are none of its grounds.
use crate::failure::Failure;
use crate::outlines::{Outline, ToldGroup, ToldRule, ToldZone};
use crate::plain_rules::{HEADS, Listed};
use entries::Entry;
use faults::{Ground, Layer, Place};
use std::alloc::Global;

// A ground against a sheet, and where it is a rule's own fault, that fault's ground.
#[derive(Clone, Copy, PartialEq, Eq, Debug)]
pub struct Against {
    pub ground: Ground,
    pub inner: Option<Ground>,
}

// A rule as its place is to hold it.
#[derive(Debug, Drop)]
pub struct Line {
    pub rule_number: u16,
    pub zone_number: u16,
    pub zone: Vec<u8>,
    pub entries: Vec<Entry>,
}

// What was read so far, and the byte at which the next record begins.
#[derive(Drop)]
pub struct Walk {
    heap: Global,
    at: usize,
    total: u8,
    pub groups: usize,
    zones: Vec<u16>,
    taken: [bool; HEADS],
    pub lines: Vec<Line>,
}

// The ground at a byte.
fn byte(number: u8, at: usize) -> Option<Against> {
    Some(Against {
        ground: Ground {
            number,
            layer: Layer::Sheet,
            place: Place::Byte(at),
        },
        inner: None,
    })
}

// The ground of the whole sheet.
fn whole(number: u8) -> Option<Against> {
    Some(Against {
        ground: Ground {
            number,
            layer: Layer::Sheet,
            place: Place::Whole,
        },
        inner: None,
    })
}

// How many bytes an entry's header and fields are.
fn size(entry: &Entry) -> usize {
    match entry.kind {
        16 | 17 | 21 => 10,
        _ => 4,
    }
}

impl Walk {
    pub fn new(heap: Global, total: u8) -> Walk {
        Walk {
            heap,
            at: 5,
            total,
            groups: 0,
            zones: Vec::new(heap),
            taken: [false; HEADS],
            lines: Vec::new(heap),
        }
    }

    fn skip(&mut self, bytes: usize) {
        self.at = self.at.saturating_add(bytes);
    }

    fn rule(&mut self, zone: &ToldZone, rule: &ToldRule) -> Result<Option<Against>, Failure> {
        let at = self.at;
        let number = rule.number;
        if self.lines.iter().any(|line| line.rule_number == number) {
            return Ok(byte(18, at));
        }
        if self.lines.len() >= 64 {
            return Ok(byte(19, at));
        }
        let listed = Listed {
            entries: Vec::from_slice(self.heap, rule.entries.as_slice())?,
            zone: Vec::from_slice(self.heap, zone.heads.as_slice())?,
        };
        if let Err(inner) = listed.check(self.heap)? {
            return Ok(byte(20, at).map(|against| Against {
                inner: Some(inner),
                ..against
            }));
        }
        self.skip(6);
        for entry in rule.entries.iter() {
            self.skip(size(entry));
        }
        let Listed {
            entries,
            zone: heads,
        } = listed;
        self.lines.push(Line {
            rule_number: number,
            zone_number: zone.number,
            zone: heads,
            entries,
        })?;
        Ok(None)
    }

    // The ground against a zone's heads.
    fn heads(&mut self, zone: &ToldZone) -> Option<Against> {
        let at = self.at;
        let mut low = 0;
        for head in zone.heads.iter() {
            let is_taken = self.taken.get(*head as usize).copied().unwrap_or(true);
            if *head >= self.total || *head < low || is_taken {
                return byte(18, at);
            }
            low = head.saturating_add(1);
        }
        for head in zone.heads.iter() {
            if let Some(is_taken) = self.taken.get_mut(*head as usize) {
                *is_taken = true;
            }
        }
        None
    }

    fn zone(&mut self, zone: &ToldZone) -> Result<Option<Against>, Failure> {
        let at = self.at;
        let count = zone.heads.len();
        if count == 0 || count > 32 {
            return Ok(byte(17, at));
        }
        let against = self.heads(zone);
        if against.is_some() {
            return Ok(against);
        }
        if self.zones.contains(&zone.number) {
            return Ok(byte(18, at));
        }
        if self.zones.len() >= 32 {
            return Ok(byte(19, at));
        }
        self.zones.push(zone.number)?;
        self.skip(count.saturating_add(7));
        for rule in zone.rules.iter() {
            let against = self.rule(zone, rule)?;
            if against.is_some() {
                return Ok(against);
            }
        }
        Ok(None)
    }

    fn group(&mut self, group: &ToldGroup) -> Result<Option<Against>, Failure> {
        let at = self.at;
        let length = group.name.len();
        let is_fair = group.name.iter().all(|byte| *byte >= 32 && *byte <= 126);
        if length == 0 || length > 24 || !is_fair {
            return Ok(byte(17, at));
        }
        if self.groups >= 16 {
            return Ok(byte(19, at));
        }
        self.groups = self.groups.saturating_add(1);
        self.skip(length.saturating_add(5));
        for zone in group.zones.iter() {
            let against = self.zone(zone)?;
            if against.is_some() {
                return Ok(against);
            }
        }
        Ok(None)
    }

    // The first ground against an outline where there are so many places; none where it is lawful.
    pub fn read(&mut self, outline: &Outline, places: usize) -> Result<Option<Against>, Failure> {
        if self.total == 0 || self.total > 64 {
            return Ok(byte(17, 0));
        }
        for group in outline.groups.iter() {
            let against = self.group(group)?;
            if against.is_some() {
                return Ok(against);
            }
        }
        if self
            .taken
            .iter()
            .take(self.total as usize)
            .any(|is_taken| !*is_taken)
        {
            return Ok(whole(18));
        }
        if self.lines.len() > places {
            return Ok(whole(21));
        }
        Ok(None)
    }

    pub fn zone_count(&self) -> usize {
        self.zones.len()
    }
}
