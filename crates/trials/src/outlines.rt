// Outlines of rule sheets, and how they are spelled: a small writer of the trials' own.
use crate::failure::Failure;
use entries::Entry;
use std::alloc::Global;

// A rule of a zone: its number, and its formula as a list of entries.
#[derive(Debug, Drop)]
pub struct ToldRule {
    pub number: u16,
    pub entries: Vec<Entry>,
}

#[derive(Debug, Drop)]
pub struct ToldZone {
    pub number: u16,
    pub heads: Vec<u8>,
    pub rules: Vec<ToldRule>,
}

#[derive(Debug, Drop)]
pub struct ToldGroup {
    pub name: Vec<u8>,
    pub zones: Vec<ToldZone>,
}

// What a sheet says.
#[derive(Debug, Drop)]
pub struct Outline {
    pub total: u8,
    pub groups: Vec<ToldGroup>,
}

// A record of a kind around a payload.
pub fn spell_record(heap: Global, kind: u16, payload: &[u8]) -> Result<Vec<u8>, Failure> {
    let length = u16::try_from(payload.len()).unwrap_or(u16::MAX);
    let mut bytes = Vec::new(heap);
    bytes.extend_from_slice(&length.to_le_bytes())?;
    bytes.extend_from_slice(&kind.to_le_bytes())?;
    bytes.extend_from_slice(payload)?;
    Ok(bytes)
}

// The fields of an entry.
fn spell_fields(heap: Global, entry: &Entry) -> Result<Vec<u8>, Failure> {
    let mut bytes = Vec::new(heap);
    match entry.kind {
        16 | 17 => {
            let first = if entry.kind == 16 {
                entry.head
            } else {
                entry.k
            };
            bytes.push(first)?;
            bytes.push(entry.sense)?;
            bytes.extend_from_slice(&entry.limit.to_le_bytes())?;
        }
        21 => {
            bytes.extend_from_slice(&entry.first.to_le_bytes())?;
            bytes.extend_from_slice(&entry.last.to_le_bytes())?;
            bytes.extend_from_slice(&entry.share.to_le_bytes())?;
        }
        _ => {}
    }
    Ok(bytes)
}

// The formulas that a list spells, one behind another: one where the list is lawful.
fn spell_formula(heap: Global, entries: &[Entry]) -> Result<Vec<u8>, Failure> {
    let mut open: Vec<Vec<u8>> = Vec::new(heap);
    for entry in entries {
        let mut payload = spell_fields(heap, entry)?;
        if entry.kind >= 18 {
            let right = open.pop().ok_or(Failure::Setting)?;
            if entry.kind == 19 || entry.kind == 20 {
                let left = open.pop().ok_or(Failure::Setting)?;
                payload.extend_from_slice(left.as_slice())?;
            }
            payload.extend_from_slice(right.as_slice())?;
        }
        open.push(spell_record(heap, entry.kind as u16, payload.as_slice())?)?;
    }
    let mut bytes = Vec::new(heap);
    for formula in open.iter() {
        bytes.extend_from_slice(formula.as_slice())?;
    }
    Ok(bytes)
}

impl ToldRule {
    fn spell(&self, heap: Global) -> Result<Vec<u8>, Failure> {
        let mut payload = Vec::new(heap);
        payload.extend_from_slice(&self.number.to_le_bytes())?;
        let formula = spell_formula(heap, self.entries.as_slice())?;
        payload.extend_from_slice(formula.as_slice())?;
        spell_record(heap, 4, payload.as_slice())
    }
}

impl ToldZone {
    fn spell(&self, heap: Global) -> Result<Vec<u8>, Failure> {
        let mut payload = Vec::new(heap);
        payload.extend_from_slice(&self.number.to_le_bytes())?;
        payload.push(u8::try_from(self.heads.len()).unwrap_or(u8::MAX))?;
        payload.extend_from_slice(self.heads.as_slice())?;
        for rule in self.rules.iter() {
            let bytes = rule.spell(heap)?;
            payload.extend_from_slice(bytes.as_slice())?;
        }
        spell_record(heap, 3, payload.as_slice())
    }
}

impl ToldGroup {
    fn spell(&self, heap: Global) -> Result<Vec<u8>, Failure> {
        let mut payload = Vec::new(heap);
        payload.push(u8::try_from(self.name.len()).unwrap_or(u8::MAX))?;
        payload.extend_from_slice(self.name.as_slice())?;
        for zone in self.zones.iter() {
            let bytes = zone.spell(heap)?;
            payload.extend_from_slice(bytes.as_slice())?;
        }
        spell_record(heap, 2, payload.as_slice())
    }
}

impl Outline {
    // The sheet's bytes.
    pub fn spell(&self, heap: Global) -> Result<Vec<u8>, Failure> {
        let mut payload = Vec::new(heap);
        payload.push(self.total)?;
        for group in self.groups.iter() {
            let bytes = group.spell(heap)?;
            payload.extend_from_slice(bytes.as_slice())?;
        }
        spell_record(heap, 1, payload.as_slice())
    }
}
