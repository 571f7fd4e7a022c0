// Rules as the definitions say them: what refuses a list of entries, and what it is worth at a poll. Nothing of the library's
// rules or watches is used; every window is sorted anew.
use crate::failure::Failure;
use crate::plain_scales::{Over, mark};
use entries::Entry;
use faults::{Ground, Layer, Place};
use std::alloc::Global;

// How many heads a card may have.
pub const HEADS: usize = 64;

// A rule as a caller lists it: its entries, and its zone's heads, rising.
#[derive(Debug, Drop)]
pub struct Listed {
    pub entries: Vec<Entry>,
    pub zone: Vec<u8>,
}

// What is asked of a lawful rule.
#[derive(Clone, Copy, PartialEq, Eq, Debug)]
pub struct Shape {
    pub horizon: u32,
    pub need: usize,
    pub reads: [bool; HEADS],
}

// The steps of the heads at one poll; those that the rule does not read are 0.
#[derive(Clone, Copy, Debug)]
pub struct Row {
    pub steps: [i64; HEADS],
}

// The ground of a rule's refusal.
fn refused(number: u8, entry: usize) -> Ground {
    Ground {
        number,
        layer: Layer::Rule,
        place: Place::Entry(entry),
    }
}

// How many polls the window of an entry has.
fn width(entry: &Entry) -> u32 {
    (entry.last as u32 + 1).saturating_sub(entry.first as u32)
}

fn is_fair_test(entry: &Entry) -> bool {
    entry.sense <= 1 && (-1_048_576..=1_048_576).contains(&entry.limit)
}

// Whether kind and fields, head apart, are in range in a zone of so many heads.
fn is_in_range(entry: &Entry, heads: usize) -> bool {
    match entry.kind {
        16 => is_fair_test(entry),
        17 => is_fair_test(entry) && entry.k >= 1 && entry.k as usize <= heads,
        18..=20 => true,
        21 => {
            entry.first <= entry.last
                && entry.last <= 1_439
                && entry.share >= 1
                && entry.share <= 1_000
        }
        _ => false,
    }
}

// The horizon of an entry's formula, of the horizons of those before it, which it takes; none where there are too few.
fn horizon(entry: &Entry, open: &mut Vec<u32>) -> Option<u32> {
    match entry.kind {
        18 => open.pop(),
        19 | 20 => {
            let right = open.pop()?;
            let left = open.pop()?;
            Some(left.max(right))
        }
        21 => Some(open.pop()?.saturating_add(entry.last as u32)),
        _ => Some(0),
    }
}

// The margin that so many of the list reach, from the highest.
fn highest(mut margins: Vec<i64>, k: usize) -> Option<i64> {
    margins.sort_unstable();
    margins.get(margins.len().checked_sub(k)?).copied()
}

// The least whole number of polls that are a share of a window.
fn polls_of_share(share: u16, width: u32) -> usize {
    let wanted = share as u64 * width as u64;
    (0..=width as usize)
        .find(|polls| *polls as u64 * 1_000 >= wanted)
        .unwrap_or(0)
}

impl Listed {
    // The first ground against the list, or how far its last formula looks.
    pub fn check(&self, heap: Global) -> Result<Result<u32, Ground>, Failure> {
        let count = self.entries.len();
        let heads = self.zone.len();
        if count == 0 || count > 24 || heads == 0 || heads > 32 {
            return Ok(Err(refused(1, 0)));
        }
        let mut open: Vec<u32> = Vec::new(heap);
        let mut last = 0;
        for (at, entry) in self.entries.iter().enumerate() {
            if !is_in_range(entry, heads) {
                return Ok(Err(refused(2, at)));
            }
            if entry.kind == 16 && !self.zone.contains(&entry.head) {
                return Ok(Err(refused(3, at)));
            }
            let Some(horizon) = horizon(entry, &mut open) else {
                return Ok(Err(refused(4, at)));
            };
            if at + 1 == count && !open.is_empty() {
                return Ok(Err(refused(4, at)));
            }
            if horizon > 4_095 {
                return Ok(Err(refused(5, at)));
            }
            open.push(horizon)?;
            last = horizon;
        }
        Ok(Ok(last))
    }

    // Whether the rule reads a head.
    fn reads(&self, head: u8) -> bool {
        self.entries
            .iter()
            .any(|entry| entry.kind == 16 && entry.head == head)
            || (self.tests_zone() && self.zone.contains(&head))
    }

    fn tests_zone(&self) -> bool {
        self.entries.iter().any(|entry| entry.kind == 17)
    }

    // How many cells a watch of it needs.
    fn need(&self, horizon: u32) -> usize {
        let mut need = self.entries.len().saturating_mul(horizon as usize + 1);
        for entry in self.entries.iter() {
            if entry.kind == 21 {
                need = need.saturating_add(width(entry) as usize);
            }
        }
        if self.tests_zone() {
            need = need.saturating_add(self.zone.len());
        }
        need
    }

    // What is asked of it, or the first ground against it.
    pub fn shape(&self, heap: Global) -> Result<Result<Shape, Ground>, Failure> {
        let horizon = match self.check(heap)? {
            Ok(horizon) => horizon,
            Err(ground) => return Ok(Err(ground)),
        };
        let mut reads = [false; HEADS];
        for (head, is_read) in reads.iter_mut().enumerate() {
            *is_read = self.reads(head as u8);
        }
        Ok(Ok(Shape {
            horizon,
            need: self.need(horizon),
            reads,
        }))
    }
}

// What a test is worth in a row.
fn tested(layers: &[Over], entry: &Entry, row: &Row, head: u8) -> i64 {
    let steps = row.steps.get(head as usize).copied().unwrap_or(0);
    let limit = entry.limit as i64;
    let difference = if entry.sense == 0 {
        steps.saturating_sub(limit)
    } else {
        limit.saturating_sub(steps)
    };
    mark(layers, difference)
}

// The margins of a zone test in a row.
fn zone_tested(
    heap: Global,
    layers: &[Over],
    entry: &Entry,
    row: &Row,
    zone: &[u8],
) -> Result<i64, Failure> {
    let mut tests = Vec::new(heap);
    for head in zone {
        tests.push(tested(layers, entry, row, *head))?;
    }
    highest(tests, entry.k as usize).ok_or(Failure::Setting)
}

// The margins of two formulas at the polls that both have, put together by one rule.
fn together(heap: Global, left: &[i64], right: &[i64], higher: bool) -> Result<Vec<i64>, Failure> {
    let mut margins = Vec::new(heap);
    for (a, b) in left.iter().zip(right.iter()) {
        margins.push(if higher { (*a).max(*b) } else { (*a).min(*b) })?;
    }
    Ok(margins)
}

// The margins of a window over a formula, at every poll from which the formula's margins reach to its end.
fn windowed(heap: Global, entry: &Entry, inner: &[i64]) -> Result<Vec<i64>, Failure> {
    let k = polls_of_share(entry.share, width(entry));
    let mut margins = Vec::new(heap);
    for polls in inner.windows(entry.last as usize + 1) {
        let seen = polls.get(entry.first as usize..).unwrap_or(&[]);
        let sorted = Vec::from_slice(heap, seen)?;
        margins.push(highest(sorted, k).ok_or(Failure::Setting)?)?;
    }
    Ok(margins)
}

impl Listed {
    // The margins of a test at each row.
    fn test(
        &self,
        heap: Global,
        layers: &[Over],
        entry: &Entry,
        rows: &[Row],
    ) -> Result<Vec<i64>, Failure> {
        let mut margins = Vec::new(heap);
        for row in rows {
            let margin = if entry.kind == 17 {
                zone_tested(heap, layers, entry, row, self.zone.as_slice())?
            } else {
                tested(layers, entry, row, entry.head)
            };
            margins.push(margin)?;
        }
        Ok(margins)
    }

    // The margins of the formula that ends at an entry; those of the formulas that it takes are the last ones open.
    fn formula(
        &self,
        heap: Global,
        layers: &[Over],
        entry: &Entry,
        rows: &[Row],
        open: &mut Vec<Vec<i64>>,
    ) -> Result<Vec<i64>, Failure> {
        if entry.kind < 18 {
            return self.test(heap, layers, entry, rows);
        }
        let mut newest = open.pop().ok_or(Failure::Setting)?;
        match entry.kind {
            18 => {
                for margin in newest.iter_mut() {
                    *margin = margin.saturating_neg();
                }
                Ok(newest)
            }
            21 => windowed(heap, entry, newest.as_slice()),
            kind => {
                let left = open.pop().ok_or(Failure::Setting)?;
                together(heap, left.as_slice(), newest.as_slice(), kind == 19)
            }
        }
    }

    // The margin of the rule at the first of as many rows as it looks at.
    pub fn margin(&self, heap: Global, layers: &[Over], rows: &[Row]) -> Result<i64, Failure> {
        let mut open: Vec<Vec<i64>> = Vec::new(heap);
        for entry in self.entries.iter() {
            let margins = self.formula(heap, layers, entry, rows, &mut open)?;
            open.push(margins)?;
        }
        let margins = open.pop().ok_or(Failure::Setting)?;
        margins.first().copied().ok_or(Failure::Setting)
    }
}
