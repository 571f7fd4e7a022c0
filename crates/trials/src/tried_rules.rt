// Random lists of entries: what a rule made of them is, or why none is made, beside the second evaluator.
use crate::any_rules::{Bounds, any_zone};
use crate::failure::Failure;
use crate::plain_rules::{HEADS, Listed, Shape};
use crate::random::Random;
use entries::HeadSet;
use faults::{Fault, Ground};
use rules::Rule;
use std::alloc::Global;

// How many lists are tried.
const LISTS: u32 = 20_000;

impl Listed {
    // The zone as a set.
    pub fn heads(&self) -> Result<HeadSet, Failure> {
        HeadSet::of(self.zone.as_slice()).ok_or(Failure::Setting)
    }
}

// What the library says is asked of a rule.
fn shape_of(rule: &Rule) -> Shape {
    let mut reads = [false; HEADS];
    for (head, is_read) in reads.iter_mut().enumerate() {
        *is_read = rule.reads().contains(head as u8);
    }
    Shape {
        horizon: rule.horizon(),
        need: rule.need(),
        reads,
    }
}

// A list that may be lawful or not.
fn any_list(heap: Global, random: &mut Random) -> Result<Listed, Failure> {
    let bounds = Bounds {
        near: random.one_of(&[40, -1_048_570, 1_048_570]).unwrap_or(0),
        size: random.one_of(&[3, 8, 14]).unwrap_or(3),
        reach: random.one_of(&[4, 60, 1_440]).unwrap_or(4),
    };
    let zone = any_zone(heap, random, 64)?;
    let mut listed = bounds.list(heap, random, zone)?;
    for _ in 0..random.below(3) {
        listed.spoil(random)?;
    }
    Ok(listed)
}

// Tries a list, and says whether it is lawful.
fn try_list(rt: &HostRuntime, listed: &Listed) -> Result<bool, Failure> {
    let expected = listed.shape(rt.alloc())?;
    let rule = Rule::new(listed.entries.as_slice(), listed.heads()?);
    let found: Result<Shape, Ground> = match &rule {
        Ok(rule) => Ok(shape_of(rule)),
        Err(fault) => Err(fault.ground()),
    };
    if found != expected {
        println!(rt; "A rule is not what its list spells.")?;
        println!(rt; "  the list: {listed:?}")?;
        println!(rt; "  expected: {expected:?}")?;
        println!(rt; "  found: {found:?}")?;
        return Err(Failure::Disagreement);
    }
    Ok(rule.is_ok())
}

pub fn try_all(rt: &HostRuntime, random: &mut Random) -> Result<(), Failure> {
    let mut lawful = 0u32;
    for _ in 0..LISTS {
        let listed = any_list(rt.alloc(), random)?;
        if try_list(rt, &listed)? {
            lawful = lawful.saturating_add(1);
        }
    }
    println!(rt;
        "Rules: {LISTS} lists of entries, {lawful} of them lawful; all as the definitions say."
    )?;
    Ok(())
}
