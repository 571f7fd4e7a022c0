// Watches and surveys as the definitions say them: the rows that the calls had a watch accept, and what each call answers.
use crate::failure::Failure;
use crate::plain_records::{Part, Told};
use crate::plain_rules::{HEADS, Listed, Row, Shape};
use crate::plain_scales::{Over, Plain};
use faults::{Ground, Layer, Place};
use std::alloc::Global;
use watches::Answer;

// One of the calls that are tried.
#[derive(Clone, Copy, Debug)]
pub enum Call {
    Step { poll: u32 },
    Play { first: u32, last: u32 },
    Ask,
    Clear,
    Survey { poll: u32 },
}

// What a call answers, with margins as whole numbers.
#[derive(Clone, Copy, PartialEq, Eq, Debug)]
pub enum Outcome {
    // So many rows were taken, up to a refusal, if there is one.
    Took { rows: u32, refused: Option<Ground> },
    Asked(Answer<i64>),
    Margin(i64),
    Refused(Ground),
    Cleared,
}

// A rule on a scale, as the definitions see them.
#[derive(Clone, Copy)]
pub struct Plainly<'a> {
    pub heap: Global,
    pub listed: &'a Listed,
    pub shape: Shape,
    pub layers: &'a [Over],
}

// The ground of a refusal of the whole call.
fn whole(number: u8) -> Ground {
    Ground {
        number,
        layer: Layer::Watch,
        place: Place::Whole,
    }
}

fn at_reading(number: u8, head: u32, poll: u32) -> Ground {
    Ground {
        number,
        layer: Layer::Watch,
        place: Place::Reading { head, poll },
    }
}

impl<'a> Plainly<'a> {
    // The row of a poll, or the first head that is at fault.
    fn row<T: Plain>(&self, told: &Told<T>, part: Part, poll: u32) -> Result<Row, Ground> {
        let mut row = Row { steps: [0; HEADS] };
        for (head, (is_read, steps)) in self
            .shape
            .reads
            .iter()
            .zip(row.steps.iter_mut())
            .enumerate()
        {
            if *is_read {
                let head = head as u32;
                let reading = told
                    .reading(part, head, poll)
                    .ok_or(at_reading(11, head, poll))?;
                *steps = reading.steps().ok_or(at_reading(12, head, poll))?;
            }
        }
        Ok(row)
    }

    // The refusal of a step that is lent so many cells, or none, and then the rows have one more.
    fn step<T: Plain>(
        &self,
        rows: &mut Vec<Row>,
        lent: usize,
        told: &Told<T>,
        part: Part,
        poll: u32,
    ) -> Result<Option<Ground>, Failure> {
        if lent < self.shape.need {
            return Ok(Some(whole(8)));
        }
        match self.row(told, part, poll) {
            Err(ground) => Ok(Some(ground)),
            Ok(row) => {
                rows.push(row)?;
                Ok(None)
            }
        }
    }

    fn play<T: Plain>(
        &self,
        rows: &mut Vec<Row>,
        lent: usize,
        told: &Told<T>,
        part: Part,
        first: u32,
        last: u32,
    ) -> Result<Outcome, Failure> {
        let mut taken = 0u32;
        for poll in first..=last {
            let refused = self.step(rows, lent, told, part, poll)?;
            if refused.is_some() {
                return Ok(Outcome::Took {
                    rows: taken,
                    refused,
                });
            }
            taken = taken.saturating_add(1);
        }
        Ok(Outcome::Took {
            rows: taken,
            refused: None,
        })
    }

    fn ask(&self, rows: &[Row], lent: usize) -> Result<Outcome, Failure> {
        if lent < self.shape.need {
            return Ok(Outcome::Refused(whole(8)));
        }
        let looked_at = self.shape.horizon as usize + 1;
        let Some(poll) = rows.len().checked_sub(looked_at) else {
            let to_come = looked_at.saturating_sub(rows.len());
            let rows = u32::try_from(to_come).unwrap_or(u32::MAX);
            return Ok(Outcome::Asked(Answer::Waiting { rows }));
        };
        let seen = rows.get(poll..).unwrap_or(&[]);
        let margin = self.listed.margin(self.heap, self.layers, seen)?;
        let poll = u32::try_from(poll).unwrap_or(u32::MAX);
        Ok(Outcome::Asked(Answer::At { poll, margin }))
    }

    fn survey<T: Plain>(
        &self,
        lent: usize,
        told: &Told<T>,
        part: Part,
        poll: u32,
    ) -> Result<Outcome, Failure> {
        if lent < self.shape.need {
            return Ok(Outcome::Refused(whole(8)));
        }
        let last = poll as u64 + self.shape.horizon as u64;
        if last >= part.polls(told.polls) as u64 {
            return Ok(Outcome::Refused(whole(10)));
        }
        let mut rows = Vec::new(self.heap);
        for ahead in 0..=self.shape.horizon {
            match self.row(told, part, poll.saturating_add(ahead)) {
                Err(ground) => return Ok(Outcome::Refused(ground)),
                Ok(row) => rows.push(row)?,
            }
        }
        let margin = self.listed.margin(self.heap, self.layers, rows.as_slice())?;
        Ok(Outcome::Margin(margin))
    }

    // What a call is to answer, lent so many cells; the rows go on by it.
    pub fn outcome<T: Plain>(
        &self,
        rows: &mut Vec<Row>,
        lent: usize,
        told: &Told<T>,
        part: Part,
        call: Call,
    ) -> Result<Outcome, Failure> {
        match call {
            Call::Step { poll } => {
                let refused = self.step(rows, lent, told, part, poll)?;
                let rows = if refused.is_some() { 0 } else { 1 };
                Ok(Outcome::Took { rows, refused })
            }
            Call::Play { first, last } => self.play(rows, lent, told, part, first, last),
            Call::Ask => self.ask(rows.as_slice(), lent),
            Call::Clear => {
                rows.clear();
                Ok(Outcome::Cleared)
            }
            Call::Survey { poll } => self.survey(lent, told, part, poll),
        }
    }
}
