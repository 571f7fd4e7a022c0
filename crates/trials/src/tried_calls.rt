// Runs of calls of the library, beside the second evaluator.
use crate::failure::Failure;
use crate::plain_records::{Part, Told};
use crate::plain_rules::Row;
use crate::plain_scales::{Plain, Whole};
use crate::plain_watches::{Call, Outcome, Plainly};
use crate::random::Random;
use crate::tally::Tally;
use faults::Fault;
use records::{Excerpt, Record};
use rules::Rule;
use scales::{Limit, Scale, Sense, Test};
use std::alloc::Global;
use watches::{Answer, Play, Watch, WatchFault, survey};

// A call with what it is passed: the front of the cells that it is lent, and the part of the record.
#[derive(Clone, Copy, Debug)]
struct Passed {
    call: Call,
    lent: usize,
    part: Part,
}

// A rule on a scale: as the library has them, and as the definitions see them.
#[derive(Clone, Copy)]
pub struct Bench<'a, S> {
    pub rule: Rule,
    pub scale: S,
    pub plainly: Plainly<'a>,
}

// What a watch works in, and what a survey works in, which is never the same.
#[derive(Drop)]
struct Cells<M> {
    watch: Vec<M>,
    survey: Vec<M>,
}

fn took(answer: Result<(), WatchFault>) -> Outcome {
    match answer {
        Ok(()) => Outcome::Took {
            rows: 1,
            refused: None,
        },
        Err(fault) => Outcome::Took {
            rows: 0,
            refused: Some(fault.ground()),
        },
    }
}

fn played(play: Play) -> Outcome {
    Outcome::Took {
        rows: play.rows,
        refused: play.fault.map(|fault| fault.ground()),
    }
}

fn surveyed<M: Whole>(answer: Result<M, WatchFault>) -> Outcome {
    match answer {
        Ok(margin) => Outcome::Margin(margin.whole()),
        Err(fault) => Outcome::Refused(fault.ground()),
    }
}

fn asked<M: Whole>(answer: Result<Answer<M>, WatchFault>) -> Outcome {
    match answer {
        Ok(Answer::Waiting { rows }) => Outcome::Asked(Answer::Waiting { rows }),
        Ok(Answer::At { poll, margin }) => Outcome::Asked(Answer::At {
            poll,
            margin: margin.whole(),
        }),
        Err(fault) => Outcome::Refused(fault.ground()),
    }
}

// The whole numbers that cells hold.
fn wholes<M: Whole>(heap: Global, cells: &[M]) -> Result<Vec<i64>, Failure> {
    let mut numbers = Vec::new(heap);
    for cell in cells {
        numbers.push(cell.whole())?;
    }
    Ok(numbers)
}

// Whether cells hold the same as before, from one place on.
fn stay<M: Whole>(before: &[i64], cells: &[M], from: usize) -> bool {
    before.len() == cells.len()
        && before
            .iter()
            .zip(cells.iter())
            .skip(from)
            .all(|(number, cell)| *number == cell.whole())
}

impl<'a, S: Scale + Copy> Bench<'a, S>
where
    S::Reading: Plain,
    S::Margin: Whole,
{
    // A few more cells than the rule needs, which hold anything.
    fn cells(&self, random: &mut Random) -> Result<Vec<S::Margin>, Failure> {
        let mut cells = Vec::new(self.plainly.heap);
        for _ in 0..self.plainly.shape.need.saturating_add(3) {
            let limit = i32::try_from(random.between(-30, 30)).unwrap_or(0);
            let test = Test {
                sense: Sense::AtLeast,
                limit: Limit::new(limit).ok_or(Failure::Setting)?,
            };
            let reading = S::Reading::any(random, 20);
            cells.push(self.scale.test(reading, test).ok_or(Failure::Setting)?)?;
        }
        Ok(cells)
    }

    // What a call answers over a record.
    fn answer<R: Record<Reading = S::Reading>>(
        &self,
        watch: &mut Watch<S>,
        cells: &mut Cells<S::Margin>,
        record: &R,
        passed: Passed,
    ) -> Outcome {
        let lent = passed.lent;
        let front = cells
            .watch
            .as_mut_slice()
            .get_mut(..lent)
            .unwrap_or(&mut []);
        match passed.call {
            Call::Step { poll } => took(watch.step(front, record, poll)),
            Call::Play { first, last } => played(watch.play(front, record, first, last)),
            Call::Ask => asked(watch.ask(front)),
            Call::Clear => {
                watch.clear();
                Outcome::Cleared
            }
            Call::Survey { poll } => {
                let own = cells
                    .survey
                    .as_mut_slice()
                    .get_mut(..lent)
                    .unwrap_or(&mut []);
                surveyed(survey(&self.rule, &self.scale, own, record, poll))
            }
        }
    }

    // What a call answers over a part of a record.
    fn answer_over<R: Record<Reading = S::Reading>>(
        &self,
        watch: &mut Watch<S>,
        cells: &mut Cells<S::Margin>,
        record: &R,
        passed: Passed,
    ) -> Outcome {
        match passed.part {
            Part::Whole => self.answer(watch, cells, record, passed),
            Part::Excerpt(cut) => {
                let excerpt = Excerpt::new(record, cut.from, cut.count);
                self.answer(watch, cells, &excerpt, passed)
            }
            Part::Nested(outer, inner) => {
                let lower = Excerpt::new(record, outer.from, outer.count);
                let excerpt = Excerpt::new(&lower, inner.from, inner.count);
                self.answer(watch, cells, &excerpt, passed)
            }
        }
    }

    // A random call: plays come often, since a rule waits for all the rows that it looks at.
    fn any_call(&self, random: &mut Random, polls: u32) -> Passed {
        let poll = if random.once_in(60) {
            u32::MAX
        } else {
            random.word(polls.saturating_add(1))
        };
        let call = match random.below(12) {
            0..=3 => Call::Step { poll },
            4..=6 => Call::Play {
                first: poll,
                last: match random.below(3) {
                    0 => random.word(polls.saturating_add(3)),
                    1 => poll.saturating_add(self.plainly.shape.horizon),
                    _ => poll.saturating_add(random.word(6)),
                },
            },
            7..=8 => Call::Ask,
            9 if random.once_in(3) => Call::Clear,
            _ => Call::Survey { poll },
        };
        let need = self.plainly.shape.need;
        let lent = match random.below(25) {
            0 => need.saturating_sub(1),
            1 => random.place(need),
            _ => need.saturating_add(random.place(4)),
        };
        let part = Part::any(random, polls);
        Passed { call, lent, part }
    }

    // Whether the cells that a call may not change are as before: all of them where it is refused whole.
    fn kept(
        &self,
        before: &Cells<i64>,
        cells: &Cells<S::Margin>,
        call: Call,
        found: Outcome,
    ) -> bool {
        let need = self.plainly.shape.need;
        let changes = match found {
            Outcome::Took { rows, .. } => rows > 0,
            Outcome::Margin(_) => true,
            Outcome::Asked(_) | Outcome::Refused(_) | Outcome::Cleared => false,
        };
        let from = if changes { need } else { 0 };
        let (watch, survey) = match call {
            Call::Survey { .. } => (0, from),
            _ => (from, 0),
        };
        stay(before.watch.as_slice(), cells.watch.as_slice(), watch)
            && stay(before.survey.as_slice(), cells.survey.as_slice(), survey)
    }

    // Tells a disagreement in full.
    fn tell(
        &self,
        rt: &HostRuntime,
        told: &Told<S::Reading>,
        calls: &[Passed],
        expected: Outcome,
        found: Outcome,
    ) -> Result<(), Failure> {
        let listed = self.plainly.listed;
        let layers = self.plainly.layers;
        println!(rt; "A call does not answer as the definitions say.")?;
        println!(rt; "  the rule: {listed:?}")?;
        println!(rt; "  over its lowest scale lie: {layers:?}")?;
        println!(rt; "  the record: {told:?}")?;
        println!(rt; "  the calls, of which the last is at fault: {calls:?}")?;
        println!(rt; "  expected: {expected:?}")?;
        println!(rt; "  found: {found:?}")?;
        println!(rt; "Where the two are equal, cells were changed that were to stay.")?;
        Ok(())
    }

    // What a survey at a poll is to answer, and what it answers.
    pub fn surveyed<R: Record<Reading = S::Reading>>(
        &self,
        random: &mut Random,
        told: &Told<S::Reading>,
        record: &R,
        poll: u32,
    ) -> Result<(Outcome, Outcome), Failure> {
        let heap = self.plainly.heap;
        let passed = Passed {
            call: Call::Survey { poll },
            lent: self.plainly.shape.need,
            part: Part::Whole,
        };
        let Passed { call, lent, part } = passed;
        let mut watch = Watch::new(self.rule, self.scale);
        let mut cells = Cells {
            watch: Vec::new(heap),
            survey: self.cells(random)?,
        };
        let mut rows: Vec<Row> = Vec::new(heap);
        let expected = self.plainly.outcome(&mut rows, lent, told, part, call)?;
        let found = self.answer_over(&mut watch, &mut cells, record, passed);
        Ok((expected, found))
    }

    // A run of so many calls over a record.
    pub fn run<R: Record<Reading = S::Reading>>(
        &self,
        rt: &HostRuntime,
        random: &mut Random,
        told: &Told<S::Reading>,
        record: &R,
        tally: &mut Tally,
    ) -> Result<(), Failure> {
        let heap = self.plainly.heap;
        let mut watch = Watch::new(self.rule, self.scale);
        let mut cells = Cells {
            watch: self.cells(random)?,
            survey: self.cells(random)?,
        };
        let mut rows: Vec<Row> = Vec::new(heap);
        let mut calls: Vec<Passed> = Vec::new(heap);
        for _ in 0..random.between(4, 30) {
            let passed = self.any_call(random, told.polls);
            calls.push(passed)?;
            let Passed { call, lent, part } = passed;
            let expected = self.plainly.outcome(&mut rows, lent, told, part, call)?;
            let before = Cells {
                watch: wholes(heap, cells.watch.as_slice())?,
                survey: wholes(heap, cells.survey.as_slice())?,
            };
            let found = self.answer_over(&mut watch, &mut cells, record, passed);
            if found != expected || !self.kept(&before, &cells, call, found) {
                self.tell(rt, told, calls.as_slice(), expected, found)?;
                return Err(Failure::Disagreement);
            }
            tally.count(found);
        }
        Ok(())
    }
}
