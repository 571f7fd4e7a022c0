// Records as the definitions say them: every reading is looked for anew.
use crate::failure::Failure;
use crate::plain_scales::Plain;
use crate::random::Random;
use logs::LogEntry;
use std::alloc::Global;

// How the library is to hold a record.
#[derive(Clone, Copy, PartialEq, Eq, Debug)]
pub enum Form {
    Grid,
    Log,
    // A log with an index.
    Indexed,
}

// A record as it is told: a grid by its readings, a log by its entries and its standing reading.
#[derive(Debug, Drop)]
pub struct Told<T> {
    pub form: Form,
    pub heads: u32,
    pub polls: u32,
    pub readings: Vec<T>,
    pub entries: Vec<LogEntry>,
    pub standing: T,
}

// Some polls of a record: so many from one on.
#[derive(Clone, Copy, Debug)]
pub struct Cut {
    pub from: u32,
    pub count: u32,
}

// What of a record is passed to a call: all of it, an excerpt, or an excerpt of an excerpt.
#[derive(Clone, Copy, Debug)]
pub enum Part {
    Whole,
    Excerpt(Cut),
    Nested(Cut, Cut),
}

impl Cut {
    fn any(random: &mut Random, polls: u32) -> Cut {
        let from = random.word(polls.saturating_add(2));
        let count = match random.below(3) {
            0 => u32::MAX,
            _ => random.word(polls.saturating_add(2)),
        };
        Cut { from, count }
    }

    // How many of so many polls it has.
    fn polls(self, of: u32) -> u32 {
        of.saturating_sub(self.from).min(self.count)
    }
}

impl Part {
    pub fn any(random: &mut Random, polls: u32) -> Part {
        match random.below(10) {
            0 => Part::Excerpt(Cut::any(random, polls)),
            1 => Part::Nested(Cut::any(random, polls), Cut::any(random, polls)),
            _ => Part::Whole,
        }
    }

    // How many polls the part of a record of so many has.
    pub fn polls(self, of: u32) -> u32 {
        match self {
            Part::Whole => of,
            Part::Excerpt(cut) => cut.polls(of),
            Part::Nested(outer, inner) => inner.polls(outer.polls(of)),
        }
    }

    // The poll of the record at which the part begins.
    fn from(self) -> u32 {
        match self {
            Part::Whole => 0,
            Part::Excerpt(cut) => cut.from,
            Part::Nested(outer, inner) => outer.from.saturating_add(inner.from),
        }
    }
}

impl<T: Plain> Told<T> {
    // What the head's latest entry at or before a poll says, or the standing reading.
    fn logged(&self, head: u32, poll: u32) -> T {
        let mut reading = self.standing;
        for entry in self.entries.iter() {
            if entry.head == head && entry.poll <= poll {
                reading = T::from_word(entry.word);
            }
        }
        reading
    }

    // The reading of a head at a poll of a part, or none.
    pub fn reading(&self, part: Part, head: u32, poll: u32) -> Option<T> {
        if head >= self.heads || poll >= part.polls(self.polls) {
            return None;
        }
        let poll = poll.saturating_add(part.from());
        match self.form {
            Form::Grid => {
                let row = (poll as usize).saturating_mul(self.heads as usize);
                self.readings
                    .get(row.saturating_add(head as usize))
                    .copied()
            }
            Form::Log | Form::Indexed => Some(self.logged(head, poll)),
        }
    }
}

impl<T: Plain> Told<T> {
    // A grid of one head's readings.
    pub fn of_head(heap: Global, readings: &[T]) -> Result<Told<T>, Failure> {
        Ok(Told {
            form: Form::Grid,
            heads: 1,
            polls: u32::try_from(readings.len()).unwrap_or(0),
            readings: Vec::from_slice(heap, readings)?,
            entries: Vec::new(heap),
            standing: readings.first().copied().ok_or(Failure::Setting)?,
        })
    }
}

// One reading: once in so many times unlawful, else near a number of steps.
fn any_reading<T: Plain>(random: &mut Random, near: i64, wild: u64) -> T {
    if random.once_in(wild) {
        T::unlawful(random)
    } else {
        T::any(random, near)
    }
}

impl<T: Plain> Told<T> {
    // A grid of random readings.
    fn grid(
        heap: Global,
        random: &mut Random,
        near: i64,
        wild: u64,
        heads: u32,
        polls: u32,
    ) -> Result<Told<T>, Failure> {
        let mut readings = Vec::new(heap);
        for _ in 0..polls as u64 * heads as u64 {
            readings.push(any_reading(random, near, wild))?;
        }
        Ok(Told {
            form: Form::Grid,
            heads,
            polls,
            readings,
            entries: Vec::new(heap),
            standing: T::any(random, near),
        })
    }

    // A log of random entries: at each poll some heads change, in an order that begins anywhere.
    fn log(
        heap: Global,
        random: &mut Random,
        near: i64,
        wild: u64,
        heads: u32,
        polls: u32,
    ) -> Result<Told<T>, Failure> {
        let mut entries = Vec::new(heap);
        for poll in 0..polls {
            let first = random.word(heads);
            for head in (first..heads).chain(0..first) {
                if random.once_in(3) {
                    let word = any_reading::<T>(random, near, wild).word();
                    entries.push(LogEntry { poll, head, word })?;
                }
            }
        }
        Ok(Told {
            form: if random.once_in(2) {
                Form::Log
            } else {
                Form::Indexed
            },
            heads,
            polls,
            readings: Vec::new(heap),
            entries,
            standing: T::any(random, near),
        })
    }

    pub fn any(
        heap: Global,
        random: &mut Random,
        near: i64,
        heads: u32,
        polls: u32,
    ) -> Result<Told<T>, Failure> {
        let wild = random.one_of(&[20, 300, 5_000]).unwrap_or(300);
        if random.once_in(2) {
            Told::grid(heap, random, near, wild, heads, polls)
        } else {
            Told::log(heap, random, near, wild, heads, polls)
        }
    }
}
