// The margins of a sheet's rules over a soak.
ghost use Rattle.std.specs.Prelude.{◌≡◌, ◌==◌, cond, Err, IsErrOf, IsTrue, Ok};
ghost use Rattle.soak.specs.Jobs.{is_over_input};
ghost use Rattle.soak.specs.declared.failure.Failure.TheVariants.{OtherCard, PictureOverInput};

use crate::command::{Job, ScaleName, Task};
use crate::failure::Failure;
use crate::files;
use crate::progress::Clock;
use crate::site::Site;
use desk::{Measured, Soak};
use logs::{Log, LogEntry, Word};
use records::{Grid, Record};
use scales::{Counts, Obscuration};
use std::fs;
use texts::{Written, WrittenReading, is_log, read_grid, read_log};

// The most bytes of a file of readings.
const FILE_BYTES: usize = 1 << 32;

// A job with its files read.
#[derive(Drop)]
struct Work<'a> {
    rt: &'a HostRuntime,
    site: Site,
    text: &'a [u8],
    task: Task<'a>,
}

// Reads the files of a job, and writes what it asks for.
pub fn run(rt: &HostRuntime, job: Job<'_>) -> Result<(), Failure>
    ensures { IsTrue (is_over_input job.entry) → IsErrOf result PictureOverInput }
{
    if let Task::Plot { picture, .. } = job.task
        && (picture == job.sheet || picture == job.readings)
    {
        return Err(Failure::PictureOverInput);
    }
    let site = Site::read(rt, job.sheet)?;
    let text = files::read(rt, job.readings, FILE_BYTES)?;
    let work = Work {
        rt,
        site,
        text: text.as_slice(),
        task: job.task,
    };
    match job.scale {
        ScaleName::Counts => work.read(Counts),
        ScaleName::Obscuration => work.read(Obscuration),
    }
}

impl Work<'_> {
    // Reads the record that the text spells, on a scale, and writes what is asked for of it.
    fn read<S: Measured + Copy>(&self, scale: S) -> Result<(), Failure>
    where
        S::Reading: WrittenReading,
    {
        if is_log(self.text) {
            return self.read_log(scale);
        }
        let grid = read_grid::<S::Reading>(self.rt.alloc(), self.text)?;
        self.check_heads(grid.heads)?;
        let record = Grid::new(grid.heads, grid.polls, grid.readings.as_slice());
        self.write(scale, &record)
    }

    // The same of a log.
    fn read_log<S: Measured + Copy>(&self, scale: S) -> Result<(), Failure>
    where
        S::Reading: WrittenReading,
    {
        let log = read_log::<S::Reading>(self.rt.alloc(), self.text)?;
        self.check_heads(log.heads)?;
        let entries = log.entries.as_slice();
        Log::<S::Reading>::check(log.heads, log.polls, entries)?;
        let marks = Log::<S::Reading>::marks_for(log.heads, entries.len());
        let mut index = vec![in self.rt.alloc(); 0usize; marks].map_err(|_| Failure::Memory)?;
        let record = Log::indexed(
            log.heads,
            log.polls,
            entries,
            log.standing,
            index.as_mut_slice(),
        );
        self.write(scale, &record)
    }

    // The readings must be of a card with as many heads as the sheet's.
    fn check_heads(&self, heads: u32) -> Result<(), Failure>
        ensures { result ≡ cond (heads == self.now.site.heads) (Ok tt) (Err (OtherCard heads self.now.site.heads)) }
    {
        let card = u32::from(self.site.heads);
        if heads != card {
            return Err(Failure::OtherCard { heads, card });
        }
        Ok(())
    }

    // What is asked for of the record.
    fn write<S: Measured + Copy, R: Record<Reading = S::Reading>>(
        &self,
        scale: S,
        record: &R,
    ) -> Result<(), Failure> {
        let soak = Soak {
            heap: self.rt.alloc(),
            scale,
            record,
        };
        let mut progress = Clock::start(self.rt, record.polls());
        let mut text = String::new(self.rt.alloc());
        match self.task {
            Task::Report => {
                let done = soak.report(self.site.rules(), &mut text, &mut progress);
                print!(self.rt; "{text}")?;
                Ok(done?)
            }
            Task::Margins { rule } => {
                soak.margins(&self.site.rule(rule)?, &mut text, &mut progress)?;
                print!(self.rt; "{text}")?;
                Ok(())
            }
            Task::Plot { rule, picture } => {
                soak.plot(&self.site.rule(rule)?, &mut text, &mut progress)?;
                files::write(self.rt, picture, text.as_str())
            }
        }
    }
}
