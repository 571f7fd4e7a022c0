// How many calls of each outcome agreed.
use crate::failure::Failure;
use crate::plain_watches::Outcome;
use faults::Ground;
use watches::Answer;

#[derive(Clone, Copy)]
pub struct Tally {
    // Runs of calls.
    runs: u32,
    calls: u32,
    // Rows taken by steps and plays.
    rows: u32,
    // Margins that ask answered, and those of surveys.
    asked: u32,
    surveyed: u32,
    waiting: u32,
    // Refusals by 8, 10, 11 and 12.
    cells: u32,
    ends: u32,
    missing: u32,
    unlawful: u32,
}

fn add(count: &mut u32, more: u32) {
    *count = count.saturating_add(more);
}

impl Tally {
    pub const NONE: Tally = Tally {
        runs: 0,
        calls: 0,
        rows: 0,
        asked: 0,
        surveyed: 0,
        waiting: 0,
        cells: 0,
        ends: 0,
        missing: 0,
        unlawful: 0,
    };

    pub fn run(&mut self) {
        add(&mut self.runs, 1);
    }

    fn refusal(&mut self, ground: Ground) {
        match ground.number {
            8 => add(&mut self.cells, 1),
            10 => add(&mut self.ends, 1),
            11 => add(&mut self.missing, 1),
            _ => add(&mut self.unlawful, 1),
        }
    }

    pub fn count(&mut self, outcome: Outcome) {
        add(&mut self.calls, 1);
        match outcome {
            Outcome::Took { rows, refused } => {
                add(&mut self.rows, rows);
                if let Some(ground) = refused {
                    self.refusal(ground);
                }
            }
            Outcome::Asked(Answer::At { .. }) => add(&mut self.asked, 1),
            Outcome::Asked(Answer::Waiting { .. }) => add(&mut self.waiting, 1),
            Outcome::Margin(_) => add(&mut self.surveyed, 1),
            Outcome::Refused(ground) => self.refusal(ground),
            Outcome::Cleared => {}
        }
    }

    // A line with all of it.
    pub fn tell(&self, rt: &HostRuntime, name: &str) -> Result<(), Failure> {
        let Tally {
            runs,
            calls,
            rows,
            asked,
            surveyed,
            waiting,
            cells,
            ends,
            missing,
            unlawful,
        } = *self;
        print!(rt;
            "  {name}: {runs} runs, {calls} calls, {rows} rows; {asked} margins asked, {surveyed} surveyed, "
        )?;
        println!(rt;
            "{waiting} waiting; refused {cells} by 8, {ends} by 10, {missing} by 11, {unlawful} by 12"
        )?;
        Ok(())
    }
}
