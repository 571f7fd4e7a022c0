// Saying on standard error how far the work is.
use desk::Progress;
use std::time::{Duration, Instant};

// How many polls lie between two looks at the clock.
const POLLS: u32 = 4_096;

// Says about once a second at which poll of which rule the work is.
#[derive(Drop)]
pub struct Clock<'a> {
    rt: &'a HostRuntime,
    polls: u32,
    rule: u16,
    done: u32,
    said: Option<Instant>,
}

impl<'a> Clock<'a> {
    // The work begins, on a record of so many polls.
    pub fn start(rt: &'a HostRuntime, polls: u32) -> Clock<'a> {
        Clock {
            rt,
            polls,
            rule: 0,
            done: 0,
            said: Instant::now(rt).ok(),
        }
    }

    // Whether a second has passed since something was said.
    fn is_time(&self) -> bool {
        let Some(said) = self.said else {
            return false;
        };
        match said.elapsed(self.rt) {
            Ok(passed) => passed >= Duration::from_secs(1),
            Err(_) => false,
        }
    }
}

impl Progress for Clock<'_> {
    fn begin(&mut self, rule_number: u16) {
        self.rule = rule_number;
    }

    fn tell(&mut self, polls: u32) {
        self.done = self.done.wrapping_add(1);
        if self.done % POLLS != 0 || !self.is_time() {
            return;
        }
        let rule = self.rule;
        let all = self.polls;
        let _ = eprintln!(self.rt; "soak: rule {rule}, poll {polls} of {all}");
        self.said = Instant::now(self.rt).ok();
    }
}
