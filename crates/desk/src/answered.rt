// What a rule comes to at one poll, and who is told of it.
ghost use Rattle.std.specs.Prelude.{◌≡◌, ℕ, ◌+◌, ◌<◌, IfErr, OnOk, nat_lt, unsigned_abs};
ghost use Rattle.desk.specs.Tables.{verdict_text};
ghost use Rattle.desk.specs.Told.{IsOutside};
ghost use Rattle.desk.specs.declared.answered.Answered.{Answered};
ghost use Rattle.desk.specs.declared.trouble.Trouble.{Trouble};

use crate::trouble::Trouble;

// The answer of a rule at one poll that has all its rows.
#[derive(Clone, Copy, PartialEq, Eq, Debug)]
pub struct Answered {
    // The poll.
    pub poll: u32,
    // The rule's margin there, as a whole number of steps.
    pub margin: i32,
    // Whether its verdict there is yes. It is asked of the verdict's own scale, and not read off the margin's sign.
    pub yes: bool,
}

impl Answered {
    // Whether its margin is smaller in size than another's.
    pub(crate) fn is_nearer(self, other: Answered) -> bool
        ensures { result ≡ nat_lt (unsigned_abs self.margin) (unsigned_abs other.margin) }
    {
        self.margin.unsigned_abs() < other.margin.unsigned_abs()
    }
}

// The word for a verdict.
pub(crate) fn verdict_word(yes: bool) -> &'static str
    ensures { result.now ≡ verdict_text yes }
{
    if yes { "yes" } else { "no" }
}

// Who hears the answers of a rule, one after another.
pub trait Listener {
    // What it was has become what it is by hearing the first so many of the answers that a function gives by their polls.
    ghost heard: { Self → Self → ℕ → (ℕ → Answered) → Type 0 };

    // What may stop it.
    ghost stops: { Trouble → Type 0 };

    // Hears one answer more. It may fail for want of memory or of a place to write, and refuses none.
    fn hear(&mut self, answered: Answered) -> Result<(), Trouble>
        ensures outside { IfErr result IsOutside }
        ensures stops { IfErr result stops }
        ensures heard { OnOk result ((first : Self) (answers : ℕ → Answered) (n : ℕ) → n < 16777216 → answered ≡ answers n → heard first self.old n answers → heard first self.new (n + 1) answers) };
}
