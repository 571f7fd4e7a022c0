// The limits of every record, and the numbers that keep them.
ghost use Rattle.std.specs.Prelude.{◌≡◌, ◌≤◌, ◌&&◌, nat_lt, IfOk};
ghost use Rattle.std.specs.Result.{result_err};
ghost use Rattle.records.specs.Limits.{numbers_fault};
ghost use Rattle.records.specs.Model.{most_heads, most_polls};

use crate::refusals::RecordFault;

// The most heads of a record. The specification says both limits itself (`most_heads`,
// `most_polls`), so that a constant changed here alone is refused.
pub const HEADS: u32 = 64;

// The most polls of a record.
pub const POLLS: u32 = 16_777_216;

// How many heads and polls a record has, where it may have them. Callers pass two numbers, which may be any.
#[derive(Clone, Copy)]
pub struct Size {
    pub heads: u32,
    pub polls: u32,
    ghost few_heads: { heads ≤ most_heads },
    ghost few_polls: { polls ≤ most_polls },
}

impl Size {
    // So many heads and polls, where a record may have them.
    pub fn new(heads: u32, polls: u32) -> Result<Size, RecordFault>
        ensures fault { result_err result ≡ numbers_fault heads polls }
        ensures heads { IfOk result (λ size. size.heads ≡ heads) }
        ensures polls { IfOk result (λ size. size.polls ≡ polls) }
    {
        if heads == 0 || heads > HEADS {
            return Err(RecordFault::HeadsOutOfRange { heads });
        }
        if polls > POLLS {
            return Err(RecordFault::TooManyPolls { polls });
        }
        Ok(Size { heads, polls })
    }

    // The size of the empty record.
    pub fn none() -> Size
        ensures heads { result.heads ≡ 0 }
        ensures polls { result.polls ≡ 0 }
    {
        Size { heads: 0, polls: 0 }
    }

    // Whether the head and the poll lie within.
    pub fn holds(self, head: u32, poll: u32) -> bool
        ensures { result ≡ (nat_lt head self.heads && nat_lt poll self.polls) }
    {
        head < self.heads && poll < self.polls
    }
}
