// Excerpts: some polls of another record.
ghost use Rattle.std.specs.Prelude.{◌≡◌};
ghost use Rattle.records.specs.Excerpt.{excerpt_record};

use crate::readings::Record;

// The polls of a lower record from one poll on: `count` of them, or the fewer that are left.
#[derive(Clone, Copy)]
pub struct Excerpt<'a, R> {
    lower: &'a R,
    from: u32,
    count: u32,
}

impl<'a, R: Record> Excerpt<'a, R> {
    // The excerpt from a poll on. One that begins past the end has the heads and no polls.
    pub fn new(lower: &'a R, from: u32, count: u32) -> Excerpt<'a, R>
        ensures { excerpt_record (R.Record.model result.lower.now) result.from result.count ≡ excerpt_record (R.Record.model lower.now) from count }
    {
        Excerpt { lower, from, count }
    }
}

#[tactic(auto, unfolding(crate::specs::Excerpt::excerpt_record))]
impl<'a, R: Record> Record for Excerpt<'a, R> {
    type Reading = R::Reading;

    ghost model = { λ e. excerpt_record (R.Record.model e.lower.now) e.from e.count };

    fn heads(&self) -> u32 {
        self.lower.heads()
    }

    fn polls(&self) -> u32 {
        self.lower.polls().saturating_sub(self.from).min(self.count)
    }

    fn reading(&self, head: u32, poll: u32) -> Option<R::Reading> {
        if poll >= self.polls() {
            return None;
        }
        self.lower.reading(head, self.from + poll)
    }
}
