// The span of what an operation makes of the formulas before it.
ghost use Rattle.entries.specs.Operations.{model};
ghost use Rattle.rules.specs.Assemble.{built};
ghost use Rattle.rules.specs.Lines.{Shows};
ghost use Rattle.rules.specs.Spans.{newest_span, over_one, over_two};

use crate::lines::Lines;
use crate::span::Span;
use entries::Operation;

impl Lines {
    // Over the newest formula, looking `further`; none where there is none.
    fn over_one(&self, further: u16) -> Option<Span>
        ensures { Shows self.now (over_one further) result }
    {
        let below = self.before(self.count)?;
        Some(Span {
            horizon: further as u32 + below.horizon,
            size: below.size + 1,
        })
    }

    // Over the two newest; none where there are fewer.
    fn over_two(&self) -> Option<Span>
        ensures { Shows self.now over_two result }
    {
        let right = self.before(self.count)?;
        let left = self.before(self.count - right.size as usize)?;
        Some(Span {
            horizon: left.horizon.max(right.horizon),
            size: left.size + right.size + 1,
        })
    }

    // The span of the operation's formula; none where it takes more formulas than are left.
    pub(crate) fn span_of(&self, op: Operation) -> Option<Span>
        ensures { Shows self.now (λ st. newest_span (built (model op) st)) result }
    {
        match op {
            Operation::HeadTest { .. } | Operation::ZoneTest { .. } => Some(Span {
                horizon: 0,
                size: 1,
            }),
            Operation::Not => self.over_one(0),
            Operation::Window { last, .. } => self.over_one(last),
            Operation::Either | Operation::Both => self.over_two(),
        }
    }
}
