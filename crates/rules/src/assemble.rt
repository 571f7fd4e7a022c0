// A rule from a caller's entries.
ghost use Rattle.std.specs.Prelude.{◌≡◌, List, length, IfOk, Ok, Err, MatchResult};
ghost use Rattle.formulas.specs.Formula.{Formula};
ghost use Rattle.entries.specs.Heads.{heads as heads_of};
ghost use Rattle.rules.specs.Assemble.{assemble, stack, fair};
ghost use Rattle.rules.specs.Assembled.{Assembled};
ghost use Rattle.rules.specs.Lines.{listed as lines_listed, Told};
ghost use Rattle.rules.specs.Rules.{listed, made};

use crate::draft::Draft;
use crate::fault::RuleFault;
use crate::lines::Lines;
use crate::rule::Rule;
use crate::sizes::{ENTRIES, ZONE_HEADS};
use crate::totals::{cells, test_cells};
use entries::{Entry, HeadSet};

// Whether there is at least one, and at most so many.
fn fair(count: usize, most: usize) -> bool
    ensures { result ≡ fair count most }
{
    (1..=most).contains(&count)
}

impl<'a> Draft<'a> {
    // The entries in the zone, or the ground against the number of either.
    fn new(entries: &'a [Entry], zone: HeadSet) -> Result<Draft<'a>, RuleFault>
        ensures { MatchResult result
            (λ d. (d.entries.now ≡ entries.now) × (d.zone ≡ zone))
            (λ f. assemble (heads_of zone.bits) entries.now ≡ Err f) }
    {
        let count = entries.len();
        if !fair(count, ENTRIES) {
            return Err(RuleFault::EntryCount { count });
        }
        let heads = zone.size();
        if !fair(heads, ZONE_HEADS) {
            return Err(RuleFault::ZoneHeadCount { count: heads });
        }
        Ok(Draft { entries, zone })
    }

    // The rule, of the lines that the walk found.
    fn rule(&self, lines: Lines) -> Rule
        requires same { lines_listed lines ≡ self.now.entries.now }
        requires left { (st : List Formula) × (stack (heads_of self.now.zone.bits) self.now.entries.now (length self.now.entries.now) ≡ Ok st) }
        requires told { Told (heads_of self.now.zone.bits) self.now.entries.now lines.rows (length self.now.entries.now) }
        ensures entries { listed result ≡ self.now.entries.now }
        ensures zone { result.zone ≡ self.now.zone }
    {
        let count = self.entries.len();
        let tests_zone = self.any_zone_test();
        let tests = test_cells(tests_zone, self.zone);
        let horizon = lines.rows[count - 1].span.horizon;
        Rule {
            lines,
            zone: self.zone,
            reads: self.heads_read(),
            tests_zone,
            need: cells(count, horizon, self.widths(), tests),
        }
    }
}

impl Rule {
    // The rule of the entries in the zone, or the first ground against it. The list is walked in order, each entry after
    // the formulas that it takes.
    pub fn new(entries: &[Entry], zone: HeadSet) -> Result<Rule, RuleFault>
        ensures value { made result ≡ assemble (heads_of zone.bits) entries.now }
        ensures kept { IfOk result (λ rule. (listed rule ≡ entries.now) × (rule.zone ≡ zone)) }
        ensures exactly { Assembled (heads_of zone.bits) entries.now }
    {
        let draft = Draft::new(entries, zone)?;
        let mut lines = Lines::empty();
        draft.walk(&mut lines)?;
        Ok(draft.rule(lines))
    }
}
