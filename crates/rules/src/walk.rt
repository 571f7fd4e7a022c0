// The walk through a list of entries, each after the formulas that it takes.
ghost use Rattle.std.specs.Prelude.{◌≡◌, ◌+◌, ◌<◌, cond, List, length, IfOk, Ok, Err, MatchResult, nat_le, slice_index_or};
ghost use Rattle.formulas.specs.Formula.{Formula};
ghost use Rattle.entries.specs.Heads.{heads};
ghost use Rattle.entries.specs.Operations.{model};
ghost use Rattle.rules.specs.Assemble.{blank, step, stack, inside, outside};
ghost use Rattle.rules.specs.Lines.{listed, line_span, line_node, Shows, Told};
ghost use Rattle.rules.specs.Nodes.{noded};
ghost use Rattle.rules.specs.Spans.{spanned, more_left};
ghost use Rattle.rules.specs.declared.fault.RuleFault.TheVariants.{TooManyFormulas, HorizonTooFar};
ghost use Rattle.rules.specs.declared.sizes.TheConstants.{HORIZON};

use crate::draft::Draft;
use crate::fault::RuleFault;
use crate::line::Line;
use crate::lines::Lines;
use crate::sizes::HORIZON;
use crate::span::Span;
use entries::{Entry, HeadSet, Operation};

// The ground against a head test of a head outside the zone.
fn check_head(entry: usize, op: Operation, zone: HeadSet) -> Result<(), RuleFault>
    ensures { result ≡ inside entry (outside (heads zone.bits) (model op)) (Ok tt) }
{
    match op {
        Operation::HeadTest { head, .. } if !zone.contains(head) => {
            Err(RuleFault::HeadOutsideZone { entry, head })
        }
        _ => Ok(()),
    }
}

// The ground against a last entry that leaves more than the formula of this span.
fn check_alone(entry: usize, span: Span, count: usize) -> Result<(), RuleFault>
    requires { entry < count }
    ensures { result ≡ cond (more_left entry span.size count) (Err (TooManyFormulas entry)) (Ok tt) }
{
    if entry + 1 == count && span.size as usize != count {
        return Err(RuleFault::TooManyFormulas { entry });
    }
    Ok(())
}

// The ground against a formula that looks further than a rule may.
fn check_near(entry: usize, horizon: u32) -> Result<(), RuleFault>
    ensures { result ≡ cond (nat_le horizon HORIZON) (Ok tt) (Err (HorizonTooFar entry horizon)) }
{
    if horizon > HORIZON {
        return Err(RuleFault::HorizonTooFar { entry, horizon });
    }
    Ok(())
}

impl Lines {
    // The line of the next entry, or what is wrong with it.
    fn next_line(&self, entry: Entry, draft: &Draft) -> Result<Line, RuleFault>
        requires next { self.now.count < length draft.now.entries.now }
        requires same { entry ≡ slice_index_or draft.now.entries.now self.now.count blank }
        ensures span { Shows self.now (λ st. spanned (step (heads draft.now.zone.bits) draft.now.entries.now self.now.count st)) (line_span result) }
        ensures node { Shows self.now (λ st. noded self.now.count (step (heads draft.now.zone.bits) draft.now.entries.now self.now.count st)) (line_node result) }
        ensures entry { IfOk result (λ line. line.entry ≡ entry) }
    {
        let Draft { entries, zone } = *draft;
        let at = self.count;
        let op = entry
            .operation(zone.size())
            .ok_or(RuleFault::OutOfRange { entry: at })?;
        check_head(at, op, zone)?;
        let span = self
            .span_of(op)
            .ok_or(RuleFault::TooFewFormulas { entry: at })?;
        check_alone(at, span, entries.len())?;
        check_near(at, span.horizon)?;
        Ok(Line {
            entry,
            span,
            node: self.next_node(op),
        })
    }
}

impl Draft<'_> {
    // Writes the line of each entry, or tells the first fault. The lines are the caller's, since it takes longer to hand so many
    // on than to find them.
    pub(crate) fn walk(&self, lines: &mut Lines) -> Result<(), RuleFault>
        requires { lines.old.count ≡ 0 }
        ensures { MatchResult result
            (λ done. (listed lines.new ≡ self.now.entries.now) × ((st : List Formula) × (stack (heads self.now.zone.bits) self.now.entries.now (length self.now.entries.now) ≡ Ok st)) × Told (heads self.now.zone.bits) self.now.entries.now lines.new.rows (length self.now.entries.now))
            (λ f. stack (heads self.now.zone.bits) self.now.entries.now (length self.now.entries.now) ≡ Err f) }
    {
        for entry in self.entries {
            let line = lines.next_line(*entry, self)?;
            lines.push(line);
        }
        Ok(())
    }
}
