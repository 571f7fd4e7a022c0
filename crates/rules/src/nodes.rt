// The nodes of a rule's entries: made as its lines are, and kept there.
ghost use Rattle.std.specs.Prelude.{◌≡◌, ℕ, ◌<◌, ◌≤◌};
ghost use Rattle.std.specs.Option.{option_map};
ghost use Rattle.entries.specs.Operations.{model as operation_model};
ghost use Rattle.entries.specs.Writing.{InRange};
ghost use Rattle.rules.specs.Assemble.{newest};
ghost use Rattle.rules.specs.Lines.{Shows};
ghost use Rattle.rules.specs.Nodes.{model, node_by};
ghost use Rattle.rules.specs.Parts.{Part};
ghost use Rattle.rules.specs.Rules.{node_at};
ghost use Rattle.rules.specs.Spelling.{entries};

use crate::lines::Lines;
use crate::node::Node;
use crate::rule::Rule;
use crate::totals::width;
use entries::Operation;
use runs::rank;

// The operation at an entry, of which the formula before it is spelled by `below` entries.
fn node_by(op: Operation, at: usize, below: usize) -> Node
    requires { (heads : ℕ) × InRange heads (operation_model op) }
    ensures { model result ≡ node_by at below (operation_model op) }
{
    let right = at.saturating_sub(1);
    let left = right.saturating_sub(below);
    match op {
        Operation::HeadTest { head, test } => Node::HeadTest { head, test },
        Operation::ZoneTest { k, test } => Node::ZoneTest { k, test },
        Operation::Not => Node::Not { of: right },
        Operation::Either => Node::Either { left, right },
        Operation::Both => Node::Both { left, right },
        Operation::Window { first, last, share } => Node::Window {
            of: right,
            first,
            last,
            rank: rank(share, width(first, last) as u16),
        },
    }
}

impl Lines {
    // The node of the operation at the next entry.
    pub(crate) fn next_node(&self, op: Operation) -> Node
        requires { (heads : ℕ) × InRange heads (operation_model op) }
        ensures { Shows self.now (λ st. node_by self.now.count (entries (newest st)) (operation_model op)) (model result) }
    {
        let below = self.before(self.count).map_or(0, |span| span.size as usize);
        node_by(op, self.count, below)
    }
}

impl Rule {
    // The entry at a place, with those of its operands; none past the last.
    pub fn node(&self, at: usize) -> Option<Node>
        ensures value { option_map model result ≡ node_at self.now at }
        ensures part { at < self.now.lines.count → Part self.now at }
    {
        Some(self.lines.get(at)?.node)
    }
}
