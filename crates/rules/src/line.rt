// A line of a rule: an entry, with what is told of the formula that ends there and of its operands.
use crate::node::Node;
use crate::span::Span;
use entries::Entry;

#[derive(Clone, Copy)]
pub struct Line {
    pub entry: Entry,
    pub span: Span,
    pub node: Node,
}

impl Line {
    // No entry, and no formula: its node is never asked for.
    pub const BLANK: Line = Line {
        entry: Entry::BLANK,
        span: Span {
            horizon: 0,
            size: 0,
        },
        node: Node::Not { of: 0 },
    };
}
