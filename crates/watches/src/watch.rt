// A watch of one rule on one scale.
ghost use Rattle.std.specs.Prelude.{◌≡◌};
ghost use Rattle.layout.specs.Shape.{shape};

use layout::Rows;
use rules::Rule;

mod calls;
mod playing;

// A watch, by the rows that it has taken. The margins that it works with lie in cells that the caller lends to each call.
#[derive(Drop)]
pub struct Watch<S> {
    rule: Rule,
    scale: S,
    rows: Rows,
    ghost fits: { rows.ring ≡ (shape rule).ring },
}
