// The layers that refuse.
ghost use Rattle.std.specs.Prelude.{Some};
ghost use Rattle.faults.specs.Texts.{layer_text};

use std::fmt;

// The part of the product that refuses a call.
#[derive(Clone, Copy, PartialEq, Eq, Debug)]
pub enum Layer {
    Rule,
    Record,
    Log,
    Watch,
    Sheet,
}

impl fmt::Display for Layer {
    ghost output = { λ layer. Some (layer_text layer) };

    fn fmt<W: fmt::Write>(&self, f: &mut fmt::Formatter<W>) -> fmt::Result {
        f.write_str(match *self {
            Layer::Rule => "rule",
            Layer::Record => "record",
            Layer::Log => "log",
            Layer::Watch => "watch",
            Layer::Sheet => "sheet",
        })
    }
}
