// What a step asks of a rule.
ghost use Rattle.std.specs.Prelude.{◌≡◌};
ghost use Rattle.layout.specs.Shape.{shape};

use rules::Rule;

// The margins that each entry keeps: one for every poll that the rule looks at.
pub(crate) fn ring_size(rule: &Rule) -> u32
    ensures { result ≡ (shape rule.now).ring }
{
    rule.horizon() + 1
}
