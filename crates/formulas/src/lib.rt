// Formulas over the readings of a zone's heads: what they mean, and what a margin says of readings that are not quite true.
#![tactic(auto)]

ghost use Rattle.std.specs.Prelude.{ℕ, List, ℤ};
ghost use Rattle.formulas.specs.Formula.{Formula};
ghost use Rattle.formulas.specs.Margin.{Formed};
ghost use Rattle.formulas.specs.Meaning.{Meaning};

// For every mark, zone and formed formula: the margin is the greatest by which the formula holds, the verdict says whether
// it holds, and both look only at the heads read and at the polls up to the horizon. It does nothing; its contract is the
// theorem.
pub fn formulas_mean_what_the_logic_says()
    ensures { (mark : ℤ → ℤ) (zone : List ℕ) (φ : Formula) → Formed zone φ → Meaning mark zone φ }
{}
