// The scale of verdicts, yes and no, over another scale.
ghost use Rattle.std.specs.Prelude.{◌≡◌, Some};
ghost use Rattle.scales.specs.Texts.{verdict_text};

use std::fmt;

mod scaling;

// Verdicts over a lower scale, whose steps they keep. A rule's verdict is its margin on this scale; it is never taken
// from a margin of the lower one, since the complement of a margin of nought holds again.
#[derive(Clone, Copy)]
pub struct Verdict<S> {
    lower: S,
}

impl<S> Verdict<S> {
    // The verdicts over a scale.
    pub fn over(lower: S) -> Verdict<S>
        ensures { result.lower ≡ lower }
    {
        Verdict { lower }
    }
}

// A verdict as a margin: yes stands for +1, no for -1.
#[derive(Clone, Copy, PartialEq, Eq, Debug)]
pub enum VerdictMargin {
    Yes,
    No,
}

impl fmt::Display for VerdictMargin {
    ghost output = { λ margin. Some (verdict_text margin) };

    fn fmt<W: fmt::Write>(&self, f: &mut fmt::Formatter<W>) -> fmt::Result {
        f.write_str(match *self {
            VerdictMargin::Yes => "yes",
            VerdictMargin::No => "no",
        })
    }
}
