// What is asked of a rule, each in one step.
ghost use Rattle.std.specs.Prelude.{◌≡◌, ℕ, ◌≤◌, length};
ghost use Rattle.formulas.specs.Formula.{among, horizon as horizon_of, reads as reads_head};
ghost use Rattle.entries.specs.Heads.{heads};
ghost use Rattle.rules.specs.Needs.{need as need_of, zone_tested};
ghost use Rattle.rules.specs.Parts.{Whole};
ghost use Rattle.rules.specs.Rules.{listed, zone as zone_of, formula, horizon_at};

use crate::rule::Rule;
use entries::HeadSet;

impl Rule {
    // How many entries it has.
    pub fn len(&self) -> usize
        ensures value { result ≡ length (listed self.now) }
        ensures whole { Whole self.now }
    {
        self.lines.count
    }

    // Its zone.
    pub fn zone(&self) -> HeadSet
        ensures { result ≡ self.now.zone }
    {
        self.zone
    }

    // How many polls past its own it looks.
    pub fn horizon(&self) -> u32
        ensures value { result ≡ horizon_of (formula self.now) }
        ensures near { result ≤ 4095 }
    {
        self.lines.rows[self.len() - 1].span.horizon
    }

    // How many polls past its own the formula of an entry looks; none past the last entry.
    pub fn horizon_at(&self, at: usize) -> Option<u32>
        ensures { result ≡ horizon_at self.now at }
    {
        Some(self.lines.get(at)?.span.horizon)
    }

    // The heads that it reads: those of its head tests, and all of its zone if it has a zone test.
    pub fn reads(&self) -> HeadSet
        ensures { (h : ℕ) → among h (heads result.bits) ≡ reads_head (zone_of self.now) (formula self.now) h }
    {
        self.reads
    }

    // Whether it has a zone test.
    pub fn has_zone_test(&self) -> bool
        ensures { result ≡ zone_tested (formula self.now) }
    {
        self.tests_zone
    }

    // How many cells a watch of it needs.
    pub fn need(&self) -> usize
        ensures { result ≡ need_of (zone_of self.now) (formula self.now) }
    {
        self.need
    }
}
