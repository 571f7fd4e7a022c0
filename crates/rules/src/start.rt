// The starting rule, and the rules of places.
ghost use Rattle.std.specs.Prelude.{◌≡◌, [], ◌∷◌};
ghost use Rattle.rules.specs.Assemble.{starting as starting_formula};
ghost use Rattle.rules.specs.Places.{means, place_means, held, start_entry, Fresh, Numbered};
ghost use Rattle.rules.specs.Rules.{listed};

use crate::place::RulePlace;
use crate::rule::Rule;
use crate::sizes::ENTRIES;
use entries::{Entry, HeadSet, Kind};

// Head 0 at least 0.
const START: Entry = Entry {
    kind: Kind::HeadTest as u8,
    ..Entry::BLANK
};

impl Rule {
    // The starting rule: head 0 at least 0, in a zone of head 0.
    pub fn starting() -> Rule
        ensures { means result ≡ (starting_formula, 0 ∷ []) }
    {
        Rule::new(&[START], HeadSet::starting()).unwrap()
    }
}

impl RulePlace {
    // A fresh place: it holds the starting rule, under the numbers 0.
    pub fn fresh() -> RulePlace
        ensures rule { place_means result ≡ (starting_formula, 0 ∷ []) }
        ensures entries { held result ≡ start_entry ∷ [] }
        ensures numbers { Numbered result 0 0 }
    {
        let mut entries = [Entry::BLANK; ENTRIES];
        entries[0] = START;
        RulePlace {
            entries,
            count: 1,
            zone: HeadSet::starting(),
            rule_number: 0,
            zone_number: 0,
        }
    }

    // A place that holds a rule, with the rule's number and its zone's.
    pub fn new(rule: &Rule, rule_number: u16, zone_number: u16) -> RulePlace
        ensures rule { place_means result ≡ means rule.now }
        ensures entries { held result ≡ listed rule.now }
        ensures numbers { Numbered result rule_number zone_number }
    {
        RulePlace {
            entries: rule.lines.entries(),
            count: rule.len() as u8,
            zone: rule.zone,
            rule_number,
            zone_number,
        }
    }

    // The rule made of what the row holds, or the starting rule where a ground refuses that.
    pub fn rule(&self) -> Rule
        ensures { means result ≡ place_means self.now }
    {
        let entries = self.entries.get(..self.count as usize).unwrap_or(&[]);
        Rule::new(entries, self.zone).unwrap_or_else(|_| Rule::starting())
    }
}

impl Default for RulePlace {
    ghost is_default = { Fresh };

    fn default() -> RulePlace {
        RulePlace::fresh()
    }
}
