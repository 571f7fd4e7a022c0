// A rule: its number, and one formula.
ghost use Rattle.std.specs.Prelude.{◌≡◌, ℕ, ◌<◌, List, length, map, OnOk, IfOk};
ghost use Rattle.entries.specs.Heads.{heads};
ghost use Rattle.sheets.specs.Layout.{stretch};
ghost use Rattle.sheets.specs.Outlines.{SheetZone, SheetRule};
ghost use Rattle.sheets.specs.Parts.{rule as rule_of, rule_number, rule_formula};
ghost use Rattle.sheets.specs.declared.sizes.TheConstants.{RULES};
ghost use Rattle.sheets.specs.Standing.{Meets, Adds, Fills, InZone};
ghost use Rattle.rules.specs.Rules.{formula, zone as zone_heads};

use crate::draft::Draft;
use crate::fault::SheetFault;
use crate::reader::Reader;
use crate::stretch::Stretch;
use crate::zone::Zone;
use entries::HeadSet;
use rules::{Rule, RulePlace};

// The kind of a rule's record.
const RULE: u16 = 4;

// The rule of the one formula that fills the stretch, in a zone of heads.
fn whole_rule(holder: Stretch<'_>, zone: HeadSet, at: usize) -> Result<Rule, SheetFault>
    ensures value { Meets formula (rule_formula at (heads zone.bits) (stretch holder.entry)) result }
    ensures zone { IfOk result (λ rule. zone_heads rule ≡ heads zone.bits) }
{
    let mut draft = Draft::new();
    draft.formula(holder)?.end(at)?;
    Rule::new(draft.entries.as_slice(), zone).map_err(|fault| SheetFault::Rule { at, fault })
}

impl Reader {
    // The ground against a rule's number: an earlier rule has it, or there is no room for one more rule.
    fn check_rule(&self, number: u16, at: usize) -> Result<(), SheetFault>
        ensures value { (rs : List SheetRule) → map (λ p. p.rule_number) self.now.rules.items ≡ map (λ r. r.number) rs → result ≡ rule_number at number rs }
        ensures room { OnOk result (length self.now.rules.items < RULES) }
    {
        let earlier = self.rules.as_slice();
        if earlier.iter().any(|rule| rule.rule_number == number) {
            return Err(SheetFault::RuleNumberTwice { at, number });
        }
        if self.rules.is_full() {
            return Err(SheetFault::TooManyRules { at });
        }
        Ok(())
    }

    // The rule that begins the stretch; what stands behind it is handed back.
    pub(crate) fn rule<'a>(
        &mut self,
        zone: Zone,
        holder: Stretch<'a>,
    ) -> Result<Stretch<'a>, SheetFault>
        ensures value { (total groups : ℕ) (before : List SheetZone) → Adds (InZone total groups before zone) (rule_of before) (stretch holder.entry) self.old self.new result }
        ensures shorter { IfOk result (λ left. length left.bytes.now < length holder.entry.bytes.now) }
    {
        let (piece, behind) = holder.split()?;
        let at = piece.at;
        let (number, inside) = piece.of_kind(RULE)?.fields::<2>()?;
        let number = u16::from_le_bytes(number);
        self.check_rule(number, at)?;
        let rule = whole_rule(inside, zone.heads, at)?;
        self.rules.push(RulePlace::new(&rule, number, zone.number));
        Ok(behind)
    }

    // Rules to the end of the stretch.
    pub(crate) fn rules(&mut self, zone: Zone, holder: Stretch<'_>) -> Result<(), SheetFault>
        ensures { (total groups : ℕ) (before : List SheetZone) → Fills (InZone total groups before zone) (rule_of before) (stretch holder.entry) self.old self.new result }
    {
        let mut left = holder;
        while !left.is_empty() {
            left = self.rule(zone, left)?;
        }
        Ok(())
    }
}
