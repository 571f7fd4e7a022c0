// Formulas, each a record that holds the formulas it takes.
ghost use Rattle.std.specs.Prelude.{◌≡◌, ℕ, ◌+◌, ◌<◌, ◌≤◌, [], length, IfOk, OnOk};
ghost use Rattle.rules.specs.declared.sizes.TheConstants.{ENTRIES};
ghost use Rattle.sheets.specs.Formulas.{begun, formula_by, operands_by};
ghost use Rattle.sheets.specs.Layout.{stretch};
ghost use Rattle.sheets.specs.Standing.{Drafted, Level};

use crate::draft::Draft;
use crate::fault::SheetFault;
use crate::fields::operands;
use crate::stretch::Stretch;
use arrayvec::ArrayVec;
use rules::ENTRIES;

impl Draft {
    // No entry yet.
    pub(crate) fn new() -> Draft
        ensures entries { result.entries.items ≡ [] }
        ensures room { result.room ≡ ENTRIES }
    {
        Draft {
            entries: ArrayVec::new(),
            room: ENTRIES,
        }
    }

    // Counts a formula that begins here.
    fn begin(&mut self, at: usize) -> Result<(), SheetFault>
        ensures value { result ≡ begun at self.old.room }
        ensures room { OnOk result (self.new.room + 1 ≡ self.old.room) }
        ensures entries { OnOk result (self.new.entries.items ≡ self.old.entries.items) }
    {
        if self.room == 0 {
            return Err(SheetFault::TooManyFormulas { at });
        }
        self.room -= 1;
        Ok(())
    }

    // The formula that begins the stretch; what stands behind it is handed back.
    #[cycle(formulas)]
    pub(crate) fn formula<'a>(&mut self, holder: Stretch<'a>) -> Result<Stretch<'a>, SheetFault>
        ensures value { (depth : ℕ) → self.old.room ≤ depth → Drafted (formula_by depth self.old.room (stretch holder.entry)) self.old self.new result }
        ensures level { OnOk result (Level self.old self.new) }
        ensures shorter { IfOk result (λ left. length left.bytes.now < length holder.entry.bytes.now) }
    {
        let (piece, behind) = holder.split()?;
        let kind = piece.formula_kind()?;
        let (entry, inside) = piece.entry(kind)?;
        self.begin(piece.at)?;
        let left = self.operands(inside, operands(kind))?;
        left.end(piece.at)?;
        self.entries.push(entry);
        Ok(behind)
    }

    // So many formulas, one after another.
    #[cycle(formulas)]
    fn operands<'a>(&mut self, holder: Stretch<'a>, count: u8) -> Result<Stretch<'a>, SheetFault>
        ensures value { (depth : ℕ) → self.old.room ≤ depth → Drafted (operands_by (formula_by depth) count self.old.room (stretch holder.entry)) self.old self.new result }
        ensures level { OnOk result (Level self.old self.new) }
        ensures shorter { IfOk result (λ left. length left.bytes.now ≤ length holder.entry.bytes.now) }
    {
        if count == 0 {
            return Ok(holder);
        }
        let behind = self.formula(holder)?;
        self.operands(behind, count - 1)
    }
}
