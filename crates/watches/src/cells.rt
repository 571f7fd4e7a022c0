// Whether the cells are enough.
ghost use Rattle.std.specs.Prelude.{◌≡◌};
ghost use Rattle.faults.specs.Checks.{checked};
ghost use Rattle.watches.specs.Readings.{cells_fault};

use crate::refusals::WatchFault;
use rules::Rule;

// Whether so many cells are enough for a rule.
pub(crate) fn check_cells(rule: &Rule, lent: usize) -> Result<(), WatchFault>
    ensures { result ≡ checked (cells_fault rule.now lent) }
{
    let need = rule.need();
    if lent < need {
        return Err(WatchFault::TooFewCells { need, lent });
    }
    Ok(())
}
