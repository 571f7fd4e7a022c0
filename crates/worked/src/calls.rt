// A run of calls, and what its answer is worth by the contracts alone.
ghost use Rattle.std.specs.Prelude.{◌≡◌, [], ◌∷◌, length, unsigned_abs};
ghost use Rattle.scales.specs.Counts.{counts};
ghost use Rattle.watches.specs.Runs.{accepted, Call};
ghost use Rattle.watches.specs.Worth.{DefinedNearSafeTight};
ghost use Rattle.worked.specs.Calls.{begun_anew};
ghost use Rattle.worked.specs.Wander.{Wanders};

use records::Record;
use rules::Rule;
use scales::{CountMargin, Counts, Scale};
use watches::{Answer, Watch, WatchFault};

// A soak that is begun, broken off and begun anew: calls of every kind in one run over records of two kinds. The second step
// is lent a front that is too short, and the first play goes on until the record ends.
pub fn begun_anew<
    S: Scale + Drop,
    A: Record<Reading = S::Reading>,
    B: Record<Reading = S::Reading>,
>(
    rule: Rule,
    scale: S,
    cells: &mut [S::Margin],
    early: &A,
    late: &B,
) -> Result<Answer<S::Margin>, WatchFault>
    ensures { DefinedNearSafeTight (S.Scale.model scale) rule (accepted (S.Scale.model scale) rule (begun_anew (A.Record.model early.now) (B.Record.model late.now) (length cells.old))) (length cells.old) result }
{
    let mut watch = Watch::new(rule, scale);
    let _ = watch.step(cells, early, 5);
    let _ = watch.step(&mut cells[0..0], early, 6);
    let _ = watch.play(cells, early, 3, u32::MAX);
    let _ = watch.ask(cells);
    watch.clear();
    let _ = watch.play(cells, late, 0, 9);
    let _ = watch.step(cells, late, 10);
    watch.ask(cells)
}

// The size of a margin.
fn size(margin: CountMargin) -> u32
    ensures { result ≡ unsigned_abs margin.value }
{
    margin.value().unsigned_abs()
}

// By how many steps the rule's heads may wander from a soak of counts with no other verdict at the poll that is answered:
// one step fewer than the margin's size. None where the margin is nought, or no poll is answered.
pub fn may_wander<R: Record<Reading = i32>>(
    rule: Rule,
    cells: &mut [CountMargin],
    record: &R,
    first: u32,
    last: u32,
) -> Option<u32>
    ensures { Wanders rule (accepted counts rule (Call.play (R.Record.model «record».now) first last (length cells.old) ∷ [])) (length cells.old) result }
{
    let mut watch = Watch::new(rule, Counts);
    let _ = watch.play(cells, record, first, last);
    match watch.ask(cells).ok()? {
        Answer::Waiting { .. } => None,
        Answer::At { margin, .. } => size(margin).checked_sub(1),
    }
}
