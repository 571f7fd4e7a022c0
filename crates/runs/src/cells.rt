// Places in a stretch of margins that lies highest first, and the shifts that open and close one.
ghost use Rattle.std.specs.Prelude.{◌≡◌, ◌+◌, ◌-◌, ◌*◌, ◌^◌, ◌<◌, ◌≤◌, ◌++◌, map, length, take, drop, slice_set, if◌then◌else◌, MatchOption};
ghost use Rattle.std.specs.List.{insert, remove};
ghost use Rattle.runs.specs.Highest.{above};
ghost use Rattle.runs.specs.Order.{Descending};
ghost use Rattle.runs.specs.Cells.{Absent, FoundAt};

use scales::{Scale, compare};

// The levels that are laid out: all of a search in fewer than 8,192 margins, and so all of a window's, which has at most 1,440.
const LEVELS: u32 = 12;

// Below so many levels a loop over just these is quicker than to pass over most of those that are laid out.
const FEW: u32 = 5;

// Fewer cells than these move one by one, since a rotation takes longer to begin.
const SHORT: usize = 16;

// 2 to the level where hit, else 0. A shift, and no product or choice, since the compiler makes those a branch.
fn jump(hit: bool, level: u32) -> usize
    requires { level < 64 }
    ensures { result ≡ (if hit then 2 ^ level else 0) }
{
    (hit as usize) << level
}

// Where a search of n margins starts: past the front that the first probe shows to be above.
fn start<S: Scale>(scale: &S, margins: &[S::Margin], width: usize, m: S::Margin) -> usize
    requires { (0 < width) × ((width ≤ length margins.now) × (length margins.now < 2 * width)) }
    ensures within { result + width ≤ length margins.now + 1 }
    ensures holds { Descending (map (S.Scale.model scale.now).whole margins.now) → (result ≤ above ((S.Scale.model scale.now).whole m) (map (S.Scale.model scale.now).whole margins.now)) × (above ((S.Scale.model scale.now).whole m) (map (S.Scale.model scale.now).whole margins.now) < result + width) }
{
    let first = margins.len() - width;
    if scale.exceeds(margins[first], m) {
        first + 1
    } else {
        0
    }
}

// One step of a search: of the places from base on, twice 2 to the level of them, the half in which the first margin stands
// that is not above m.
fn halve<S: Scale>(scale: &S, margins: &[S::Margin], m: S::Margin, base: usize, level: u32) -> usize
    requires small { level < 64 }
    requires within { base + 2 * 2 ^ level ≤ length margins.now + 1 }
    ensures within { result + 2 ^ level ≤ length margins.now + 1 }
    ensures narrows { let n = above ((S.Scale.model scale.now).whole m) (map (S.Scale.model scale.now).whole margins.now) in Descending (map (S.Scale.model scale.now).whole margins.now) → (base ≤ n) × (n < base + 2 * 2 ^ level) → (result ≤ n) × (n < result + 2 ^ level) }
{
    let hit = scale.exceeds(margins[base + jump(true, level) - 1], m);
    base + jump(hit, level)
}

// How many of the margins, which lie highest first, are above m. It goes by powers of two and, once it has started, with no
// branch on a margin: `partition_point`, which branches on each, makes a step of a window half as long again. The last levels,
// which are all that a window has, go by a loop of a known length, which the compiler lays out as a row of probes; and all of
// it is laid out in the callers, since a call costs as much as some probes.
#[inline(always)]
#[tactic(auto, using(crate::proofs::Powers::pow_step, crate::proofs::Powers::taken, crate::proofs::Powers::skipped))]
pub(crate) fn place<S: Scale>(scale: &S, margins: &[S::Margin], m: S::Margin) -> usize
    ensures within { result ≤ length margins.now }
    ensures counts { Descending (map (S.Scale.model scale.now).whole margins.now) → result ≡ above ((S.Scale.model scale.now).whole m) (map (S.Scale.model scale.now).whole margins.now) }
{
    if margins.is_empty() {
        return 0;
    }
    let top = margins.len().ilog2();
    let mut base = start(scale, margins, jump(true, top), m);
    let laid = if top < FEW { 0 } else { LEVELS };
    for level in (laid..top).rev() {
        base = halve(scale, margins, m, base, level);
    }
    if laid == 0 {
        return base;
    }
    for level in (0..LEVELS).rev() {
        if level < top {
            base = halve(scale, margins, m, base, level);
        }
    }
    base
}

// Moves the cells from a place on up by one; the last one goes, and the place is free.
fn raise<M: Copy>(cells: &mut [M], at: usize)
    requires { at < length cells.old }
    ensures { (m : M) → slice_set cells.new at m ≡ insert (take (length cells.old - 1) cells.old) at m }
{
    let last = cells.len() - 1;
    if last - at < SHORT {
        cells.copy_within(at..last, at + 1);
    } else {
        cells[at..].rotate_right(1);
    }
}

// Puts m at a place, and moves the cells from there on up by one; the last one goes.
pub(crate) fn insert_at<M: Copy>(cells: &mut [M], at: usize, m: M)
    requires { at < length cells.old }
    ensures { cells.new ≡ insert (take (length cells.old - 1) cells.old) at m }
{
    raise(cells, at);
    cells[at] = m;
}

// Takes the cell at a place out and moves those behind it down by one. The last cell stays as it is: what a run no longer
// keeps is not its to change.
pub(crate) fn remove_at<M: Copy>(cells: &mut [M], at: usize)
    requires { at < length cells.old }
    ensures { cells.new ≡ remove cells.old at ++ drop (length cells.old - 1) cells.old }
{
    let last = cells.len() - 1;
    if last - at < SHORT {
        cells.copy_within(at + 1.., at);
        return;
    }
    let stays = cells[last];
    cells[at..].rotate_left(1);
    cells[last] = stays;
}

// The place of a margin of m's whole number; none where none is to be taken out.
pub(crate) fn find<S: Scale>(scale: &S, margins: &[S::Margin], m: S::Margin) -> Option<usize>
    ensures { MatchOption result (Absent (S.Scale.model scale.now).whole margins.now m) (FoundAt (S.Scale.model scale.now).whole margins.now m) }
{
    let at = place(scale, margins, m);
    let x = *margins.get(at)?;
    compare(scale, m, x).is_eq().then_some(at)
}

// Takes the cell at gone out and puts m in before the cell at at: only the cells between the two places move.
pub(crate) fn replace_at<M: Copy>(cells: &mut [M], gone: usize, at: usize, m: M)
    requires { (gone < length cells.old) × (at ≤ length cells.old) }
    ensures up { at ≤ gone → cells.new ≡ insert (remove cells.old gone) at m }
    ensures down { gone < at → cells.new ≡ insert (remove cells.old gone) (at - 1) m }
{
    if at <= gone {
        insert_at(&mut cells[..=gone], at, m);
    } else {
        remove_at(&mut cells[..at], gone);
        cells[at - 1] = m;
    }
}
