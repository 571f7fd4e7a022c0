// Ordered runs and picks of count, obscuration and verdict margins.
use crate::run::OrderedRun;
use crate::select::pick;
use crate::share::rank;
use scales::{Counts, Limit, Obscuration, Scale, Sense, Test, Verdict, VerdictMargin};

// The margins of four readings that are to be at least 8.
fn margins<S: Scale>(scale: &S, [a, b, c, d]: [S::Reading; 4]) -> Option<[S::Margin; 4]> {
    let test = Test {
        sense: Sense::AtLeast,
        limit: Limit::new(8)?,
    };
    let margin = |reading| scale.test(reading, test);
    Some([margin(a)?, margin(b)?, margin(c)?, margin(d)?])
}

// The third highest of a run of three margins into which the first was put twice, after the highest left for the fourth.
fn third_of<S: Scale>(scale: &S, margins: [S::Margin; 4]) -> Option<S::Margin> {
    let mut cells = margins;
    third_in(scale, margins, &mut cells)
}

fn third_in<S: Scale>(
    scale: &S,
    [first, second, third, fourth]: [S::Margin; 4],
    cells: &mut [S::Margin],
) -> Option<S::Margin> {
    let mut run = OrderedRun::new(cells);
    let _ = run.put(scale, first);
    let _ = run.put(scale, second);
    let _ = run.put(scale, third);
    let _ = run.put(scale, first);
    let _ = run.take(scale, first);
    let _ = run.replace(scale, second, fourth);
    run.pick(3)
}

#[test]
fn three_scales(rt: HostRuntime) {
    let counts = margins(&Counts, [5, 12, 9, 6]).expect(&rt, "counts");
    assert_eq!(rt; third_of(&Counts, counts).map(|m| m.value()), Some(-3));
    assert_eq!(rt; pick(&Counts, &counts, 2).map(|m| m.value()), Some(1));
    assert!(rt; pick(&Counts, &counts, 5).is_none());
    let obscuration = margins(&Obscuration, [0.25, 4.0, 1.5, 0.5]).expect(&rt, "obscuration");
    assert_eq!(rt;
        third_of(&Obscuration, obscuration).map(|m| m.value()),
        Some(0.21875)
    );
    let verdict = Verdict::over(Counts);
    let verdicts = margins(&verdict, [5, 12, 9, 8]).expect(&rt, "verdicts");
    assert_eq!(rt; third_of(&verdict, verdicts), Some(VerdictMargin::No));
    assert_eq!(rt; pick(&verdict, &verdicts, 3), Some(VerdictMargin::Yes));
}

#[test]
fn a_share_is_rounded_up(rt: HostRuntime) {
    assert_eq!(rt; rank(950, 1_440), 1_368);
    assert_eq!(rt; rank(951, 1_440), 1_370);
    assert_eq!(rt; rank(501, 4), 3);
}
