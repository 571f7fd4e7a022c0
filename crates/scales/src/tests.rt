// Readings at the edges of what is lawful, and one test on each scale.
use crate::counts::Counts;
use crate::limit::{Limit, Sense, Test};
use crate::obscuration::Obscuration;
use crate::panel::Panel;
use crate::scale::Scale;
use crate::verdict::{Verdict, VerdictMargin};
use std::num::f32_to_bits_with_nan;

#[test]
fn counts(rt: HostRuntime) {
    let limit = Limit::new(8).unwrap();
    for (reading, sense, margin) in [
        (5, Sense::AtLeast, Some(-3)),
        (5, Sense::AtMost, Some(3)),
        (65_535, Sense::AtLeast, Some(65_527)),
        (65_536, Sense::AtLeast, None),
        (-1, Sense::AtLeast, None),
    ] {
        let answer = Counts.test(reading, Test { sense, limit });
        assert_eq!(rt; answer.map(|m| m.value()), margin);
    }
    assert!(rt; Limit::new(1_048_577).is_none());
}

#[test]
fn obscuration(rt: HostRuntime) {
    let limit = Limit::new(256).unwrap();
    for (reading, sense, margin) in [
        (1.25, Sense::AtLeast, Some(0.25)),
        (-0.0, Sense::AtLeast, Some(-1.0)),
        (0.0, Sense::AtMost, Some(1.0)),
        (-4096.0, Sense::AtLeast, Some(-4097.0)),
        (0.001, Sense::AtLeast, None),
        (4096.00390625, Sense::AtLeast, None),
        (f32::NAN, Sense::AtLeast, None),
        (f32::INFINITY, Sense::AtLeast, None),
        (f32::NEG_INFINITY, Sense::AtLeast, None),
    ] {
        let answer = Obscuration.test(reading, Test { sense, limit });
        assert_eq!(rt; answer.map(|m| m.value()), margin);
    }
}

// A zero's sign is the reading's.
#[test]
fn negative_zero(rt: HostRuntime) {
    let limit = Limit::new(0).unwrap();
    let sense = Sense::AtLeast;
    let answer = Obscuration.test(-0.0, Test { sense, limit });
    assert_eq!(rt;
        answer.map(|m| f32_to_bits_with_nan(m.value())),
        Some(0x8000_0000)
    );
}

#[test]
fn layers(rt: HostRuntime) {
    let limit = Limit::new(256).unwrap();
    let sense = Sense::AtMost;
    let at_most = Test { sense, limit };
    let sense = Sense::AtLeast;
    let at_least = Test { sense, limit };
    let panel = Panel::over(Obscuration);
    assert_eq!(rt; panel.test(1.25, at_least).map(|m| m.value()), Some(9));
    let verdict = Verdict::over(panel);
    assert_eq!(rt; verdict.test(1.0, at_most), Some(VerdictMargin::Yes));
    assert_eq!(rt; verdict.test(1.25, at_most), Some(VerdictMargin::No));
    let digit = Panel::over(Verdict::over(Counts));
    assert_eq!(rt; digit.test(3, at_least).map(|m| m.value()), Some(-1));
}
