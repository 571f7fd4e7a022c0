// Rules and refusals by example.
use crate::fault::RuleFault;
use crate::place::RulePlace;
use crate::rule::Rule;
use entries::{Entry, HeadSet, Kind};

// The head at least 0.
fn test(head: u8) -> Entry {
    Entry {
        kind: Kind::HeadTest as u8,
        head,
        ..Entry::BLANK
    }
}

// Half of the polls from 0 to `last` ahead.
fn window(last: u16) -> Entry {
    Entry {
        kind: Kind::Window as u8,
        last,
        share: 500,
        ..Entry::BLANK
    }
}

fn refusal(entries: &[Entry]) -> Option<RuleFault> {
    Rule::new(entries, HeadSet::starting()).err()
}

#[test]
fn nested_windows_look_4095_polls_ahead(rt: HostRuntime) {
    let near = [test(0), window(1_439), window(1_439), window(1_217)];
    assert_eq!(rt; refusal(&near), None);
    let far = [test(0), window(1_439), window(1_439), window(1_218)];
    assert_eq!(rt;
        refusal(&far),
        Some(RuleFault::HorizonTooFar {
            entry: 3,
            horizon: 4_096,
        })
    );
    assert_eq!(rt; refusal(&[]), Some(RuleFault::EntryCount { count: 0 }));
    assert_eq!(rt;
        refusal(&[test(1)]),
        Some(RuleFault::HeadOutsideZone { entry: 0, head: 1 })
    );
    assert_eq!(rt;
        refusal(&[window(3)]),
        Some(RuleFault::TooFewFormulas { entry: 0 })
    );
}

#[test]
fn fresh_places_hold_the_starting_rule(rt: HostRuntime) {
    let mut places = [RulePlace::fresh(); 2];
    places[1].count = 25;
    assert_eq!(rt; places[0].rule().need(), 1);
    assert_eq!(rt; places[1].rule().need(), 1);
    assert_eq!(rt; Rule::starting().reads().size(), 1);
}
