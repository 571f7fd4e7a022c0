// What is printed of a small soak of one head, and margins as text.
use crate::amount::{Amount, Unit};
use crate::progress::Quiet;
use crate::soaks::Soak;
use entries::{HeadSet, Operation};
use records::Grid;
use rules::{Rule, RulePlace};
use scales::{Counts, Limit, Sense, Test};
use std::test::Fail;

const READINGS: [i32; 8] = [5, 9, 12, 7, 10, 3, 8, 11];

// Half of the polls of a window have the head at 8 at least.
fn window(last: u16) -> Option<Rule> {
    let test = Test {
        sense: Sense::AtLeast,
        limit: Limit::new(8)?,
    };
    let entries = [
        Operation::HeadTest { head: 0, test }.into(),
        Operation::Window {
            first: 0,
            last,
            share: 500,
        }
        .into(),
    ];
    Rule::new(&entries, HeadSet::starting()).ok()
}

const REPORT: &str = "Margins in counts over a soak of 8 polls.

 rule  zone  horizon  answered       yes    latest  verdict         margin   nearest  verdict         margin
    6     7        3         5         5         4      yes              2         3      yes              0
   12     7       20  waiting: 13 rows to come

Smallest margin of the sheet: 0 counts, rule 6 at poll 3, verdict yes.
";

const TABLE: &str = "poll,margin,verdict
0,1,yes
1,2,yes
2,2,yes
3,0,yes
4,2,yes
";

#[test]
fn a_small_soak(rt: HostRuntime) -> Result<(), Fail> {
    let readings = READINGS;
    let soak = Soak {
        heap: rt.alloc(),
        scale: Counts,
        record: &Grid::new(1, 8, &readings),
    };
    let place = RulePlace::new(&window(3).ok_or("no rule")?, 6, 7);
    let long = RulePlace::new(&window(20).ok_or("no rule")?, 12, 7);
    let mut report = String::new(rt.alloc());
    soak.report(&[place, long], &mut report, &mut Quiet)?;
    assert_eq!(rt; report.as_str(), REPORT);
    let mut table = String::new(rt.alloc());
    soak.margins(&place, &mut table, &mut Quiet)?;
    assert_eq!(rt; table.as_str(), TABLE);
    let mut picture = String::new(rt.alloc());
    soak.plot(&place, &mut picture, &mut Quiet)?;
    assert!(rt; picture.contains("L535 70L752 420L970 70"));
    assert!(rt; picture.contains(">nearest to tripping: 0 counts at poll 3, verdict yes</text>"));
    Ok(())
}

#[test]
fn margins_in_percent_per_metre(rt: HostRuntime) -> Result<(), Fail> {
    for (steps, text) in [
        (0, "0"),
        (1, "0.00390625"),
        (-1, "-0.00390625"),
        (128, "0.5"),
        (-256, "-1"),
        (-2_097_151, "-8191.99609375"),
        (2_097_152, "8192"),
    ] {
        let amount = Amount {
            steps,
            unit: Unit::PercentPerMetre,
        };
        let written = amount.to_string(rt.alloc())?;
        assert_eq!(rt; written.as_str(), text);
    }
    Ok(())
}
