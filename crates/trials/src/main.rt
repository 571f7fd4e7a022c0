// trials: tries the product beside a second evaluator that is written plainly from the definitions.
#![tactic(auto)]

mod any_rules;
mod any_sheets;
mod failure;
mod listed_entries;
mod outlines;
mod plain_records;
mod plain_rules;
mod plain_scales;
mod plain_sheets;
mod plain_watches;
mod random;
mod settled_readings;
mod sheet_refusals;
mod tally;
mod tried_calls;
mod tried_refusals;
mod tried_rules;
mod tried_runs;
mod tried_sheets;

use failure::Failure;
use random::Random;

fn run(rt: &HostRuntime) -> Result<(), Failure> {
    println!(rt; "Trials of what no proof settles.")?;
    settled_readings::try_all(rt)?;
    tried_refusals::try_all(rt)?;
    sheet_refusals::try_all(rt)?;
    tried_rules::try_all(rt, &mut Random::new(1))?;
    tried_runs::try_all(rt, &mut Random::new(2))?;
    tried_sheets::try_all(rt, &mut Random::new(3))
}

fn main(rt: HostRuntime) -> Result<(), Failure> {
    let result = run(&rt);
    if let Err(failure) = &result {
        let _ = eprintln!(rt; "trials: {failure}");
    }
    result
}
