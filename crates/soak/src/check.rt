// What a sheet holds, or why it is refused.
use crate::failure::Failure;
use crate::site::Site;
use rules::RulePlace;
use sheets::Loaded;

// How many groups, zones and rules a sheet file has, and a row for each rule.
pub fn check(rt: &HostRuntime, path: &str) -> Result<(), Failure> {
    let site = Site::read(rt, path)?;
    let Loaded {
        groups,
        zones,
        rules,
    } = site.loaded;
    println!(rt; "{groups} groups, {zones} zones, {rules} rules")?;
    for place in site.rules() {
        show(rt, place)?;
    }
    Ok(())
}

// A rule in a row: its numbers, and what it asks for.
fn show(rt: &HostRuntime, place: &RulePlace) -> Result<(), Failure> {
    let rule = place.rule();
    let number = place.rule_number;
    let zone = place.zone_number;
    let entries = rule.len();
    let horizon = rule.horizon();
    let need = rule.need();
    let heads = rule.reads().size();
    println!(rt;
        "rule {number}, zone {zone}: {entries} formulas over {heads} heads, {horizon} polls ahead, {need} cells"
    )?;
    Ok(())
}
