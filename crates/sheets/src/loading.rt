// A whole sheet, loaded into rule places.
ghost use Rattle.sheets.specs.Exactly.{ReadsExactly};
ghost use Rattle.sheets.specs.Loading.{Loads};

use crate::fault::SheetFault;
use crate::loaded::Loaded;
use crate::reader::Reader;
use rules::RulePlace;

// The rules of a sheet into the first places, in the sheet's order, each with its number and its zone's; or the first fault,
// and then every place stays as it was.
#[tactic(auto, using(crate::proofs::ReadsSheet::reads_exactly))]
pub fn load(sheet: &[u8], places: &mut [RulePlace]) -> Result<Loaded, SheetFault>
    ensures value { Loads sheet.now places.old places.new result }
    ensures exactly { ReadsExactly sheet.now }
{
    let reader = Reader::sheet(sheet)?;
    let rules = reader.rules.as_slice();
    let count = rules.len();
    if places.len() < count {
        return Err(SheetFault::TooFewPlaces {
            rules: count,
            places: places.len(),
        });
    }
    places[..count].copy_from_slice(rules);
    Ok(Loaded {
        groups: reader.groups,
        zones: reader.zones.len(),
        rules: count,
    })
}
