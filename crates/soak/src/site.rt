// A loaded sheet.
ghost use Rattle.std.specs.Prelude.{◌≡◌, IfErr, IfOk};
ghost use Rattle.soak.specs.declared.failure.Failure.TheVariants.{NoRule};

use crate::failure::Failure;
use crate::files;
use rules::RulePlace;
use sheets::{Loaded, RULES, load};

// The most bytes of a sheet file: far more than a sheet has, so that a file too long for a sheet is refused by its own length.
const FILE_BYTES: usize = 1 << 24;

// The byte of a sheet that tells how many heads its card has: it follows the header of the sheet's own record.
const HEAD_TOTAL: usize = 4;

// What a sheet file holds.
#[derive(Drop)]
pub struct Site {
    pub loaded: Loaded,
    // How many heads the card has.
    pub heads: u8,
    places: [RulePlace; RULES],
}

impl Site {
    // The sheet of a file.
    pub fn read(rt: &HostRuntime, path: &str) -> Result<Site, Failure> {
        let bytes = files::read(rt, path, FILE_BYTES)?;
        let mut places = [RulePlace::fresh(); RULES];
        let loaded = load(bytes.as_slice(), &mut places)?;
        Ok(Site {
            loaded,
            heads: bytes.get(HEAD_TOTAL).copied().unwrap_or(0),
            places,
        })
    }

    // Its rules, in the sheet's order.
    pub fn rules(&self) -> &[RulePlace] {
        self.places.get(..self.loaded.rules).unwrap_or(&[])
    }

    // The rule of a number.
    pub fn rule(&self, number: u32) -> Result<RulePlace, Failure>
        ensures found { IfOk result (λ place. place.rule_number ≡ number) }
        ensures none { IfErr result (λ failure. failure ≡ NoRule number) }
    {
        for place in self.rules() {
            if u32::from(place.rule_number) == number {
                return Ok(*place);
            }
        }
        Err(Failure::NoRule { number })
    }
}
