// How many polls make up a share of a window.
ghost use Rattle.std.specs.Prelude.{◌≡◌};
ghost use Rattle.runs.specs.Rank.{Least};

// A share is counted in thousandths; so many are the whole.
const WHOLE_SHARE: u32 = 1_000;

// The rank K of a window: the least whole number of polls with 1,000 × K ≥ share × width.
pub fn rank(share: u16, width: u16) -> u32
    ensures value { result ≡ Rattle.runs.specs.Rank.rank share width }
    ensures least { Least share width result }
{
    (share as u32 * width as u32).div_ceil(WHOLE_SHARE)
}
