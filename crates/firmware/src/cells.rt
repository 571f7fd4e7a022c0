// What the cells stand for that C lends: plain numbers, of which any may stand in a cell.
ghost use Rattle.std.specs.Prelude.{◌≡◌, ◌^◌, ◌<◌, ◌≤◌, unsigned_abs};
ghost use Rattle.scales.specs.Order.{clipped};
ghost use Rattle.firmware.specs.Cells.{cell_whole};

// The whole number clipped to -most to most.
pub(crate) fn clip(whole: i32, most: u32) -> i32
    requires { most < 2 ^ 31 }
    ensures { result ≡ clipped most whole }
{
    let most = most as i32;
    whole.clamp(-most, most)
}

// What a cell stands for, where no margin has a larger size than most: its number, clipped to -most to most.
pub(crate) fn in_range(cell: i32, most: u32) -> i32
    requires { most < 2 ^ 31 }
    ensures value { result ≡ cell_whole most cell }
    ensures near { unsigned_abs result ≤ most }
{
    clip(cell, most)
}
