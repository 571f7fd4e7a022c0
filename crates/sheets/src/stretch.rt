// A stretch of a sheet's bytes.
ghost use Rattle.std.specs.Prelude.{◌+◌, ◌≤◌, length};
ghost use Rattle.sheets.specs.declared.sizes.TheConstants.{SHEET_BYTES};

// Bytes of the sheet, with the place in it where they begin.
#[derive(Clone, Copy)]
pub(crate) struct Stretch<'a> {
    pub(crate) bytes: &'a [u8],
    pub(crate) place: usize,
    ghost within: { place + length bytes.now ≤ SHEET_BYTES },
}
