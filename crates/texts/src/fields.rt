// The fields of a line that are still to be read.
ghost use Rattle.std.specs.Prelude.{◌+◌, ◌<◌, ◌≤◌, ◌^◌};
ghost use Rattle.std.specs.Option.{option_map};
ghost use Rattle.texts.specs.Parts.{span};

// The fields of a line that are still to be read, and the column where the next one begins.
#[derive(Drop)]
pub(crate) struct Fields<'a> {
    pub line: usize,
    pub wanted: u32,
    pub mark: u8,
    pub column: usize,
    pub rest: Option<&'a [u8]>,
    ghost begun: { 0 < column },
    ghost fits: { column + span (option_map (λ text. text.now) rest) ≤ 2 ^ 63 + 1 },
}
