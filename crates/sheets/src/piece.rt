// A record of the sheet.
use crate::stretch::Stretch;

// A record of the sheet: its kind, the place where it begins, and its payload.
#[derive(Clone, Copy)]
pub(crate) struct Piece<'a> {
    pub(crate) kind: u16,
    pub(crate) at: usize,
    pub(crate) inside: Stretch<'a>,
}
