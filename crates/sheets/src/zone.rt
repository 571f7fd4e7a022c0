// A zone that is being read.
use entries::HeadSet;

// A zone's number, and its heads.
#[derive(Clone, Copy)]
pub(crate) struct Zone {
    pub(crate) number: u16,
    pub(crate) heads: HeadSet,
}
