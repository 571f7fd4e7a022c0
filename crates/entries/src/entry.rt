// One entry of a rule as a caller writes it.

// An entry: its kind's number and the fields that some kind has. A caller may hold anything in it, so kind and sense
// stay numbers: a wrong one is refused where a rule is made, and an enum here would ask more of callers. Fields that the kind
// does not have are not looked at. It lies as C lays it out, so that firmware in C can lend a list of them.
#[repr(C)]
#[derive(Clone, Copy, PartialEq, Eq, Debug, Default)]
pub struct Entry {
    pub kind: u8,
    pub head: u8,
    pub k: u8,
    pub sense: u8,
    pub limit: i32,
    pub first: u16,
    pub last: u16,
    pub share: u16,
}

impl Entry {
    // Every field 0: no kind, and a start for entries that set only the fields of their kind.
    pub const BLANK: Entry = Entry {
        kind: 0,
        head: 0,
        k: 0,
        sense: 0,
        limit: 0,
        first: 0,
        last: 0,
        share: 0,
    };
}
