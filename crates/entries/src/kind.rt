// The kinds of entries.
ghost use Rattle.entries.specs.Kinds.{Decodes};

// The kind of an entry, with its number.
#[derive(Clone, Copy, PartialEq, Eq, Debug)]
pub enum Kind {
    HeadTest = 16,
    ZoneTest,
    Not,
    Either,
    Both,
    Window,
}

// A number that no kind has.
#[derive(Clone, Copy, PartialEq, Eq, Debug)]
pub struct UnknownKind(pub u8);

impl TryFrom<u8> for Kind {
    type Error = UnknownKind;

    ghost try_from_gives = { Decodes };

    fn try_from(number: u8) -> Result<Kind, UnknownKind> {
        match number {
            16 => Ok(Kind::HeadTest),
            17 => Ok(Kind::ZoneTest),
            18 => Ok(Kind::Not),
            19 => Ok(Kind::Either),
            20 => Ok(Kind::Both),
            21 => Ok(Kind::Window),
            _ => Err(UnknownKind(number)),
        }
    }
}
