// The kinds of events, each with the byte that an event of it begins with.
ghost use Rattle.record.specs.Kinds.{KindRead};

use crate::fault::ByteFault;

#[derive(Clone, Copy, PartialEq, Eq, Debug)]
pub(crate) enum Kind {
    Spawn = 1,
    End = 2,
    Open = 3,
    Close = 4,
    Read = 5,
    Write = 6,
}

impl TryFrom<u8> for Kind {
    type Error = ByteFault;

    ghost try_from_gives = { KindRead };

    // The discriminants once more: no cast leads from a number to a variant.
    fn try_from(byte: u8) -> Result<Kind, ByteFault> {
        match byte {
            1 => Ok(Kind::Spawn),
            2 => Ok(Kind::End),
            3 => Ok(Kind::Open),
            4 => Ok(Kind::Close),
            5 => Ok(Kind::Read),
            6 => Ok(Kind::Write),
            _ => Err(ByteFault::UnknownKind),
        }
    }
}
