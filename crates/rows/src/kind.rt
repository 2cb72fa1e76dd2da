// The kinds of rows, and the numbers that stand for them in a row.
ghost use Rattle.std.specs.Prelude.{◌≡◌};
ghost use Rattle.rows.specs.Kinds.{kind_number, Decodes};

use std::error::Error;
use std::fmt;

// What a row does.
#[derive(Clone, Copy, Debug, PartialEq, Eq, Hash)]
pub enum Kind {
    Read,
    Write,
    Commit,
    Open,
    Close,
    Sync,
    Send,
    // A process posts a receive. The receive is over at its wait.
    Recv,
    Wait,
    // A process arrives at a barrier. Its message field holds the barrier's number.
    Barrier,
}

// A number that is no kind's.
#[derive(Clone, Copy, Debug, PartialEq, Eq, Hash)]
pub struct UnknownKind(pub u32);

impl Kind {
    // Every kind, by its number.
    pub const ALL: [Kind; 10] = [
        Kind::Read,
        Kind::Write,
        Kind::Commit,
        Kind::Open,
        Kind::Close,
        Kind::Sync,
        Kind::Send,
        Kind::Recv,
        Kind::Wait,
        Kind::Barrier,
    ];

    // The kind of the row at which a message arrives: the order runs from the send to this row.
    pub const ARRIVAL: Kind = Kind::Wait;

    // The number that stands for the kind in a row.
    pub fn number(self) -> u32
        ensures { result ≡ kind_number self }
    {
        self as u32
    }
}

impl TryFrom<u32> for Kind {
    type Error = UnknownKind;

    ghost try_from_gives = { Decodes };

    fn try_from(number: u32) -> Result<Self, UnknownKind> {
        match number {
            0 => Ok(Kind::Read),
            1 => Ok(Kind::Write),
            2 => Ok(Kind::Commit),
            3 => Ok(Kind::Open),
            4 => Ok(Kind::Close),
            5 => Ok(Kind::Sync),
            6 => Ok(Kind::Send),
            7 => Ok(Kind::Recv),
            8 => Ok(Kind::Wait),
            9 => Ok(Kind::Barrier),
            _ => Err(UnknownKind(number)),
        }
    }
}

impl fmt::Display for UnknownKind {
    fn fmt<W: fmt::Write>(&self, f: &mut fmt::Formatter<W>) -> fmt::Result {
        write!(f, "no kind has the number {}", self.0)
    }
}

impl Error for UnknownKind {}
