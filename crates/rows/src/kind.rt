// How a segment ends.
ghost use Rattle.std.specs.Prelude.{◌≡◌, Some};
ghost use Rattle.rows.specs.Kinds.{kind_number, kind_of, kind_or_refusal};
ghost use Rattle.rows.specs.Words.{kind_words};

use crate::refusal::Refusal;
use std::fmt;

/// The event at the end of a segment, with its number in a plan file.
#[derive(Clone, Copy, PartialEq, Eq, Debug)]
pub enum Kind {
    /// A running token was used up.
    Bottom = 1,
    /// A waiting token has as much time left as the plane.
    Ceiling = 2,
    /// Both at once.
    Both = 3,
    /// The plane is over.
    PlaneEnd = 4,
}

impl From<Kind> for u8 {
    ghost from_gives = { λ kind number. number ≡ kind_number kind };

    fn from(kind: Kind) -> u8 {
        kind as u8
    }
}

impl TryFrom<u8> for Kind {
    type Error = Refusal;

    ghost try_from_gives = { λ number result. result ≡ kind_or_refusal number };

    fn try_from(number: u8) -> Result<Kind, Refusal> {
        match number {
            1 => Ok(Kind::Bottom),
            2 => Ok(Kind::Ceiling),
            3 => Ok(Kind::Both),
            4 => Ok(Kind::PlaneEnd),
            _ => Err(Refusal::Kind),
        }
    }
}

impl Kind {
    /// Its number in a plan file.
    pub fn number(self) -> u8
        ensures { result ≡ kind_number self }
    {
        self.into()
    }

    /// The kind of that number, if there is one.
    pub fn from_number(number: u8) -> Option<Kind>
        ensures { result ≡ kind_of number }
    {
        Kind::try_from(number).ok()
    }
}

impl fmt::Display for Kind {
    ghost output = { λ kind. Some (kind_words kind) };

    fn fmt<W: fmt::Write>(&self, f: &mut fmt::Formatter<W>) -> fmt::Result {
        f.write_str(self.words())
    }
}
