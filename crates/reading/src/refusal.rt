// The refusals that a call may give.
ghost use Rattle.std.specs.Prelude.{◌≡◌};

use std::fmt;

// Why a call gives no answer. Each stands for its number in the table of refusals.
#[derive(Clone, Copy, Debug, PartialEq, Eq)]
pub enum Refusal {
    // a byte that the rule needs lies at or past the end
    CutShort = 1,
    // the opening mark is of another kind
    OtherMark = 2,
    // the version is not handled
    OtherVersion = 3,
    // header fields contradict the format
    BadHeader = 4,
    TooManyEntries = 5,
    // an offset is negative or below the lowest allowed
    BadOffset = 6,
    // no such tag, id or read
    NotThere = 7,
    // a tag or id stands twice
    StandsTwice = 8,
    // sizes or counts contradict each other
    BadSize = 9,
    // the call does not handle the type or id
    OtherType = 10,
    // the format forbids the value
    Forbidden = 11,
    NoSuchElement = 12,
    // the lent output is too small
    NoRoom = 13,
    // items do not strictly ascend
    NotAscending = 14,
}

impl From<Refusal> for u64 {
    ghost use Rattle.reading.specs.Refusal.{number};

    ghost from_gives = { λ r n. n ≡ number r };

    fn from(r: Refusal) -> u64 {
        r as u64
    }
}

impl From<Refusal> for u8 {
    ghost use Rattle.reading.specs.Refusal.{number};

    ghost from_gives = { λ r n. n ≡ number r };

    fn from(r: Refusal) -> u8 {
        r as u8
    }
}

// As the programs' lines tell it, by its number.
impl fmt::Display for Refusal {
    ghost use Rattle.std.specs.Prelude.{Some};
    ghost use Rattle.reading.specs.Refusal.{number_text};

    ghost output = { λ r. Some (number_text r) };

    fn fmt<W: fmt::Write>(&self, f: &mut fmt::Formatter<W>) -> fmt::Result {
        write!(f, "{}", u64::from(*self))
    }
}
