// The verdict of judging.
ghost use Rattle.std.specs.Prelude.{◌≡◌, ◌-◌};

use crate::check::Reason;
use crate::refusal::Refusal;
use std::fmt;

// The file is whole: its extent, and how many bytes lie after it.
#[derive(Clone, Copy)]
pub struct Whole {
    pub extent: usize,
    pub tail: usize,
}

// The file is refused, at this entry or read, from one; 0 for the header.
#[derive(Clone, Copy)]
pub struct Refused<R = Refusal> {
    pub refusal: R,
    pub entry: usize,
}

impl<R: From<Refusal>> From<Reason<R>> for Refused<R> {
    ghost use Rattle.reading.specs.Answers.{TellsRefusal};

    ghost from_gives = { λ w r. TellsRefusal R.from_gives w.failure r.refusal × (r.entry ≡ w.entry) };

    fn from(w: Reason<R>) -> Refused<R> {
        Refused {
            refusal: w.failure.refusal(),
            entry: w.entry,
        }
    }
}

// As the programs' lines tell it, by the refusal's number.
impl fmt::Display for Refused {
    ghost use Rattle.std.specs.Prelude.{Some};
    ghost use Rattle.reading.specs.Verdict.{refused_text};

    ghost output = { λ w. Some (refused_text w) };

    fn fmt<W: fmt::Write>(&self, f: &mut fmt::Formatter<W>) -> fmt::Result {
        write!(f, "refused {} at {}", self.refusal, self.entry)
    }
}

impl From<Refused> for Refusal {
    ghost from_gives = { λ w r. r ≡ w.refusal };

    fn from(w: Refused) -> Refusal {
        w.refusal
    }
}

impl Whole {
    // The verdict on a whole file of this length. The tail is 0 if the extent is past the length, as no file's is.
    pub fn new(extent: usize, length: usize) -> Whole
        ensures { result ≡ record { extent = extent; tail = length - extent } }
    {
        Whole {
            extent,
            tail: length.saturating_sub(extent),
        }
    }
}
