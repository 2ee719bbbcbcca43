// The walk over the reads, from boundary to boundary.
ghost use Rattle.std.specs.Prelude.{◌≡◌, ℕ, ◌+◌, ◌≤◌, ◌<◌, length};
ghost use Rattle.reading.specs.Answers.{outcome_of, outcome_of_judged, answer_of};
ghost use Rattle.reading.specs.Check.{run, answer};
ghost use Rattle.sff.specs.Walk.{first_boundary, skip_index, next_read, walk_past, before_read};

use crate::read::frame;
use reading::check::{Failure, Reason};
use reading::refusal::Refusal;
use sff_fields::header::{Header, index_size};

// An SFF file: its bytes, and its header, which stands in them.
#[derive(Clone, Copy)]
pub(crate) struct SffFile<'a> {
    pub bytes: &'a [u8],
    pub header: Header,
    ghost present: { header.header_length ≤ length bytes.now },
}

// A boundary between reads: its position, and whether the index has been met. That it lies within a file's bytes is asked of each call: a boundary
// that held the file too would carry bytes and header through each step of the walk.
#[derive(Clone, Copy)]
pub(crate) struct Boundary {
    pub position: usize,
    pub met: bool,
}

// A read's place, and the boundary behind it.
#[derive(Clone, Copy)]
pub(crate) struct Placed {
    pub start: usize,
    pub behind: Boundary,
}

impl<'a> SffFile<'a> {
    // The boundary behind the index where it starts at boundary b, else b.
    pub(crate) fn skip_index(self, b: Boundary) -> Result<Boundary, Failure>
        requires { b.position ≤ length self.bytes.now }
        ensures { outcome_of result ≡ run (skip_index self.entry.header b) self.entry.bytes.now }
    {
        let start = b.position;
        if (start as u64) != self.header.index_offset {
            return Ok(b);
        }
        let end = start + index_size(self.header);
        if self.bytes.len() < end {
            return Err(Failure::Short { start, end });
        }
        Ok(Boundary {
            position: end,
            met: true,
        })
    }

    // The read behind boundary b, and behind the index where that stands between. It is read i, counted from 0; the index is reported at 0.
    // Matches, because with `map_err` the walk takes twice the time.
    pub(crate) fn next_read(self, i: usize, b: Boundary) -> Result<Placed, Reason>
        requires { (b.position ≤ length self.bytes.now) × (i < 0x8000000000000000) }
        ensures { outcome_of_judged result ≡ run (next_read self.entry.header i b) self.entry.bytes.now }
    {
        let here = match self.skip_index(b) {
            Ok(c) => c,
            Err(f) => return Err(f.at(0)),
        };
        let start = here.position;
        let end = match frame(self.bytes, self.header.flows, start) {
            Ok(end) => end,
            Err(f) => return Err(f.at(i + 1)),
        };
        Ok(Placed {
            start,
            behind: Boundary {
                position: end,
                met: here.met,
            },
        })
    }

    // The boundary behind the n reads from read i on, counted from 0. Inlined, as the next is: its reason would go through memory, which costs more than
    // the walk over a few reads.
    #[inline(always)]
    pub(crate) fn walk(self, n: usize, i: usize, b: Boundary) -> Result<Boundary, Reason>
        requires { (b.position ≤ length self.bytes.now) × (i + n < 0x8000000000000000) }
        ensures { outcome_of_judged result ≡ run (walk_past self.entry.header n i b) self.entry.bytes.now }
    {
        let mut here = b;
        for j in 0..n {
            let read = self.next_read(i + j, here)?;
            here = read.behind;
        }
        Ok(here)
    }

    // The boundary behind the first n reads.
    #[inline(always)]
    pub(crate) fn walk_first(self, n: usize) -> Result<Boundary, Reason>
        requires { n < 0x8000000000000000 }
        ensures { outcome_of_judged result
            ≡ run (walk_past self.entry.header n 0 (first_boundary self.entry.header)) self.entry.bytes.now }
    {
        let front = Boundary {
            position: self.header.header_length as usize,
            met: false,
        };
        self.walk(n, 0, front)
    }

    // The boundary before read k, counted from one.
    pub(crate) fn walk_to(self, k: u64) -> Result<Boundary, Refusal>
        ensures { answer_of result ≡ answer (before_read self.entry.header k) self.entry.bytes.now }
    {
        if k < 1 || (self.header.reads as u64) < k {
            return Err(Refusal::NotThere);
        }
        Ok(self.walk_first((k - 1) as usize)?)
    }
}
