// A read's header, and where a read ends.
ghost use Rattle.std.specs.Prelude.{◌≡◌, ◌≤◌, length};
ghost use Rattle.reading.specs.Check.{run};
ghost use Rattle.reading.specs.Answers.{outcome_of};
ghost use Rattle.sff.specs.Read.{read_header_at, framing};

use reading::check::Failure;
use reading::number::{be16, be32};
use sff_fields::read::{READ_FRONT_LENGTH, ReadHeader, data_length, read_length_tests};

// The fields of a read that starts at p, from the bytes of its header.
pub(crate) fn read_header_of(h: &[u8], p: usize) -> ReadHeader
    ensures { result ≡ read_header_at p h.now 0 }
{
    ReadHeader {
        start: p,
        header_length: be16(h, 0),
        name_length: be16(h, 2),
        bases: be32(h, 4),
        quality_left: be16(h, 8),
        quality_right: be16(h, 10),
        adapter_left: be16(h, 12),
        adapter_right: be16(h, 14),
    }
}

// Where the read that starts at p ends. Only the fields that are compared are read.
pub(crate) fn frame(s: &[u8], flows: u16, p: usize) -> Result<usize, Failure>
    requires { p ≤ length s.now }
    ensures { outcome_of result ≡ run (framing flows p) s.now }
{
    let fixed = p + READ_FRONT_LENGTH;
    if s.len() < fixed {
        return Err(Failure::Short {
            start: p,
            end: fixed,
        });
    }
    let h = &s[p..fixed];
    let stated = be16(h, 0);
    let name = be16(h, 2);
    let bases = be32(h, 4);
    read_length_tests(p, stated, name)?;
    let start = p + stated as usize;
    if s.len() < start {
        return Err(Failure::Short {
            start: p,
            end: start,
        });
    }
    let end = start + data_length(flows, bases);
    if s.len() < end {
        return Err(Failure::Short { start, end });
    }
    Ok(end)
}
