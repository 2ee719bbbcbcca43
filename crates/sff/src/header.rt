// The common header.
ghost use Rattle.std.specs.Prelude.{◌≡◌};
ghost use Rattle.reading.specs.Answers.{outcome_of, answer_of};
ghost use Rattle.reading.specs.Check.{run, answer};
ghost use Rattle.sff.specs.Header.{header_of, header};

use reading::check::Failure;
use reading::number::{be16, be32, byte};
use reading::refusal::Refusal;
use sff_fields::header::{
    CODE_PLACE, FLOWS_PLACE, FRONT_LENGTH, HEADER_LENGTH_PLACE, Header, INDEX_LENGTH_PLACE,
    INDEX_OFFSET_PLACE, KEY_LENGTH_PLACE, MARK_PLACE, READS_PLACE, VERSION_PLACE, front_tests,
};

// The second half of the index offset.
const INDEX_OFFSET_LOW: usize = 12;

// The index offset is read in two halves, because reading it whole is a call at run time.
fn header_of(h: &[u8]) -> Header
    ensures { result ≡ header_of h.now }
{
    let high = be32(h, INDEX_OFFSET_PLACE) as u64;
    let low = be32(h, INDEX_OFFSET_LOW) as u64;
    Header {
        index_offset: 4294967296 * high + low,
        index_length: be32(h, INDEX_LENGTH_PLACE),
        reads: be32(h, READS_PLACE),
        header_length: be16(h, HEADER_LENGTH_PLACE),
        key_length: be16(h, KEY_LENGTH_PLACE),
        flows: be16(h, FLOWS_PLACE),
    }
}

// The header, or the first test that fails, or the bytes of it that are missing.
pub(crate) fn read_header(s: &[u8]) -> Result<Header, Failure>
    ensures { outcome_of result ≡ run header s.now }
{
    if s.len() < FRONT_LENGTH {
        return Err(Failure::Short {
            start: 0,
            end: FRONT_LENGTH,
        });
    }
    let h = &s[..FRONT_LENGTH];
    let mark = be32(h, MARK_PLACE);
    let version = be32(h, VERSION_PLACE);
    let code = byte(h, CODE_PLACE);
    let d = header_of(h);
    front_tests(mark, version, code, d)?;
    let end = d.header_length as usize;
    if s.len() < end {
        return Err(Failure::Short { start: 0, end });
    }
    Ok(d)
}

// The fields of the common header.
pub fn read_fields(s: &[u8]) -> Result<Header, Refusal>
    ensures { answer_of result ≡ answer header s.now }
{
    Ok(read_header(s)?)
}
