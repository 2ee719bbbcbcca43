// The SFF calls. Reads and bases count from one; a part is told by where it starts.
ghost use Rattle.std.specs.Prelude.{◌≡◌, length};
ghost use Rattle.reading.specs.Check.{answer, map_answer};
ghost use Rattle.reading.specs.Verdict.{verdict_of};
ghost use Rattle.reading.specs.Lent.{filled};
ghost use Rattle.reading.specs.Bulk.{records};
ghost use Rattle.sff.specs.Header.{header as header_reading};
ghost use Rattle.sff.specs.Judge.{judging, extent_of};
ghost use Rattle.sff.specs.Lookup.{read_reading};
ghost use Rattle.sff.specs.Reads.{reads_reading};
ghost use Rattle.sff_fields.specs.Parts.{read_numbers};
ghost use Rattle.sff.specs.Flow.{flow_reading};
ghost use Rattle.capi.specs.Answers.{as_verdict, as_listed};
ghost use Rattle.capi.specs.Sff.{as_header, as_read, as_flow};

use crate::answers::{Flow, Listed, SffHeader, SffRead, Verdict};
use reading::refusal::Refusal;
use sff::{flow, header, judge, lookup, reads};
use sff_fields::header::Header;
use sff_fields::parts::Read;
use sff_fields::position::{BasePosition, FlowPosition};

// Whether the bytes are a whole SFF file, with its extent and its tail.
#[unsafe(no_mangle)]
pub extern "C" fn jt_sff_judge(s: &[u8]) -> Verdict
    ensures { result ≡ as_verdict (verdict_of judging extent_of s.now) }
{
    judge::judge(s).into()
}

// The flow letters start at 31, behind the fields, and the key behind the letters.
impl From<Result<Header, Refusal>> for SffHeader {
    ghost use Rattle.reading.specs.Answers.{answer_of};
    ghost use Rattle.capi.specs.Sff.{as_header};

    ghost from_gives = { λ r a. a ≡ as_header (answer_of r) };

    fn from(found: Result<Header, Refusal>) -> SffHeader {
        match found {
            Ok(d) => SffHeader {
                refusal: 0,
                index_offset: d.index_offset,
                index_length: d.index_length as u64,
                reads: d.reads as u64,
                header_length: d.header_length as u64,
                key_length: d.key_length as u64,
                flows: d.flows as u64,
                flow_letters_start: 31,
                key_start: 31 + d.flows as u64,
            },
            Err(refusal) => SffHeader {
                refusal: refusal.into(),
                ..SffHeader::default()
            },
        }
    }
}

// The fields of the common header.
#[unsafe(no_mangle)]
pub extern "C" fn jt_sff_header(s: &[u8]) -> SffHeader
    ensures { result ≡ as_header (answer header_reading s.now) }
{
    header::read_fields(s).into()
}

impl From<Result<Read, Refusal>> for SffRead {
    ghost use Rattle.reading.specs.Answers.{answer_of};
    ghost use Rattle.capi.specs.Sff.{as_read};

    ghost from_gives = { λ r a. a ≡ as_read (answer_of r) };

    fn from(found: Result<Read, Refusal>) -> SffRead {
        match found {
            Ok(r) => SffRead {
                refusal: 0,
                start: r.start as u64,
                name_start: r.name_start as u64,
                name_length: r.name_length as u64,
                bases: r.bases as u64,
                quality_left: r.quality_left as u64,
                quality_right: r.quality_right as u64,
                adapter_left: r.adapter_left as u64,
                adapter_right: r.adapter_right as u64,
                flows_start: r.flows_start as u64,
                steps_start: r.steps_start as u64,
                letters_start: r.letters_start as u64,
                qualities_start: r.qualities_start as u64,
                first: r.first.0,
                last: r.last.0,
                insert_start: r.insert_start as u64,
                insert_length: r.insert_length as u64,
            },
            Err(refusal) => SffRead {
                refusal: refusal.into(),
                ..SffRead::default()
            },
        }
    }
}

// Read k.
#[unsafe(no_mangle)]
pub extern "C" fn jt_sff_read(s: &[u8], k: u64) -> SffRead
    ensures { result ≡ as_read (answer (read_reading k) s.now) }
{
    lookup::read_number(s, k).into()
}

// 17 numbers for each read: the fields of its record.
#[unsafe(no_mangle)]
pub extern "C" fn jt_sff_reads(s: &[u8], first: u64, out: &mut [u64]) -> Listed
    ensures value { result ≡ as_listed (map_answer length (answer (reads_reading first (length out.old)) s.now)) }
    ensures out_after { out.new ≡ filled
        (map_answer (records 17 read_numbers) (answer (reads_reading first (length out.old)) s.now))
        out.old }
{
    reads::read_many(s, first, out).into()
}

impl From<Result<FlowPosition, Refusal>> for Flow {
    ghost use Rattle.reading.specs.Answers.{answer_of};
    ghost use Rattle.capi.specs.Sff.{as_flow};

    ghost from_gives = { λ r a. a ≡ as_flow (answer_of r) };

    fn from(found: Result<FlowPosition, Refusal>) -> Flow {
        match found {
            Ok(position) => Flow {
                refusal: 0,
                flow: position.0,
            },
            Err(refusal) => Flow {
                refusal: refusal.into(),
                ..Flow::default()
            },
        }
    }
}

// The flow of a base of read k.
#[unsafe(no_mangle)]
pub extern "C" fn jt_sff_flow_of_base(s: &[u8], k: u64, base: u64) -> Flow
    ensures { result ≡ as_flow (answer (flow_reading k (record { 0 = base })) s.now) }
{
    flow::flow_of_base(s, k, BasePosition(base)).into()
}
