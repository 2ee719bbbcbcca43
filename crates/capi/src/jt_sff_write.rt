// The calls that write an SFF file. The state goes in and comes back; its `refusal` is not looked at.
ghost use Rattle.std.specs.Prelude.{◌≡◌, [], length};
ghost use Rattle.reading.specs.Check.{answer, map_answer};
ghost use Rattle.sff_write.specs.Read.{lent_read};
ghost use Rattle.sff_write.specs.Write.{behind, written_at, beginning, adding, finishing};
ghost use Rattle.reading.specs.Answers.{answer_of};
ghost use Rattle.capi.specs.Answers.{as_written};
ghost use Rattle.capi.specs.SffWrite.{state_of, as_writer, as_added, clips_of};

use crate::answers::{SffWriter, Written};
use reading::refusal::Refusal;
use sff_write::read::{Clips, GivenRead};
use sff_write::write;

impl From<SffWriter> for write::Writer {
    ghost use Rattle.capi.specs.SffWrite.{state_of};

    ghost from_gives = { λ w a. a ≡ state_of w };

    fn from(w: SffWriter) -> write::Writer {
        write::Writer {
            reads: w.reads,
            written: w.written,
            flows: w.flows,
            at: w.at as usize,
        }
    }
}

impl From<write::Writer> for SffWriter {
    ghost use Rattle.capi.specs.SffWrite.{writer_struct};

    ghost from_gives = { λ w a. a ≡ writer_struct w };

    fn from(w: write::Writer) -> SffWriter {
        SffWriter {
            refusal: 0,
            reads: w.reads,
            written: w.written,
            flows: w.flows,
            at: w.at as u64,
        }
    }
}

impl From<Result<write::Writer, Refusal>> for SffWriter {
    ghost use Rattle.reading.specs.Answers.{answer_of};
    ghost use Rattle.capi.specs.SffWrite.{as_writer};

    ghost from_gives = { λ r a. a ≡ as_writer (answer_of r) };

    fn from(written: Result<write::Writer, Refusal>) -> SffWriter {
        match written {
            Ok(w) => w.into(),
            Err(refusal) => SffWriter {
                refusal: refusal.into(),
                ..SffWriter::default()
            },
        }
    }
}

// The header of a file of so many reads, at the front of the output.
#[unsafe(no_mangle)]
pub extern "C" fn jt_sff_begin(
    reads: u32,
    flow_letters: &[u8],
    key_letters: &[u8],
    out: &mut [u8],
) -> SffWriter
    ensures value { result ≡ as_writer (map_answer behind
        (answer (beginning reads flow_letters.now key_letters.now (length out.old)) [])) }
    ensures out_after { out.new ≡ written_at 0
        (answer (beginning reads flow_letters.now key_letters.now (length out.old)) [])
        out.old }
{
    write::begin(reads, flow_letters, key_letters, out).into()
}

// A refused read leaves the state as it was, so that the next call may go on. No `From`, since the refusal does not hold that state.
fn as_added(w: SffWriter, added: Result<write::Writer, Refusal>) -> SffWriter
    ensures { result ≡ as_added w (answer_of added) }
{
    match added {
        Ok(behind) => behind.into(),
        Err(refusal) => SffWriter {
            refusal: refusal.into(),
            ..w
        },
    }
}

// The next read, behind what is written.
#[unsafe(no_mangle)]
pub extern "C" fn jt_sff_add(
    w: SffWriter,
    name: &[u8],
    flows: &[u16],
    steps: &[u8],
    letters: &[u8],
    qualities: &[u8],
    quality_left: u64,
    quality_right: u64,
    adapter_left: u64,
    adapter_right: u64,
    out: &mut [u8],
) -> SffWriter
    ensures value { result ≡ as_added w (map_answer behind
        (answer
        (adding (state_of w)
        (lent_read name.entry flows.entry steps.entry letters.entry qualities.entry
        (clips_of quality_left quality_right adapter_left adapter_right))
        (length out.old)) [])) }
    ensures out_after { out.new ≡ written_at w.at
        (answer
        (adding (state_of w)
        (lent_read name.entry flows.entry steps.entry letters.entry qualities.entry
        (clips_of quality_left quality_right adapter_left adapter_right))
        (length out.old)) [])
        out.old }
{
    let clips = Clips {
        quality_left,
        quality_right,
        adapter_left,
        adapter_right,
    };
    let read = GivenRead {
        name,
        flows,
        steps,
        letters,
        qualities,
        clips,
    };
    as_added(w, write::add(w.into(), &read, out))
}

// The length of the file, where as many reads are written as were stated.
#[unsafe(no_mangle)]
pub extern "C" fn jt_sff_finish(w: SffWriter) -> Written
    ensures { result ≡ as_written (answer (finishing (state_of w)) []) }
{
    write::finish(w.into()).into()
}
