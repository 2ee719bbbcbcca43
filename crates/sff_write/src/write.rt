// The writer's calls. What has been written is told by a state that goes in and comes back; any state may be handed in.
ghost use Rattle.std.specs.Prelude.{◌≡◌, [], ◌<◌, length};
ghost use Rattle.reading.specs.Answers.{answer_of};
ghost use Rattle.reading.specs.Check.{map_answer, answer};
ghost use Rattle.sff_write.specs.Read.{read_of};
ghost use Rattle.sff_write.specs.Private.{Fitting};
ghost use Rattle.sff_write.specs.Write.{behind, written_at, beginning, adding_fit, adding, finishing};

use crate::header::put_header;
use crate::read::GivenRead;
use reading::refusal::Refusal;
use sff_fields::header::FRONT_LENGTH;
use sff_fields::padding::padding_behind;
use sff_fields::read_contents::contents_hold;

// The state of a file that is being written: the stated number of reads, how many of them are written, how many flows each has, and the place
// behind what is written.
#[derive(Clone, Copy)]
pub struct Writer {
    pub reads: u64,
    pub written: u64,
    pub flows: u64,
    pub at: usize,
}

// Writes the header of a file of so many reads.
pub fn begin(reads: u32, letters: &[u8], key: &[u8], out: &mut [u8]) -> Result<Writer, Refusal>
    ensures result_value { answer_of result
        ≡ map_answer behind (answer (beginning reads letters.now key.now (length out.old)) []) }
    ensures out_after { out.new
        ≡ written_at 0 (answer (beginning reads letters.now key.now (length out.old)) []) out.old }
{
    let n = letters.len();
    let k = key.len();
    if 65535 < n || 65535 < k {
        return Err(Refusal::BadSize);
    }
    let size = FRONT_LENGTH + n + k + padding_behind(FRONT_LENGTH + n + k);
    if 65535 < size {
        return Err(Refusal::BadSize);
    }
    if out.len() < size {
        return Err(Refusal::NoRoom);
    }
    put_header(out, reads, letters, key);
    Ok(Writer {
        reads: reads as u64,
        written: 0,
        flows: n as u64,
        at: size,
    })
}

// The read's contents, then the room.
fn add_fitting(w: Writer, read: &GivenRead, out: &mut [u8]) -> Result<Writer, Refusal>
    requires reads_left { w.written < w.reads }
    requires fitting { Fitting w.flows (read_of read.now) }
    ensures result_value { answer_of result ≡ map_answer behind (answer (adding_fit w (read_of read.now) (length out.old)) []) }
    ensures out_after { out.new ≡ written_at w.at (answer (adding_fit w (read_of read.now) (length out.old)) []) out.old }
{
    let at = w.at;
    let n = read.flows.len();
    let d = read.header_at(at);
    if !contents_hold(d, n as u16, read.steps) {
        return Err(Refusal::Forbidden);
    }
    let data = 2 * n + 3 * read.letters.len();
    let size = d.header_length as usize + data + padding_behind(data);
    if out.len() < size || out.len() - size < at {
        return Err(Refusal::NoRoom);
    }
    read.put(out, at, d);
    Ok(Writer {
        reads: w.reads,
        written: w.written + 1,
        flows: w.flows,
        at: at + size,
    })
}

// Writes the next read behind what is written.
pub fn add(w: Writer, read: &GivenRead, out: &mut [u8]) -> Result<Writer, Refusal>
    ensures result_value { answer_of result ≡ map_answer behind (answer (adding w (read_of read.now) (length out.old)) []) }
    ensures out_after { out.new ≡ written_at w.at (answer (adding w (read_of read.now) (length out.old)) []) out.old }
{
    if w.reads <= w.written || !read.lengths_hold(w.flows) {
        return Err(Refusal::BadSize);
    }
    add_fitting(w, read, out)
}

// The file's length, once all reads are written.
pub fn finish(w: Writer) -> Result<usize, Refusal>
    ensures { answer_of result ≡ answer (finishing w) [] }
{
    if w.written != w.reads {
        return Err(Refusal::BadSize);
    }
    Ok(w.at)
}
