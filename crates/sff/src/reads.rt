// Reads, many at once.
ghost use Rattle.std.specs.Prelude.{◌≡◌, ◌++◌, ◌+◌, ◌-◌, ◌*◌, ◌≤◌, ◌<◌, length, drop};
ghost use Rattle.reading.specs.Check.{passed, ok, run, answer, map_answer};
ghost use Rattle.reading.specs.Lent.{filled};
ghost use Rattle.reading.specs.Bulk.{records};
ghost use Rattle.reading.specs.Answers.{answer_of};
ghost use Rattle.sff_fields.specs.Parts.{record_width, read_numbers};
ghost use Rattle.sff.specs.Walk.{Passage, next_read, walk as walking};
ghost use Rattle.sff.specs.Reads.{reads_from, reads_in, reads_reading};
ghost use Rattle.sff.specs.Private.{Passes, recorded};

use crate::header::read_fields;
use crate::lookup::read_from;
use crate::walk::{Boundary, Placed, SffFile};
use reading::refusal::Refusal;
use sff_fields::record::{RECORD_WIDTH, put_record};

// The next read, where a walk has found it sound.
fn sound_read(file: SffFile<'_>, b: Boundary) -> Placed
    requires { (b.position ≤ length file.bytes.now)
        × ((r : Placed) × (run (next_read file.header 0 b) file.bytes.now ≡ passed r)) }
    ensures { run (next_read file.entry.header 0 b) file.entry.bytes.now ≡ passed result }
{
    file.next_read(0, b).unwrap()
}

// The records of n reads behind boundary b, which a walk has found sound, at the output's front.
fn put_reads(file: SffFile<'_>, n: usize, b: Boundary, out: &mut [u64])
    requires { (b.position ≤ length file.bytes.now) × (record_width * n ≤ length out.old)
        × Passes file.header file.bytes.now n b }
    ensures { (w : Passage) → answer (walking file.entry.header n 0 b) file.entry.bytes.now ≡ ok w
        → out.new ≡ recorded file.entry.header file.entry.bytes.now w ++ drop (record_width * n) out.old }
{
    let mut here = b;
    for i in 0..n {
        let read = sound_read(file, here);
        put_record(
            out,
            RECORD_WIDTH * i,
            read_from(file.bytes, file.header.flows, read.start),
        );
        here = read.behind;
    }
}

// The records of n sound reads behind b and of n behind c, in turns, so that neither waits for what the other loads; the boundary behind the last.
fn put_pairs(file: SffFile<'_>, n: usize, b: Boundary, c: Boundary, out: &mut [u64]) -> Boundary
    requires { (b.position ≤ length file.bytes.now) × (c.position ≤ length file.bytes.now)
        × (record_width * n + record_width * n ≤ length out.old)
        × Passes file.header file.bytes.now n b × Passes file.header file.bytes.now n c }
    ensures value { (v : Passage) → answer (walking file.entry.header n 0 c) file.entry.bytes.now ≡ ok v → result ≡ v.behind }
    ensures out_after { (w v : Passage) → answer (walking file.entry.header n 0 b) file.entry.bytes.now ≡ ok w
        → answer (walking file.entry.header n 0 c) file.entry.bytes.now ≡ ok v
        → out.new ≡ recorded file.entry.header file.entry.bytes.now w
        ++ (recorded file.entry.header file.entry.bytes.now v ++ drop (record_width * n + record_width * n) out.old) }
{
    let s = file.bytes;
    let flows = file.header.flows;
    let mut here = b;
    let mut there = c;
    for i in 0..n {
        let one = sound_read(file, here);
        let other = sound_read(file, there);
        put_record(out, RECORD_WIDTH * i, read_from(s, flows, one.start));
        put_record(
            out,
            RECORD_WIDTH * n + RECORD_WIDTH * i,
            read_from(s, flows, other.start),
        );
        here = one.behind;
        there = other.behind;
    }
    there
}

// The records of n sound reads behind b, where m of them, not more than half, stand before boundary c.
fn put_halves(file: SffFile<'_>, n: usize, m: usize, b: Boundary, c: Boundary, out: &mut [u64])
    requires { (b.position ≤ length file.bytes.now) × (c.position ≤ length file.bytes.now)
        × (m + m ≤ n) × (record_width * n ≤ length out.old)
        × ((w : Passage) × (answer (walking file.header m 0 b) file.bytes.now ≡ ok w) × (w.behind ≡ c))
        × Passes file.header file.bytes.now (n - m) c }
    ensures { (w : Passage) → answer (walking file.entry.header n 0 b) file.entry.bytes.now ≡ ok w
        → out.new ≡ recorded file.entry.header file.entry.bytes.now w ++ drop (record_width * n) out.old }
{
    let behind = put_pairs(file, m, b, c, out);
    let start = RECORD_WIDTH * m + RECORD_WIDTH * m;
    put_reads(file, n - m - m, behind, &mut out[start..]);
}

// The n reads from read i on, counted from 0: walked to the last of them, then written.
fn reads_from(file: SffFile<'_>, n: usize, i: usize, out: &mut [u64]) -> Result<u64, Refusal>
    requires { (i + n < 0x8000000000000000) × (record_width * n ≤ length out.old) }
    ensures result_value { answer_of result ≡ map_answer length (answer (reads_from file.entry.header n i) file.entry.bytes.now) }
    ensures out_after { out.new
        ≡ filled (map_answer (records record_width read_numbers) (answer (reads_from file.entry.header n i) file.entry.bytes.now)) out.old }
{
    let half = n / 2;
    let b = file.walk_first(i)?;
    let c = file.walk(half, i, b)?;
    file.walk(n - half, i + half, c)?;
    put_halves(file, n, half, b, c, out);
    Ok(n as u64)
}

fn reads_in(file: SffFile<'_>, first: u64, out: &mut [u64]) -> Result<u64, Refusal>
    ensures result_value { answer_of result
        ≡ map_answer length (answer (reads_in file.entry.header first (length out.old)) file.entry.bytes.now) }
    ensures out_after { out.new ≡ filled (map_answer (records record_width read_numbers)
        (answer (reads_in file.entry.header first (length out.old)) file.entry.bytes.now)) out.old }
{
    let reads = file.header.reads;
    if first < 1 || (reads as u64) < first {
        return Err(Refusal::NotThere);
    }
    if out.len() < RECORD_WIDTH {
        return Err(Refusal::NoRoom);
    }
    let before = (first - 1) as usize;
    let n = (reads as usize - before).min(out.len() / RECORD_WIDTH);
    reads_from(file, n, before, out)
}

// The reads from number `first` on, as many as are left and as fit, at the output's front: 17 numbers for each.
pub fn read_many(s: &[u8], first: u64, out: &mut [u64]) -> Result<u64, Refusal>
    ensures result_value { answer_of result ≡ map_answer length (answer (reads_reading first (length out.old)) s.now) }
    ensures out_after { out.new
        ≡ filled (map_answer (records record_width read_numbers) (answer (reads_reading first (length out.old)) s.now)) out.old }
{
    let header = read_fields(s)?;
    reads_in(SffFile { bytes: s, header }, first, out)
}
