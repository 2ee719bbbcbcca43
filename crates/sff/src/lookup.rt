// A read, by its number.
ghost use Rattle.std.specs.Prelude.{◌≡◌, List, ℕ, ◌+◌, ◌≤◌, ◌<◌, length};
ghost use Rattle.reading.specs.Answers.{answer_of};
ghost use Rattle.reading.specs.Check.{answer, map_answer};
ghost use Rattle.reading.specs.Part.{shown, handed_back};
ghost use Rattle.sff_fields.specs.Clips.{insert_from};
ghost use Rattle.sff_fields.specs.Read.{steps_start};
ghost use Rattle.sff.specs.Lookup.{read_contents, read_from, read_in, read_reading};
ghost use Rattle.sff_fields.specs.Parts.{read_of, span_of};

use crate::header::read_fields;
use crate::read::{frame, read_header_of};
use crate::walk::SffFile;
use reading::part::{Span, part};
use reading::refusal::Refusal;
use sff_fields::clips::{first_base, last_base};
use sff_fields::parts::{Read, ReadPart, span_of};
use sff_fields::position::BasePosition;
use sff_fields::read::{READ_FRONT_LENGTH, ReadHeader};
use sff_fields::read_contents::contents_hold;

// The letters from base m to base n, where p is the letters' start; none where m is past n.
fn insert_from(p: usize, m: usize, n: usize) -> Span
    requires { (1 ≤ m) × (p + m < 0x10000000000000000) × (n < 0x8000000000000000) }
    ensures { result ≡ insert_from p m n }
{
    if n < m {
        return Span { start: p, size: 0 };
    }
    Span {
        start: p + (m - 1),
        size: n + 1 - m,
    }
}

fn read_of(flows: u16, d: ReadHeader) -> Read
    requires { d.start < 0x8000000000000000 }
    ensures { result ≡ read_of flows d }
{
    let flows_start = d.start + d.header_length as usize;
    let steps_start = flows_start + 2 * flows as usize;
    let letters_start = steps_start + d.bases as usize;
    let first = first_base(d);
    let last = last_base(d);
    let insert = insert_from(letters_start, first, last);
    Read {
        start: d.start,
        name_start: d.start + READ_FRONT_LENGTH,
        name_length: d.name_length,
        flows,
        bases: d.bases,
        quality_left: d.quality_left,
        quality_right: d.quality_right,
        adapter_left: d.adapter_left,
        adapter_right: d.adapter_right,
        flows_start,
        steps_start,
        letters_start,
        qualities_start: letters_start + d.bases as usize,
        first: BasePosition(first as u64),
        last: BasePosition(last as u64),
        insert_start: insert.start,
        insert_length: insert.size,
    }
}

// The contents of a read that is there.
fn read_present(l: &[u8], flows: u16, d: ReadHeader) -> Result<Read, Refusal>
    requires { steps_start flows d + d.bases ≤ length l.now }
    ensures { (s : List ℕ) → answer_of result ≡ answer (read_contents flows d l.now) s }
{
    let start = d.start + d.header_length as usize + 2 * flows as usize;
    let end = start + d.bases as usize;
    if !contents_hold(d, flows, &l[start..end]) {
        return Err(Refusal::Forbidden);
    }
    Ok(read_of(flows, d))
}

pub(crate) fn read_from(s: &[u8], flows: u16, p: usize) -> Result<Read, Refusal>
    requires { p ≤ length s.now }
    ensures { answer_of result ≡ answer (read_from flows p) s.now }
{
    let end = frame(s, flows, p)?;
    let fixed = p + READ_FRONT_LENGTH;
    let d = read_header_of(&s[p..fixed], p);
    read_present(&s[..end], flows, d)
}

fn read_in(file: SffFile<'_>, k: u64) -> Result<Read, Refusal>
    ensures { answer_of result ≡ answer (read_in file.entry.header k) file.entry.bytes.now }
{
    let before = file.walk_to(k)?;
    let here = file.skip_index(before)?;
    read_from(file.bytes, file.header.flows, here.position)
}

// Read number k, from one.
pub fn read_number(s: &[u8], k: u64) -> Result<Read, Refusal>
    ensures { answer_of result ≡ answer (read_reading k) s.now }
{
    let header = read_fields(s)?;
    read_in(SffFile { bytes: s, header }, k)
}

// A part of read k, as a part of the caller's bytes; the empty part at their start where the read is refused.
pub fn read_part(s: &[u8], k: u64, which: ReadPart) -> &[u8]
    ensures { shown result ≡ handed_back (shown s.entry) (map_answer (span_of which) (answer (read_reading k) s.now)) }
{
    let Ok(r) = read_number(s, k) else {
        return part(s, 0, 0);
    };
    let q = span_of(which, r);
    part(s, q.start, q.size)
}
