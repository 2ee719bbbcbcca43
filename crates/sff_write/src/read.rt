// A read: what it is checked for, and its bytes.
ghost use Rattle.std.specs.Prelude.{◌≡◌, List, ◌++◌, ℕ, ◌+◌, ◌≤◌, length, replicate};
ghost use Rattle.reading.specs.Choice.{pick};
ghost use Rattle.reading.specs.Check.{answer, ok, refused};
ghost use Rattle.writing.specs.Put.{put};
ghost use Rattle.sff_write.specs.Read.{name_fits, clips_fit, length_bytes, clip_bytes, field_bytes};

use sff_fields::padding::padding_behind;
use sff_fields::read::{READ_FRONT_LENGTH, ReadHeader};
use writing::bytes::{copy, put_zeros};
use writing::number::put_words;

// The clips of a read, from one; 0 for none.
#[derive(Clone, Copy)]
pub struct Clips {
    pub quality_left: u64,
    pub quality_right: u64,
    pub adapter_left: u64,
    pub adapter_right: u64,
}

// A read that the writer is given: its name, flow values, flow steps, letters, qualities and clips.
#[derive(Clone, Copy)]
pub struct GivenRead<'a> {
    pub name: &'a [u8],
    pub flows: &'a [u16],
    pub steps: &'a [u8],
    pub letters: &'a [u8],
    pub qualities: &'a [u8],
    pub clips: Clips,
}

fn clips_fit(c: Clips) -> bool
    ensures { (l : List ℕ) → pick result (ok tt) (refused 9 0) ≡ answer (clips_fit c) l }
{
    c.quality_left <= 65535
        && c.quality_right <= 65535
        && c.adapter_left <= 65535
        && c.adapter_right <= 65535
}

// The length of the header of a read whose name has n bytes fits its field.
fn name_fits(n: usize) -> bool
    ensures { (l : List ℕ) → pick result (ok tt) (refused 9 0) ≡ answer (name_fits n) l }
{
    n <= 65535 && READ_FRONT_LENGTH + n + padding_behind(READ_FRONT_LENGTH + n) <= 65535
}

fn put_lengths(out: &mut [u8], p: usize, d: ReadHeader)
    requires { p + 16 ≤ length out.old }
    ensures { out.new ≡ put out.old p (length_bytes d) }
{
    copy(out, p, &d.header_length.to_be_bytes());
    copy(out, p + 2, &d.name_length.to_be_bytes());
    copy(out, p + 4, &d.bases.to_be_bytes());
}

fn put_clips(out: &mut [u8], p: usize, d: ReadHeader)
    requires { p + 8 ≤ length out.old }
    ensures { out.new ≡ put out.old p (clip_bytes d) }
{
    copy(out, p, &d.quality_left.to_be_bytes());
    copy(out, p + 2, &d.quality_right.to_be_bytes());
    copy(out, p + 4, &d.adapter_left.to_be_bytes());
    copy(out, p + 6, &d.adapter_right.to_be_bytes());
}

fn put_header(out: &mut [u8], p: usize, d: ReadHeader, name: &[u8], zeros: usize)
    requires { p + 16 + length name.now + zeros ≤ length out.old }
    ensures { out.new ≡ put out.old p (field_bytes d ++ (name.now ++ replicate zeros 0)) }
{
    put_lengths(out, p, d);
    let clips = p + 8;
    put_clips(out, clips, d);
    let start = p + READ_FRONT_LENGTH;
    copy(out, start, name);
    let end = start + name.len();
    put_zeros(out, end, zeros);
}

impl GivenRead<'_> {
    ghost use Rattle.sff_write.specs.Read.{read_of, lengths_check, header_for, read_header_size, read_bytes};
    ghost use Rattle.sff_write.specs.Private.{FittingClips};

    // The lengths fit their fields and agree, in a file of so many flows.
    pub(crate) fn lengths_hold(&self, flows: u64) -> bool
        ensures { (l : List ℕ) → pick result (ok tt) (refused 9 0) ≡ answer (lengths_check flows (read_of self.now)) l }
    {
        name_fits(self.name.len())
            && flows <= 65535
            && self.flows.len() as u64 == flows
            && self.steps.len() == self.letters.len()
            && self.qualities.len() == self.letters.len()
            && self.letters.len() <= 0xffff_ffff
            && clips_fit(self.clips)
    }

    // The header fields of the read where it starts at place p.
    pub(crate) fn header_at(&self, p: usize) -> ReadHeader
        requires lengths_fit { (read_header_size (length self.now.name.now) ≤ 65535) × (length self.now.letters.now ≤ 0xffffffff) }
        requires fitting_clips { FittingClips self.now.clips }
        ensures { result ≡ header_for p (read_of self.now) }
    {
        let named = READ_FRONT_LENGTH + self.name.len();
        let size = named + padding_behind(named);
        ReadHeader {
            start: p,
            header_length: size as u16,
            name_length: self.name.len() as u16,
            bases: self.letters.len() as u32,
            quality_left: self.clips.quality_left as u16,
            quality_right: self.clips.quality_right as u16,
            adapter_left: self.clips.adapter_left as u16,
            adapter_right: self.clips.adapter_right as u16,
        }
    }

    // Writes the flow steps, the letters, the qualities and the zeros behind them from place p on.
    fn put_bases(&self, out: &mut [u8], p: usize, zeros: usize)
        requires { p + length self.now.steps.now + length self.now.letters.now + length self.now.qualities.now + zeros ≤ length out.old }
        ensures { out.new
            ≡ put out.old p (self.now.steps.now ++ (self.now.letters.now ++ (self.now.qualities.now ++ replicate zeros 0))) }
    {
        copy(out, p, self.steps);
        let second = p + self.steps.len();
        copy(out, second, self.letters);
        let third = second + self.letters.len();
        copy(out, third, self.qualities);
        let last = third + self.qualities.len();
        put_zeros(out, last, zeros);
    }

    // Writes the read with this header at place p, of which all is known to fit.
    pub(crate) fn put(&self, out: &mut [u8], p: usize, d: ReadHeader)
        requires lengths_fit { (length self.now.name.now ≤ 65535) × (length self.now.flows.now ≤ 65535) × (length self.now.letters.now ≤ 0xffffffff)
            × (length self.now.steps.now ≡ length self.now.letters.now) × (length self.now.qualities.now ≡ length self.now.letters.now) }
        requires has_room { p + length (read_bytes d (read_of self.now)) ≤ length out.old }
        ensures { out.new ≡ put out.old p (read_bytes d (read_of self.now)) }
    {
        let named = READ_FRONT_LENGTH + self.name.len();
        let front = padding_behind(named);
        put_header(out, p, d, self.name, front);
        let n = self.flows.len();
        let start = p + named + front;
        put_words(out, start, self.flows);
        let bases = start + 2 * n;
        let behind = padding_behind(2 * n + 3 * self.letters.len());
        self.put_bases(out, bases, behind);
    }
}
