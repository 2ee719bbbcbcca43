// The raw entries of the directory.
ghost use Rattle.std.specs.Prelude.{◌≡◌, ◌+◌, ◌*◌, ◌≤◌, length};
ghost use Rattle.reading.specs.Check.{answer};
ghost use Rattle.reading.specs.Answers.{answer_of};
ghost use Rattle.abif_file.specs.Entry.{raw_entry, entry_reading};

use abif::directory::open;
use reading::number::{be16, be32};
use reading::refusal::Refusal;

// A directory entry as it stands in the file, signed where the format is; C programs lend lists of these.
#[repr(C)]
#[derive(Clone, Copy)]
pub struct RawEntry {
    pub name: u32,
    pub number: i32,
    pub element_type: i16,
    pub element_size: i16,
    pub element_count: i32,
    pub data_size: i32,
    pub data_offset: i32,
    pub data_handle: i32,
}

// Entry i, counted from 0, of a directory at this place. A part of a fixed length is read with no test of its length, so a loop over this is fast.
pub(crate) fn raw_entry(h: &[u8], place: u32, i: usize) -> RawEntry
    requires { place + 28 * i + 28 ≤ length h.now }
    ensures { result ≡ raw_entry h.now (place + 28 * i) }
{
    let p = place as usize + 28 * i;
    let end = p + 28;
    let e = &h[p..end];
    RawEntry {
        name: be32(e, 0),
        number: be32(e, 4).cast_signed(),
        element_type: be16(e, 8).cast_signed(),
        element_size: be16(e, 10).cast_signed(),
        element_count: be32(e, 12).cast_signed(),
        data_size: be32(e, 16).cast_signed(),
        data_offset: be32(e, 20).cast_signed(),
        data_handle: be32(e, 24).cast_signed(),
    }
}

// Entry number `index`, from one, of the directory.
pub fn entry(s: &[u8], index: u64) -> Result<RawEntry, Refusal>
    ensures { answer_of result ≡ answer (entry_reading index) s.now }
{
    let d = open(s)?;
    if index < 1 || (d.count as u64) < index {
        return Err(Refusal::NotThere);
    }
    let end = d.place as usize + 28 * d.count as usize;
    let i = (index - 1) as usize;
    Ok(raw_entry(&s[..end], d.place, i))
}
