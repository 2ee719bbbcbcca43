// The bytes of a directory entry and of the header.
ghost use Rattle.std.specs.Prelude.{◌≡◌, ◌+◌, ◌≤◌, ◌<◌, length};
ghost use Rattle.writing.specs.Put.{put};
ghost use Rattle.abif_write.specs.Entry.{tag_bytes, data_bytes, entry_bytes, header_bytes, offset_field, entry_for};

use crate::item::{Item, written_size};
use abif::directory::{ABIF_MARK, TDIR_NAME};
use abif::entry::Entry;
use reading::number::be32;
use writing::bytes::{copy, put_zeros};

// Data of 4 bytes or fewer, padded with zeros, or the place x of others. It is lent buffer and item, as the definition is, and not the item's bytes.
fn offset_field(buffer: &[u8], d: Item, x: u32) -> u32
    requires { d.start + d.size ≤ length buffer.now }
    ensures { result ≡ offset_field buffer.now d x }
{
    if d.size <= 4 {
        let start = d.start;
        let end = start + d.size;
        return be32(&buffer[start..end], 0);
    }
    x
}

// The entry, at this place, of an item whose data, if over 4 bytes, stand at place x.
pub(crate) fn entry_for(buffer: &[u8], d: Item, place: u32, x: u32) -> Entry
    requires { (d.start + d.size ≤ length buffer.now) × (d.size < 0x80000000) }
    ensures { result ≡ entry_for buffer.now d place x }
{
    Entry {
        place,
        name: d.name,
        number: d.number.cast_unsigned(),
        element_type: d.element_type,
        element_size: written_size(d.element_type),
        element_count: d.count,
        data_size: d.size as u32,
        data_offset: offset_field(buffer, d, x),
    }
}

fn put_tag(out: &mut [u8], d: Entry)
    requires { d.place + 12 ≤ length out.old }
    ensures { out.new ≡ put out.old d.place (tag_bytes d) }
{
    let p = d.place as usize;
    copy(out, p, &d.name.to_be_bytes());
    copy(out, p + 4, &d.number.to_be_bytes());
    copy(out, p + 8, &d.element_type.to_be_bytes());
    copy(out, p + 10, &d.element_size.to_be_bytes());
}

fn put_data_fields(out: &mut [u8], d: Entry)
    requires { d.place + 28 ≤ length out.old }
    ensures { out.new ≡ put out.old (d.place + 12) (data_bytes d) }
{
    let p = d.place as usize + 12;
    copy(out, p, &d.element_count.to_be_bytes());
    copy(out, p + 4, &d.data_size.to_be_bytes());
    copy(out, p + 8, &d.data_offset.to_be_bytes());
    put_zeros(out, p + 12, 4);
}

// Writes an entry at its place.
pub(crate) fn put_entry(out: &mut [u8], d: Entry)
    requires { d.place + 28 ≤ length out.old }
    ensures { out.new ≡ put out.old d.place (entry_bytes d) }
{
    put_tag(out, d);
    put_data_fields(out, d);
}

// The version that is written.
const VERSION: u16 = 101;

// Writes the header of a file with n entries at this place.
pub(crate) fn put_header(out: &mut [u8], n: u32, place: u32)
    requires { (128 ≤ length out.old) × (n ≤ 999) }
    ensures { out.new ≡ put out.old 0 (header_bytes n place) }
{
    copy(out, 0, &ABIF_MARK.to_be_bytes());
    copy(out, 4, &VERSION.to_be_bytes());
    let d = Entry {
        place: 6,
        name: TDIR_NAME,
        number: 1,
        element_type: 1023,
        element_size: 28,
        element_count: n,
        data_size: 28 * n,
        data_offset: place,
    };
    put_entry(out, d);
    put_zeros(out, 34, 94);
}
