// The file: the header, the data, and the directory behind them.
ghost use Rattle.std.specs.Prelude.{◌≡◌, ◌+◌, ◌*◌, ◌≤◌, ◌<◌, length};
ghost use Rattle.writing.specs.Put.{put};
ghost use Rattle.abif_write.specs.Item.{records_of, item_at};
ghost use Rattle.abif_write.specs.Private.{Accepted};
ghost use Rattle.abif_write.specs.File.{data_outside, size_outside, all_data, entries, directory_place, file};

use crate::entry::{entry_for, put_entry, put_header};
use crate::item::{Item, LentItems};
use writing::bytes::copy;

// How many of an item's bytes stand outside its entry.
fn size_outside(size: usize) -> usize
    ensures { result ≡ size_outside size }
{
    if size <= 4 { 0 } else { size }
}

// Where the directory stands.
pub(crate) fn directory_place(items: &LentItems) -> usize
    requires accepted { Accepted (records_of items.now) items.now.buffer.now }
    requires few { length items.now.names.now ≤ 999 }
    ensures { (result ≡ directory_place (item_at (records_of items.now)) (length items.now.names.now)) × (result < 0x20000000000) }
{
    let mut x = 128;
    for i in 0..items.names.len() {
        x += size_outside(items.item_at(i).size);
    }
    x
}

// Copies an item's data of more than 4 bytes to place p.
fn put_data(out: &mut [u8], p: usize, buffer: &[u8], d: Item)
    requires { (d.start + d.size ≤ length buffer.now) × (p ≤ length out.old) }
    ensures { out.new ≡ put out.old p (data_outside buffer.now d) }
{
    if d.size <= 4 {
        return;
    }
    let start = d.start;
    let end = start + d.size;
    copy(out, p, &buffer[start..end]);
}

fn put_datas(items: &LentItems, out: &mut [u8])
    requires accepted { Accepted (records_of items.now) items.now.buffer.now }
    requires has_room { 128 + length (all_data (item_at (records_of items.now)) items.now.buffer.now (length items.now.names.now) 0) ≤ length out.old }
    ensures { out.new ≡ put out.old 128 (all_data (item_at (records_of items.now)) items.now.buffer.now (length items.now.names.now) 0) }
{
    let mut at = 128;
    for i in 0..items.names.len() {
        let d = items.item_at(i);
        put_data(out, at, items.buffer, d);
        at += size_outside(d.size);
    }
}

fn put_entries(items: &LentItems, out: &mut [u8], place: usize)
    requires accepted { Accepted (records_of items.now) items.now.buffer.now }
    requires has_room { place + 28 * length items.now.names.now ≤ length out.old }
    requires place_fits { place + 28 * length items.now.names.now < 0x100000000 }
    requires data_fit { directory_place (item_at (records_of items.now)) (length items.now.names.now) < 0x80000000 }
    ensures { out.new ≡ put out.old place
        (entries (item_at (records_of items.now)) items.now.buffer.now place (length items.now.names.now) 0 128) }
{
    let mut x = 128;
    for i in 0..items.names.len() {
        let d = items.item_at(i);
        let e = entry_for(items.buffer, d, (place + 28 * i) as u32, x as u32);
        put_entry(out, e);
        x += size_outside(d.size);
    }
}

// Writes the file, of which all is known to fit.
pub(crate) fn put_file(items: &LentItems, out: &mut [u8], place: usize)
    requires accepted { Accepted (records_of items.now) items.now.buffer.now }
    requires directory_fits { (length items.now.names.now ≤ 999)
        × (place ≡ directory_place (item_at (records_of items.now)) (length items.now.names.now))
        × (place < 0x80000000) × (place + 28 * length items.now.names.now ≤ length out.old) }
    ensures { out.new ≡ put out.old 0 (file (item_at (records_of items.now)) items.now.buffer.now (length items.now.names.now)) }
{
    put_header(out, items.names.len() as u32, place as u32);
    put_datas(items, out);
    put_entries(items, out, place);
}
