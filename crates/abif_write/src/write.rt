// Writing an ABIF file.
ghost use Rattle.std.specs.Prelude.{◌≡◌, [], length};
ghost use Rattle.reading.specs.Answers.{answer_of};
ghost use Rattle.reading.specs.Check.{answer, map_answer};
ghost use Rattle.reading.specs.Lent.{filled};
ghost use Rattle.abif_write.specs.Item.{records_of, item_at};
ghost use Rattle.abif_write.specs.Private.{Accepted};
ghost use Rattle.abif_write.specs.File.{file_check};
ghost use Rattle.abif_write.specs.Write.{writing};

use crate::file::{directory_place, put_file};
use crate::item::LentItems;
use reading::refusal::Refusal;

// Writes items that have passed their checks. The last checks too are made before the first byte is written.
fn write_accepted(items: &LentItems, out: &mut [u8]) -> Result<usize, Refusal>
    requires { Accepted (records_of items.now) items.now.buffer.now }
    ensures result_value { answer_of result ≡ map_answer length
        (answer (file_check (item_at (records_of items.now)) items.now.buffer.now (length items.now.names.now) (length out.old)) []) }
    ensures out_after { out.new ≡ filled
        (answer (file_check (item_at (records_of items.now)) items.now.buffer.now (length items.now.names.now) (length out.old)) [])
        out.old }
{
    let n = items.names.len();
    if 999 < n {
        return Err(Refusal::TooManyEntries);
    }
    let place = directory_place(items);
    let end = place + 28 * n;
    if 2147483647 < end {
        return Err(Refusal::BadSize);
    }
    if out.len() < end {
        return Err(Refusal::NoRoom);
    }
    put_file(items, out, place);
    Ok(end)
}

// Writes the file of the items that the lent records name to the front of the output.
pub fn write(items: &LentItems, out: &mut [u8]) -> Result<usize, Refusal>
    ensures result_value { answer_of result ≡ map_answer length
        (answer (writing (records_of items.now) items.now.buffer.now (length out.old)) []) }
    ensures out_after { out.new ≡ filled
        (answer (writing (records_of items.now) items.now.buffer.now (length out.old)) []) out.old }
{
    if !items.same_lengths() {
        return Err(Refusal::BadSize);
    }
    items.items_tests()?;
    write_accepted(items, out)
}
