// The call that writes an ABIF file.
ghost use Rattle.std.specs.Prelude.{◌≡◌, [], length};
ghost use Rattle.reading.specs.Check.{answer, map_answer};
ghost use Rattle.reading.specs.Lent.{filled};
ghost use Rattle.abif_write.specs.Item.{lent_records};
ghost use Rattle.abif_write.specs.Write.{writing};
ghost use Rattle.capi.specs.Answers.{as_written};

use crate::answers::Written;
use abif_write::item::LentItems;
use abif_write::write;

// The file of the items that the lent records name, at the front of the output; record i of an item is element i of each of the first six slices.
#[unsafe(no_mangle)]
pub extern "C" fn jt_abif_write(
    names: &[u32],
    numbers: &[i32],
    types: &[i16],
    counts: &[u32],
    starts: &[u64],
    lengths: &[u64],
    buffer: &[u8],
    out: &mut [u8],
) -> Written
    ensures value { result ≡ as_written (map_answer length
        (answer
        (writing (lent_records names.entry numbers.entry types.entry counts.entry starts.entry lengths.entry) buffer.now
        (length out.old)) [])) }
    ensures out_after { out.new ≡ filled
        (answer
        (writing (lent_records names.entry numbers.entry types.entry counts.entry starts.entry lengths.entry) buffer.now
        (length out.old)) [])
        out.old }
{
    let items = LentItems {
        names,
        numbers,
        types,
        counts,
        starts,
        lengths,
        buffer,
    };
    write::write(&items, out).into()
}
