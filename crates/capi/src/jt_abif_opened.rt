// The ABIF calls of an opened file, whose directory has this place and count: opening's checks are made first, and a place or count other than opening's is 4.
ghost use Rattle.std.specs.Prelude.{◌≡◌, length};
ghost use Rattle.reading.specs.Number.{bits};
ghost use Rattle.reading.specs.Check.{answer, map_answer};
ghost use Rattle.reading.specs.Lent.{filled};
ghost use Rattle.abif.specs.Lookup.{looking_up};
ghost use Rattle.abif_elements.specs.Element.{element_reading};
ghost use Rattle.abif_elements.specs.Text.{text_reading};
ghost use Rattle.abif_file.specs.List.{listing};
ghost use Rattle.abif_file.specs.Opened.{of_opened};
ghost use Rattle.capi.specs.Answers.{as_item, as_part, as_listed};
ghost use Rattle.capi.specs.Abif.{as_element};

use crate::answers::{Element, Item, Listed, Part};
use abif::tag::Tag;
use abif_file::entry::RawEntry;
use abif_file::file::AbifFile;

// The opened file that C's arguments stand for.
fn opened<'a>(bytes: &'a [u8], place: u64, count: u64) -> AbifFile<'a>
    ensures { result ≡ record { bytes = bytes.entry; place = place; count = count } }
{
    AbifFile {
        bytes,
        place,
        count,
    }
}

// The item with this tag.
#[unsafe(no_mangle)]
pub extern "C" fn jt_abif_lookup_opened(
    s: &[u8],
    place: u64,
    count: u64,
    name: u32,
    number: i32,
) -> Item
    ensures { result ≡ as_item (answer (of_opened place count (looking_up name (bits 4 number))) s.now) }
{
    opened(s, place, count).lookup(Tag { name, number }).into()
}

// Element number `index`, from one, of the item with this tag.
#[unsafe(no_mangle)]
pub extern "C" fn jt_abif_element_opened(
    s: &[u8],
    place: u64,
    count: u64,
    name: u32,
    number: i32,
    index: u64,
) -> Element
    ensures { result ≡ as_element (answer (of_opened place count (element_reading name (bits 4 number) index)) s.now) }
{
    opened(s, place, count)
        .read_element(Tag { name, number }, index)
        .into()
}

// Where the text of the item with this tag stands.
#[unsafe(no_mangle)]
pub extern "C" fn jt_abif_text_opened(
    s: &[u8],
    place: u64,
    count: u64,
    name: u32,
    number: i32,
) -> Part
    ensures { result ≡ as_part (answer (of_opened place count (text_reading name (bits 4 number))) s.now) }
{
    opened(s, place, count)
        .read_text(Tag { name, number })
        .into()
}

// All entries, in file order, at the front of the lent list, or a refusal that leaves it as it was.
#[unsafe(no_mangle)]
pub extern "C" fn jt_abif_list_opened(
    s: &[u8],
    place: u64,
    count: u64,
    out: &mut [RawEntry],
) -> Listed
    ensures { (result ≡ as_listed (map_answer length (answer (of_opened place count (listing (length out.old))) s.now)))
        × (out.new ≡ filled (answer (of_opened place count (listing (length out.old))) s.now) out.old) }
{
    opened(s, place, count).list(out).into()
}
