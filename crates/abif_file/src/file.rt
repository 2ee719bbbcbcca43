// The opened file as a struct: its bytes, lent, with its directory's place and count. A file that was made by hand, of any numbers, is as safe as one
// that opening gave.
ghost use Rattle.std.specs.Prelude.{◌≡◌, length};
ghost use Rattle.reading.specs.Number.{bits};
ghost use Rattle.reading.specs.Check.{answer, map_answer};
ghost use Rattle.reading.specs.Lent.{filled};
ghost use Rattle.reading.specs.Part.{shown, handed_back};
ghost use Rattle.reading.specs.Item.{data_span};
ghost use Rattle.reading.specs.Answers.{answer_of};
ghost use Rattle.abif.specs.Lookup.{looking_up};
ghost use Rattle.abif_elements.specs.Element.{element_reading};
ghost use Rattle.abif_elements.specs.Answers.{answer_of_element};
ghost use Rattle.abif_elements.specs.Text.{text_reading};
ghost use Rattle.abif_file.specs.List.{listing};
ghost use Rattle.abif_file.specs.Opened.{same_directory, of_opened};
ghost use Rattle.abif_file.specs.File.{opened_file};

use crate::entry::RawEntry;
use crate::list;
use abif::tag::Tag;
use abif::{directory, lookup};
use abif_elements::element::Element;
use abif_elements::{element, text};
use reading::item::ItemData;
use reading::part::{Span, part};
use reading::refusal::Refusal;

// An opened file.
#[derive(Clone, Copy)]
pub struct AbifFile<'a> {
    pub bytes: &'a [u8],
    pub place: u64,
    pub count: u64,
}

impl<'a> AbifFile<'a> {
    // The opened file. Where opening is refused, it has place and count 0, since this never fails: `directory::open` gives the refusal, and so does
    // every later call.
    pub fn open(s: &'a [u8]) -> AbifFile<'a>
        ensures { result ≡ opened_file s.entry }
    {
        match directory::open(s) {
            Ok(d) => AbifFile {
                bytes: s,
                place: d.place as u64,
                count: d.count as u64,
            },
            Err(_) => AbifFile {
                bytes: s,
                place: 0,
                count: 0,
            },
        }
    }

    // The place and count are those that opening gives.
    fn same_directory(self) -> Result<(), Refusal>
        ensures { answer_of result ≡ answer (same_directory self.entry.place self.entry.count) self.entry.bytes.now }
    {
        let d = directory::open(self.bytes)?;
        if self.place != d.place as u64 || self.count != d.count as u64 {
            return Err(Refusal::BadHeader);
        }
        Ok(())
    }

    // The item with this tag.
    #[tactic(auto, using(crate::proofs::opened::Laws::later_refused, crate::proofs::opened::Laws::later_same))]
    pub fn lookup(self, tag: Tag) -> Result<ItemData, Refusal>
        ensures { answer_of result ≡ answer (of_opened self.entry.place self.entry.count (looking_up tag.name (bits 4 tag.number))) self.entry.bytes.now }
    {
        // first, so that another place or count is told even where there is no such tag
        self.same_directory()?;
        lookup::lookup(self.bytes, tag)
    }

    // The data of a tag, as a part of the file's bytes; the empty part at their start where lookup refuses.
    pub fn data_part(self, tag: Tag) -> &'a [u8]
        ensures { shown result ≡ handed_back (shown self.entry.bytes)
            (map_answer data_span (answer (of_opened self.entry.place self.entry.count (looking_up tag.name (bits 4 tag.number))) self.entry.bytes.now)) }
    {
        match self.same_directory() {
            Ok(()) => lookup::data_part(self.bytes, tag),
            Err(_) => part(self.bytes, 0, 0),
        }
    }

    // Element number `index`, from one, of the item with this tag.
    pub fn read_element(self, tag: Tag, index: u64) -> Result<Element, Refusal>
        ensures { answer_of_element result ≡ answer (of_opened self.entry.place self.entry.count (element_reading tag.name (bits 4 tag.number) index)) self.entry.bytes.now }
    {
        self.same_directory()?;
        element::read_element(self.bytes, tag, index)
    }

    // Where the text of the item with this tag stands.
    pub fn read_text(self, tag: Tag) -> Result<Span, Refusal>
        ensures { answer_of result ≡ answer (of_opened self.entry.place self.entry.count (text_reading tag.name (bits 4 tag.number))) self.entry.bytes.now }
    {
        self.same_directory()?;
        text::read_text(self.bytes, tag)
    }

    // The text as a part of the file's bytes; the empty part at their start where it is refused.
    pub fn text_part(self, tag: Tag) -> &'a [u8]
        ensures { shown result ≡ handed_back (shown self.entry.bytes)
            (answer (of_opened self.entry.place self.entry.count (text_reading tag.name (bits 4 tag.number))) self.entry.bytes.now) }
    {
        match self.same_directory() {
            Ok(()) => text::text_part(self.bytes, tag),
            Err(_) => part(self.bytes, 0, 0),
        }
    }

    // All entries, in file order, at the front of the lent list, or a refusal that leaves it as it was.
    pub fn list(self, out: &mut [RawEntry]) -> Result<u64, Refusal>
        ensures { (answer_of result ≡ map_answer length
            (answer (of_opened self.entry.place self.entry.count (listing (length out.old))) self.entry.bytes.now))
            × (out.new ≡ filled (answer (of_opened self.entry.place self.entry.count (listing (length out.old))) self.entry.bytes.now)
            out.old) }
    {
        self.same_directory()?;
        list::list(self.bytes, out)
    }
}
