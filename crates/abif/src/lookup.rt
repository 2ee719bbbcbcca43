// Lookup of a tag.
ghost use Rattle.std.specs.Prelude.{◌≡◌};
ghost use Rattle.reading.specs.Number.{bits};
ghost use Rattle.reading.specs.Check.{answer, map_answer};
ghost use Rattle.reading.specs.Part.{shown, handed_back};
ghost use Rattle.reading.specs.Item.{data_span};
ghost use Rattle.reading.specs.Answers.{answer_of};
ghost use Rattle.abif.specs.Lookup.{data_of, item_of, lookup_in, looking_up};

use crate::directory::open;
use crate::entries::Entries;
use crate::entry::{Entry, entry_tests};
use crate::tag::Tag;
use reading::item::ItemData;
use reading::part::part;
use reading::refusal::Refusal;

// Data of 4 bytes or fewer are the first bytes of the entry's own offset field.
#[tactic(auto, using(std::proofs::lemmas::Bool::Decides::nat_tests), unfolding(crate::specs::Lookup::data_of))]
fn data_of(d: Entry) -> ItemData
    ensures { result ≡ data_of d }
{
    let start = if d.data_size <= 4 {
        d.place as usize + 20
    } else {
        d.data_offset as usize
    };
    ItemData {
        start,
        size: d.data_size as usize,
        code: d.element_type,
        count: d.element_count,
    }
}

fn item_of(s: &[u8], d: Entry) -> Result<ItemData, Refusal>
    ensures { answer_of result ≡ answer (item_of d) s.now }
{
    entry_tests(s, d)?;
    Ok(data_of(d))
}

fn lookup_in(s: &[u8], entries: Entries<'_>, name: u32, number: u32) -> Result<ItemData, Refusal>
    ensures { answer_of result ≡ answer (lookup_in entries.entry.bytes.now entries.entry.place entries.entry.count name number) s.now }
{
    let n = entries.count as usize;
    let i = entries
        .first_tag(name, number, 0, n)
        .ok_or(Refusal::NotThere)?;
    if entries.first_tag(name, number, i + 1, n).is_some() {
        return Err(Refusal::StandsTwice);
    }
    item_of(s, entries.at(i))
}

// The item with this tag.
pub fn lookup(s: &[u8], tag: Tag) -> Result<ItemData, Refusal>
    ensures { answer_of result ≡ answer (looking_up tag.name (bits 4 tag.number)) s.now }
{
    let d = open(s)?;
    lookup_in(s, Entries::of(s, d), tag.name, tag.number.cast_unsigned())
}

// The data of a tag, as a part of the caller's bytes; the empty part at their start where lookup refuses.
pub fn data_part(s: &[u8], tag: Tag) -> &[u8]
    ensures { shown result ≡ handed_back (shown s.entry) (map_answer data_span (answer (looking_up tag.name (bits 4 tag.number)) s.now)) }
{
    match lookup(s, tag) {
        Ok(q) => part(s, q.start, q.size),
        Err(_) => part(s, 0, 0),
    }
}
