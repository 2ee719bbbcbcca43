// Lookup of an id.
ghost use Rattle.std.specs.Prelude.{◌≡◌};
ghost use Rattle.reading.specs.Check.{answer, map_answer};
ghost use Rattle.reading.specs.Answers.{answer_of};
ghost use Rattle.reading.specs.Item.{data_span};
ghost use Rattle.reading.specs.Part.{shown, handed_back};
ghost use Rattle.gtc.specs.Lookup.{lookup_listed, lookup_in, looking_up};

use crate::item::{Stored, item_tests, listing_of};
use crate::table::Table;
use reading::item::ItemData;
use reading::part::part;
use reading::refusal::Refusal;

// The item with a listed id, whose data are stored so.
fn lookup_listed(s: &[u8], t: Table, id: u16, v: Stored) -> Result<ItemData, Refusal>
    ensures { answer_of result ≡ answer (lookup_listed v t.entry.up_to.now t.entry.count id) s.now }
{
    let d = t.entry_with(id)?;
    Ok(item_tests(s, t, v, d)?)
}

fn lookup_in(s: &[u8], t: Table, id: u16) -> Result<ItemData, Refusal>
    ensures { answer_of result ≡ answer (lookup_in t.entry.up_to.now t.entry.count id) s.now }
{
    match listing_of(id) {
        Some(v) => lookup_listed(s, t, id, v),
        None => Err(Refusal::OtherType),
    }
}

// The item with this id.
pub fn lookup(s: &[u8], id: u16) -> Result<ItemData, Refusal>
    ensures { answer_of result ≡ answer (looking_up id) s.now }
{
    let t = Table::read(s)?;
    lookup_in(s, t, id)
}

// The data of an id, as a part of the caller's bytes; the empty part at their start where lookup refuses.
pub fn data_part(s: &[u8], id: u16) -> &[u8]
    ensures { shown result ≡ handed_back (shown s.entry) (map_answer data_span (answer (looking_up id) s.now)) }
{
    match lookup(s, id) {
        Ok(q) => part(s, q.start, q.size),
        Err(_) => part(s, 0, 0),
    }
}
