// An entry of the table of contents, and the one entry with an id.
ghost use Rattle.std.specs.Prelude.{◌≡◌, List, ℕ, ◌-◌, ◌≤◌, ◌<◌, unwrap_or, IfSome};
ghost use Rattle.reading.specs.Check.{run};
ghost use Rattle.reading.specs.Answers.{outcome_of_tested};
ghost use Rattle.reading.specs.Entries.{first_with};
ghost use Rattle.gtc.specs.Table.{place_of_entry};

use crate::table::{ENTRY_SIZE, Table, entry_place};
use reading::check::{Field, Test, failing, signed_field, unsigned_field};
use reading::number::{le16, le32};
use reading::refusal::Refusal;

// An entry with its place; the signed offset as its unsigned number.
#[derive(Clone, Copy)]
pub(crate) struct Entry {
    pub place: u32,
    pub id: u16,
    pub offset: u32,
}

impl Entry {
    ghost use Rattle.gtc.specs.Entry.{id_field, offset_field};

    // The field of its id.
    pub(crate) fn id_field(self) -> Field
        ensures { result ≡ id_field self }
    {
        unsigned_field(2, self.place as usize, self.id as u64)
    }

    // The field of its offset.
    pub(crate) fn offset_field(self) -> Field
        ensures { result ≡ offset_field self }
    {
        signed_field(4, self.place as usize + 2, self.offset as u64)
    }
}

impl Table<'_> {
    ghost use Rattle.gtc.specs.Entry.{entry_of, has_id, entry_with};

    // Entry i, counted from 0. A part of a fixed length is read with no test of its length, so a loop over this or over `has_id` is fast.
    pub(crate) fn entry_at(self, i: usize) -> Entry
        requires { i < self.count }
        ensures { result ≡ entry_of self.entry.up_to.now (place_of_entry i) }
    {
        let start = entry_place(i);
        let bytes = &self.up_to[start..start + ENTRY_SIZE];
        Entry {
            place: start as u32,
            id: le16(bytes, 0),
            offset: le32(bytes, 2),
        }
    }

    // Entry i has this id.
    fn has_id(self, id: u16, i: usize) -> bool
        requires { i < self.count }
        ensures { result ≡ has_id self.entry.up_to.now id i }
    {
        let start = entry_place(i);
        le16(&self.up_to[start..start + 2], 0) == id
    }

    // The first of n entries with this id, from entry `from` on.
    pub(crate) fn first_id(self, id: u16, from: usize, n: usize) -> Option<usize>
        requires { (n ≤ self.count) × (from ≤ n) }
        ensures first { unwrap_or result n ≡ first_with (has_id self.entry.up_to.now id) (n - from) from }
        ensures within { IfSome result (λ i. i < n) }
    {
        for i in from..n {
            if self.has_id(id, i) {
                return Some(i);
            }
        }
        None
    }

    // The entry with this id.
    pub(crate) fn entry_with(self, id: u16) -> Result<Entry, Test>
        ensures { (l : List ℕ) → outcome_of_tested result ≡ run (entry_with self.entry.up_to.now self.entry.count id) l }
    {
        let n = self.count;
        let Some(i) = self.first_id(id, 0, n) else {
            return Err(failing(Refusal::NotThere));
        };
        if self.first_id(id, i + 1, n).is_some() {
            return Err(failing(Refusal::StandsTwice));
        }
        Ok(self.entry_at(i))
    }
}
