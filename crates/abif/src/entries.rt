// The entries of a directory, and the search for a tag in them.
ghost use Rattle.std.specs.Prelude.{◌≡◌, ◌+◌, ◌-◌, ◌*◌, ◌≤◌, ◌<◌, length, take, unwrap_or, IfSome};
ghost use Rattle.reading.specs.Entries.{first_with};
ghost use Rattle.abif.specs.Entry.{entry_of, has_tag};
ghost use Rattle.abif.specs.Judge.{tag_among};

use crate::directory::Directory;
use crate::entry::{Entry, entry_at};
use reading::number::be32;

// The bytes of a file up to the end of its directory, with the directory's place and count. Every place in them fits 32 bits. That an
// index is below the count stays in contracts, as with any list's.
#[derive(Clone, Copy)]
pub(crate) struct Entries<'a> {
    pub(crate) bytes: &'a [u8],
    pub(crate) place: u32,
    pub(crate) count: u32,
    ghost within: { place + 28 * count ≤ length bytes.now },
    ghost low: { place + 28 * count < 0x100000000 },
}

impl<'a> Entries<'a> {
    // The entries of the directory that opening has found in these bytes.
    pub(crate) fn of(s: &'a [u8], d: Directory) -> Entries<'a>
        requires { (d.place + 28 * d.count ≤ length s.now) × (d.place + 28 * d.count < 0x100000000) }
        ensures { (result.bytes.now ≡ take (d.place + 28 * d.count) s.now) × (result.place ≡ d.place) × (result.count ≡ d.count) }
    {
        let end = d.place as usize + 28 * d.count as usize;
        Entries {
            bytes: &s[..end],
            place: d.place,
            count: d.count,
        }
    }

    // Entry i, counted from 0.
    pub(crate) fn at(self, i: usize) -> Entry
        requires { i < self.count }
        ensures { result ≡ entry_of self.entry.bytes.now (self.entry.place + 28 * i) }
    {
        entry_at(self.bytes, self.place as usize + 28 * i)
    }

    // Entry i, counted from 0, has the tag of this name and number. A part of a fixed length is read with no test of its length, so a loop over this is
    // fast.
    fn has_tag(self, name: u32, number: u32, i: usize) -> bool
        requires { i < self.count }
        ensures { result ≡ has_tag self.entry.bytes.now self.entry.place name number i }
    {
        let start = self.place as usize + 28 * i;
        let end = start + 8;
        let tag = &self.bytes[start..end];
        be32(tag, 0) == name && be32(tag, 4) == number
    }

    // The first of n entries with this tag, from entry `from` on.
    #[tactic(auto, using(reading::proofs::Loop::left_end), unfolding(reading::specs::Entries::first_with))]
    pub(crate) fn first_tag(self, name: u32, number: u32, from: usize, n: usize) -> Option<usize>
        requires { (n ≤ self.count) × (from ≤ n) }
        ensures first { unwrap_or result n ≡ first_with (has_tag self.entry.bytes.now self.entry.place name number) (n - from) from }
        ensures within { IfSome result (λ i. i < n) }
    {
        for i in from..n {
            if self.has_tag(name, number, i) {
                return Some(i);
            }
        }
        None
    }

    // One of the first n entries has the tag of entry d.
    pub(crate) fn tag_among(self, n: usize, d: Entry) -> bool
        requires { n ≤ self.count }
        ensures { result ≡ tag_among self.entry.bytes.now self.entry.place n d }
    {
        self.first_tag(d.name, d.number, 0, n).is_some()
    }
}
