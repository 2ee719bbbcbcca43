// The items that the lent records name, and their checks.
ghost use Rattle.std.specs.Prelude.{◌≡◌, [], ◌<◌, length};
ghost use Rattle.reading.specs.Answers.{answer_of};
ghost use Rattle.reading.specs.Check.{answer};
ghost use Rattle.abif.specs.Entry.{type_of};
ghost use Rattle.abif_write.specs.Item.{is_taken, written_size, count_check, item_check};

use crate::item_contents::contents_hold;
use abif::entry::{ElementType, type_of};
use abif::tag::Tag;
use reading::refusal::Refusal;

// The records of the items, and the data that they name: element i of each of the first six slices is record i's name, number, type, count, and the
// start and length of its part of the data. The slices stand side by side because jt_abif_write is lent them so. What
// writing needs of them (one length, accepted items, each item's part of the data) stands in contracts and in no ghost field: C may lend any slices.
#[derive(Clone, Copy)]
pub struct LentItems<'a> {
    pub names: &'a [u32],
    pub numbers: &'a [i32],
    pub types: &'a [i16],
    pub counts: &'a [u32],
    pub starts: &'a [u64],
    pub lengths: &'a [u64],
    pub buffer: &'a [u8],
}

// An item: its tag's name and number, its type by its 16 bits, its count, and its part of the data.
#[derive(Clone, Copy)]
pub(crate) struct Item {
    pub name: u32,
    pub number: i32,
    pub element_type: u16,
    pub count: u32,
    pub start: usize,
    pub size: usize,
}

impl Item {
    ghost use Rattle.abif_write.specs.Item.{tag_of};

    fn tag(self) -> Tag
        ensures { result ≡ tag_of self }
    {
        Tag {
            name: self.name,
            number: self.number,
        }
    }
}

// A listed type, or a user type.
fn is_taken(code: u16) -> bool
    ensures { result ≡ is_taken (type_of code) code }
{
    match type_of(code) {
        ElementType::Listed(_) => true,
        ElementType::Raw => 1024 <= code,
        ElementType::Unknown => false,
    }
}

// The element size that is written, 1 for user types, where reading has no size: the definitions are two.
pub(crate) fn written_size(code: u16) -> u16
    ensures { result ≡ written_size (type_of code) }
{
    match type_of(code) {
        ElementType::Listed(w) => w,
        ElementType::Raw => 1,
        ElementType::Unknown => 0,
    }
}

fn count_tests(d: Item) -> Result<(), Refusal>
    ensures { answer_of result ≡ answer (count_check d) [] }
{
    let whole = written_size(d.element_type) as u64 * d.count as u64;
    if 0x8000_0000 <= d.count || 0x8000_0000 <= d.size || d.size as u64 != whole {
        return Err(Refusal::BadSize);
    }
    Ok(())
}

fn item_tests(buffer: &[u8], d: Item) -> Result<(), Refusal>
    ensures { answer_of result ≡ answer (item_check buffer.now d) [] }
{
    if buffer.len() < d.start || buffer.len() - d.start < d.size {
        return Err(Refusal::BadSize);
    }
    if !is_taken(d.element_type) {
        return Err(Refusal::OtherType);
    }
    count_tests(d)?;
    let start = d.start;
    let end = start + d.size;
    if !contents_hold(d.element_type, d.count, &buffer[start..end]) {
        return Err(Refusal::Forbidden);
    }
    Ok(())
}

impl LentItems<'_> {
    ghost use Rattle.abif_write.specs.Item.{records_of, item_at, same_lengths, ordered, items_check};
    ghost use Rattle.abif_write.specs.Private.{SameLengths};

    pub(crate) fn same_lengths(&self) -> bool
        ensures { result ≡ same_lengths (records_of self.now) }
    {
        let n = self.names.len();
        self.numbers.len() == n
            && self.types.len() == n
            && self.counts.len() == n
            && self.starts.len() == n
            && self.lengths.len() == n
    }

    // Item i of the lent records.
    pub(crate) fn item_at(&self, i: usize) -> Item
        requires same_lengths { SameLengths (records_of self.now) }
        requires within { i < length self.now.names.now }
        ensures { result ≡ item_at (records_of self.now) i }
    {
        Item {
            name: self.names[i],
            number: self.numbers[i],
            element_type: self.types[i].cast_unsigned(),
            count: self.counts[i],
            start: self.starts[i] as usize,
            size: self.lengths[i] as usize,
        }
    }

    // Item i stands above the one before it.
    fn in_order(&self, i: usize) -> bool
        requires same_lengths { SameLengths (records_of self.now) }
        requires within { i < length self.now.names.now }
        ensures { result ≡ ordered (item_at (records_of self.now)) i }
    {
        i == 0 || self.item_at(i - 1).tag() < self.item_at(i).tag()
    }

    pub(crate) fn items_tests(&self) -> Result<(), Refusal>
        requires { SameLengths (records_of self.now) }
        ensures { answer_of result ≡ answer
            (items_check (item_at (records_of self.now)) self.now.buffer.now (length self.now.names.now) 0) [] }
    {
        for i in 0..self.names.len() {
            item_tests(self.buffer, self.item_at(i))?;
            if !self.in_order(i) {
                return Err(Refusal::NotAscending);
            }
        }
        Ok(())
    }
}
