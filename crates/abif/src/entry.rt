// A directory entry and its checks.
ghost use Rattle.std.specs.Prelude.{◌≡◌, List, ℕ, ◌+◌, ◌≤◌, ◌<◌, length};
ghost use Rattle.reading.specs.Check.{run};
ghost use Rattle.reading.specs.Answers.{outcome_of, outcome_of_tested};
ghost use Rattle.abif.specs.Entry.{entry_of, tag, name, number, element_type, element_size, element_count, data_size, data_offset};
ghost use Rattle.abif.specs.Entry.{type_of, listed_check, raw_check, sizes_check, place_check, entry_check};

use reading::check::{
    Failure, Field, Requirement, Rule, Test, failed, signed_field, unsigned_field,
};
use reading::number::{be16, be32};
use reading::refusal::Refusal;

// A directory entry with its place, which fits 32 bits in every directory; a signed field as its unsigned number.
#[derive(Clone, Copy)]
pub struct Entry {
    pub place: u32,
    pub name: u32,
    pub number: u32,
    pub element_type: u16,
    pub element_size: u16,
    pub element_count: u32,
    pub data_size: u32,
    pub data_offset: u32,
}

// What an element type is: listed with its element size, raw bytes, or not handled.
#[derive(Clone, Copy)]
pub enum ElementType {
    Listed(u16),
    Raw,
    Unknown,
}

#[tactic(auto, unfolding(crate::specs::Entry::entry_of))]
pub(crate) fn entry_at(h: &[u8], p: usize) -> Entry
    requires { (p + 28 ≤ length h.now) × (p < 0x100000000) }
    ensures { (result ≡ entry_of h.now p) × (result.place ≡ p) }
{
    Entry {
        place: p as u32,
        name: be32(h, p),
        number: be32(h, p + 4),
        element_type: be16(h, p + 8),
        element_size: be16(h, p + 10),
        element_count: be32(h, p + 12),
        data_size: be32(h, p + 16),
        data_offset: be32(h, p + 20),
    }
}

// The element type that a code stands for. Everywhere else types stay their codes, which the trees of checks take: an entry may have any code.
#[tactic(auto, using(std::proofs::lemmas::Bool::Decides::nat_tests), unfolding(crate::specs::Entry::type_of))]
pub fn type_of(k: u16) -> ElementType
    ensures { result ≡ type_of k }
{
    match k {
        1 => ElementType::Listed(1), // byte
        2 => ElementType::Listed(1), // char
        3 => ElementType::Listed(2), // word
        4 => ElementType::Listed(2), // short
        5 => ElementType::Listed(4), // long
        7 => ElementType::Listed(4), // float
        8 => ElementType::Listed(8), // double
        10 => ElementType::Listed(4), // date
        11 => ElementType::Listed(4), // time
        12 => ElementType::Listed(10), // thumb
        13 => ElementType::Listed(1), // bool
        18 => ElementType::Listed(1), // pString
        19 => ElementType::Listed(1), // cString
        // legacy types
        6 | 9 | 14..=17 | 20 | 128 | 256 | 384 => ElementType::Raw,
        // user types
        1024..=32767 => ElementType::Raw,
        _ => ElementType::Unknown,
    }
}

// The fields of an entry, as a test tells of them.
impl Entry {
    pub(crate) fn tag_field(self) -> Field
        ensures { result ≡ tag self }
    {
        unsigned_field(
            8,
            self.place as usize,
            4294967296 * self.name as u64 + self.number as u64,
        )
    }

    pub(crate) fn name_field(self) -> Field
        ensures { result ≡ name self }
    {
        unsigned_field(4, self.place as usize, self.name as u64)
    }

    pub(crate) fn number_field(self) -> Field
        ensures { result ≡ number self }
    {
        signed_field(4, self.place as usize + 4, self.number as u64)
    }

    pub(crate) fn element_type_field(self) -> Field
        ensures { result ≡ element_type self }
    {
        signed_field(2, self.place as usize + 8, self.element_type as u64)
    }

    pub(crate) fn element_size_field(self) -> Field
        ensures { result ≡ element_size self }
    {
        signed_field(2, self.place as usize + 10, self.element_size as u64)
    }

    pub(crate) fn element_count_field(self) -> Field
        ensures { result ≡ element_count self }
    {
        signed_field(4, self.place as usize + 12, self.element_count as u64)
    }

    pub(crate) fn data_size_field(self) -> Field
        ensures { result ≡ data_size self }
    {
        signed_field(4, self.place as usize + 16, self.data_size as u64)
    }

    pub(crate) fn data_offset_field(self) -> Field
        ensures { result ≡ data_offset self }
    {
        signed_field(4, self.place as usize + 20, self.data_offset as u64)
    }
}

#[tactic(auto, using(reading::proofs::Tests::tests), unfolding(crate::specs::Entry::listed_check, reading::specs::Check::run))]
fn listed_tests(w: u16, d: Entry) -> Result<(), Test>
    ensures { (l : List ℕ) → outcome_of_tested result ≡ run (listed_check w d) l }
{
    if 0x8000 <= d.element_size || d.element_size != w {
        return failed(
            d.element_size_field(),
            Rule::Exactly(w as u64),
            Refusal::BadSize,
        );
    }
    if 0x8000_0000 <= d.element_count {
        return failed(d.element_count_field(), Rule::NotNegative, Refusal::BadSize);
    }
    let whole = w as u64 * d.element_count as u64;
    if 0x8000_0000 <= d.data_size || d.data_size as u64 != whole {
        return failed(d.data_size_field(), Rule::EqualTo(whole), Refusal::BadSize);
    }
    Ok(())
}

#[tactic(auto, using(reading::proofs::Tests::tests), unfolding(crate::specs::Entry::raw_check, reading::specs::Check::run))]
fn raw_tests(d: Entry) -> Result<(), Test>
    ensures { (l : List ℕ) → outcome_of_tested result ≡ run (raw_check d) l }
{
    if 0x8000 <= d.element_size {
        return failed(d.element_size_field(), Rule::NotNegative, Refusal::BadSize);
    }
    if 0x8000_0000 <= d.element_count {
        return failed(d.element_count_field(), Rule::NotNegative, Refusal::BadSize);
    }
    if 0x8000_0000 <= d.data_size {
        return failed(d.data_size_field(), Rule::NotNegative, Refusal::BadSize);
    }
    Ok(())
}

#[tactic(auto, using(reading::proofs::Tests::tests), unfolding(crate::specs::Entry::sizes_check, reading::specs::Check::run))]
fn sizes_tests(k: ElementType, d: Entry) -> Result<(), Test>
    ensures { (l : List ℕ) → outcome_of_tested result ≡ run (sizes_check k d) l }
{
    match k {
        ElementType::Listed(w) => listed_tests(w, d),
        ElementType::Raw => raw_tests(d),
        ElementType::Unknown => failed(
            d.element_type_field(),
            Rule::Other(Requirement::HandledType, false),
            Refusal::OtherType,
        ),
    }
}

// The end of data of this size from this offset on: exact, for no sum of two 32-bit numbers fills 64 bits.
fn end_of(offset: u32, size: u32) -> usize
    ensures { result ≡ offset + size }
{
    offset as usize + size as usize
}

#[tactic(auto, using(reading::proofs::Tests::tests), unfolding(crate::specs::Entry::place_check, reading::specs::Check::run))]
fn place_tests(s: &[u8], d: Entry) -> Result<usize, Failure>
    ensures { outcome_of result ≡ run (place_check d) s.now }
{
    if d.data_size <= 4 {
        return Ok(0);
    }
    if 0x8000_0000 <= d.data_offset || d.data_offset < 128 {
        return Err(Failure::Failed(Test {
            field: d.data_offset_field(),
            rule: Rule::AtLeast(128),
            refusal: Refusal::BadOffset,
        }));
    }
    let start = d.data_offset as usize;
    let end = end_of(d.data_offset, d.data_size);
    if s.len() < end {
        return Err(Failure::Short { start, end });
    }
    Ok(end)
}

pub(crate) fn entry_tests(s: &[u8], d: Entry) -> Result<usize, Failure>
    ensures { outcome_of result ≡ run (entry_check d) s.now }
{
    sizes_tests(type_of(d.element_type), d)?;
    place_tests(s, d)
}
