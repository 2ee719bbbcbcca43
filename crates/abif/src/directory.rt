// The header and the directory's place.
ghost use Rattle.std.specs.Prelude.{◌≡◌, List, ℕ};
ghost use Rattle.reading.specs.Check.{run, answer};
ghost use Rattle.reading.specs.Answers.{outcome_of_tested};
ghost use Rattle.abif.specs.Directory.{header_check, bounds_check, opening};
ghost use Rattle.abif.specs.Answers.{outcome_of_opened, answer_of_opened};

use crate::entry::{Entry, entry_at};
use reading::check::{Failure, Rule, Test, failed, signed_field, unsigned_field};
use reading::number::{be16, be32};
use reading::refusal::Refusal;
use reading::refusal::Refusal::BadHeader;

// A directory's place and its number of entries.
#[derive(Clone, Copy)]
pub struct Directory {
    pub place: u32,
    pub count: u32,
}

// The mark "ABIF", and the name "tdir" of the header's entry.
pub const ABIF_MARK: u32 = 0x41424946;

pub const TDIR_NAME: u32 = 0x74646972;

#[tactic(auto, using(reading::proofs::Tests::tests, reading::proofs::Tests::exact_low, reading::proofs::Tests::within_low), unfolding(crate::specs::Directory::header_check, reading::specs::Check::run))]
fn header_tests(mark: u32, version: u16, d: Entry) -> Result<(), Test>
    ensures { (l : List ℕ) → outcome_of_tested result ≡ run (header_check mark version d) l }
{
    if mark != ABIF_MARK {
        return failed(
            unsigned_field(4, 0, mark as u64),
            Rule::Exactly(ABIF_MARK as u64),
            Refusal::OtherMark,
        );
    }
    if version < 100 || 199 < version {
        return failed(
            signed_field(2, 4, version as u64),
            Rule::Between(100, 199),
            Refusal::OtherVersion,
        );
    }
    if d.name != TDIR_NAME {
        return failed(d.name_field(), Rule::Exactly(TDIR_NAME as u64), BadHeader);
    }
    if d.number != 1 {
        return failed(d.number_field(), Rule::Exactly(1), BadHeader);
    }
    if d.element_type != 1023 {
        return failed(d.element_type_field(), Rule::Exactly(1023), BadHeader);
    }
    if d.element_size != 28 {
        return failed(d.element_size_field(), Rule::Exactly(28), BadHeader);
    }
    Ok(())
}

#[tactic(auto, using(reading::proofs::Tests::tests), unfolding(crate::specs::Directory::bounds_check, reading::specs::Check::run))]
fn bounds_tests(d: Entry) -> Result<(), Test>
    ensures { (l : List ℕ) → outcome_of_tested result ≡ run (bounds_check d) l }
{
    if 0x8000_0000 <= d.element_count {
        return failed(
            d.element_count_field(),
            Rule::NotNegative,
            Refusal::BadHeader,
        );
    }
    if 999 < d.element_count {
        return failed(
            d.element_count_field(),
            Rule::AtMost(999),
            Refusal::TooManyEntries,
        );
    }
    let least = 28 * d.element_count;
    if 0x8000_0000 <= d.data_size || d.data_size < least {
        return failed(
            d.data_size_field(),
            Rule::AtLeast(least as u64),
            Refusal::BadHeader,
        );
    }
    if 0x8000_0000 <= d.data_offset || d.data_offset < 128 {
        return failed(
            d.data_offset_field(),
            Rule::AtLeast(128),
            Refusal::BadOffset,
        );
    }
    Ok(())
}

pub(crate) fn read_header(s: &[u8]) -> Result<Directory, Failure>
    ensures { outcome_of_opened result ≡ run opening s.now }
{
    if s.len() < 128 {
        return Err(Failure::Short { start: 0, end: 128 });
    }
    let h = &s[..128];
    let mark = be32(h, 0);
    let version = be16(h, 4);
    let d = entry_at(h, 6);
    header_tests(mark, version, d)?;
    bounds_tests(d)?;
    let place = d.data_offset;
    let count = d.element_count;
    let start = place as usize;
    let end = start + 28 * count as usize;
    if s.len() < end {
        return Err(Failure::Short { start, end });
    }
    Ok(Directory { place, count })
}

// Opens the file: the header and directory checks.
pub fn open(s: &[u8]) -> Result<Directory, Refusal>
    ensures { answer_of_opened result ≡ answer opening s.now }
{
    Ok(read_header(s)?)
}
