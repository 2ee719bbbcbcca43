// The header and the table of contents.
ghost use Rattle.std.specs.Prelude.{◌≡◌, List, ℕ, ◌≤◌, length, OnOk};
ghost use Rattle.reading.specs.Number.{le};
ghost use Rattle.reading.specs.Check.{run};
ghost use Rattle.reading.specs.Answers.{outcome_of_tested};
ghost use Rattle.gtc.specs.Table.{mark_field, version_field, entry_count_field, mark_check, count_check, most_entries, place_of_entry, table_end, table};

use reading::check::{Failure, Field, Rule, Test, failed, signed_field, unsigned_field};
use reading::number::{byte, le16, le32};
use reading::refusal::Refusal;

// The header: the mark, the version, the number of entries.
const HEADER_SIZE: usize = 8;

// "gtc", lowest byte first.
const GTC_MARK: u32 = 0x637467;

const GTC_VERSION: u8 = 5;

const MOST_ENTRIES: u32 = 999;

// An entry is a u16 id and an i32 offset.
pub(crate) const ENTRY_SIZE: usize = 6;

// A signed 32-bit number from here on is negative.
pub(crate) const NEGATIVE: u32 = 0x8000_0000;

// A table of contents: its number of entries, and the file's bytes up to its end.
// That an index is below the count stays in contracts, as with any list's. Where an item's data are read too, the file's bytes go beside it, as (s, t): the table knows only its own part of them.
#[derive(Clone, Copy)]
pub(crate) struct Table<'a> {
    pub count: usize,
    pub up_to: &'a [u8],
    ghost few: { count ≤ most_entries },
    ghost whole: { table_end count ≤ length up_to.now },
}

// Where entry i, counted from 0, stands.
pub(crate) fn entry_place(i: usize) -> usize
    requires { place_of_entry i ≤ 0xffffffffffffffff }
    ensures { result ≡ place_of_entry i }
{
    HEADER_SIZE + ENTRY_SIZE * i
}

// The end of a table of n entries.
pub(crate) fn table_end(n: usize) -> usize
    requires { table_end n ≤ 0xffffffffffffffff }
    ensures { result ≡ table_end n }
{
    entry_place(n)
}

fn mark_field(mark: u32) -> Field
    ensures { result ≡ mark_field mark }
{
    unsigned_field(3, 0, mark as u64)
}

fn version_field(version: u8) -> Field
    ensures { result ≡ version_field version }
{
    unsigned_field(1, 3, version as u64)
}

fn entry_count_field(count: u32) -> Field
    ensures { result ≡ entry_count_field count }
{
    signed_field(4, 4, count as u64)
}

#[tactic(auto, using(reading::proofs::Tests::tests), unfolding(crate::specs::Table::mark_check, reading::specs::Check::run))]
fn mark_tests(mark: u32, version: u8) -> Result<(), Test>
    ensures { (l : List ℕ) → outcome_of_tested result ≡ run (mark_check mark version) l }
{
    if mark != GTC_MARK {
        return failed(
            mark_field(mark),
            Rule::Exactly(GTC_MARK as u64),
            Refusal::OtherMark,
        );
    }
    if version != GTC_VERSION {
        return failed(
            version_field(version),
            Rule::Exactly(GTC_VERSION as u64),
            Refusal::OtherVersion,
        );
    }
    Ok(())
}

#[tactic(auto, using(reading::proofs::Tests::tests), unfolding(crate::specs::Table::count_check, reading::specs::Check::run))]
fn count_tests(count: u32) -> Result<(), Test>
    ensures few { OnOk result (count ≤ most_entries) }
    ensures result_value { (l : List ℕ) → outcome_of_tested result ≡ run (count_check count) l }
{
    if NEGATIVE <= count {
        return failed(
            entry_count_field(count),
            Rule::NotNegative,
            Refusal::BadHeader,
        );
    }
    if MOST_ENTRIES < count {
        return failed(
            entry_count_field(count),
            Rule::AtMost(MOST_ENTRIES as u64),
            Refusal::TooManyEntries,
        );
    }
    Ok(())
}

// The first three bytes, lowest first.
fn mark_of(h: &[u8]) -> u32
    ensures { result ≡ le 3 h.now 0 }
{
    le16(h, 0) as u32 + 65536 * byte(h, 2) as u32
}

impl<'a> Table<'a> {
    ghost use Rattle.gtc.specs.Answers.{outcome_of_table};

    // The table of the file.
    pub(crate) fn read(s: &'a [u8]) -> Result<Table<'a>, Failure>
        ensures { outcome_of_table result ≡ run table s.now }
    {
        if s.len() < HEADER_SIZE {
            return Err(Failure::Short {
                start: 0,
                end: HEADER_SIZE,
            });
        }
        let h = &s[..HEADER_SIZE];
        let mark = mark_of(h);
        let version = byte(h, 3);
        let count = le32(h, 4);
        mark_tests(mark, version)?;
        count_tests(count)?;
        let end = table_end(count as usize);
        if s.len() < end {
            return Err(Failure::Short {
                start: HEADER_SIZE,
                end,
            });
        }
        Ok(Table {
            count: count as usize,
            up_to: &s[..end],
        })
    }
}
