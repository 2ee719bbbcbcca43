// The fields of the common header, and their checks.
ghost use Rattle.std.specs.Prelude.{◌≡◌, List, ℕ, ◌<◌};
ghost use Rattle.reading.specs.Check.{run};
ghost use Rattle.reading.specs.Answers.{outcome_of_tested};
ghost use Rattle.sff_fields.specs.Header.{mark_field, version_field, code_field, header_length, index_offset, mark_check, length_check, index_check};
ghost use Rattle.sff_fields.specs.Header.{front_check, index_size};

use crate::padding::round_up;
use reading::check::{Field, Requirement, Rule, Test, failed, unsigned_field};
use reading::refusal::Refusal;

// The places of the header's fields, and how many bytes they take.
pub const MARK_PLACE: usize = 0;

pub const VERSION_PLACE: usize = 4;

pub const INDEX_OFFSET_PLACE: usize = 8;

pub const INDEX_LENGTH_PLACE: usize = 16;

pub const READS_PLACE: usize = 20;

pub const HEADER_LENGTH_PLACE: usize = 24;

pub const KEY_LENGTH_PLACE: usize = 26;

pub const FLOWS_PLACE: usize = 28;

pub const CODE_PLACE: usize = 30;

pub const FRONT_LENGTH: usize = 31;

// The bytes ".sff"; the version and the code that are handled.
pub const SFF_MARK: u32 = 0x2e736666;

pub const SFF_VERSION: u32 = 1;

pub const FORMAT_CODE: u8 = 1;

// The fields of the common header; the flow letters start at 31, and the key behind them.
#[derive(Clone, Copy)]
pub struct Header {
    pub index_offset: u64,
    pub index_length: u32,
    pub reads: u32,
    pub header_length: u16,
    pub key_length: u16,
    pub flows: u16,
}

fn mark_field(mark: u32) -> Field
    ensures { result ≡ mark_field mark }
{
    unsigned_field(4, MARK_PLACE, mark as u64)
}

fn version_field(version: u32) -> Field
    ensures { result ≡ version_field version }
{
    unsigned_field(4, VERSION_PLACE, version as u64)
}

fn code_field(code: u8) -> Field
    ensures { result ≡ code_field code }
{
    unsigned_field(1, CODE_PLACE, code as u64)
}

fn header_length_field(d: Header) -> Field
    ensures { result ≡ header_length d }
{
    unsigned_field(2, HEADER_LENGTH_PLACE, d.header_length as u64)
}

// The index offset as a field of the file.
pub fn index_offset_field(d: Header) -> Field
    ensures { result ≡ index_offset d }
{
    unsigned_field(8, INDEX_OFFSET_PLACE, d.index_offset)
}

#[tactic(auto, using(reading::proofs::Tests::tests), unfolding(crate::specs::Header::mark_check, reading::specs::Check::run))]
fn mark_tests(mark: u32, version: u32) -> Result<(), Test>
    ensures { (l : List ℕ) → outcome_of_tested result ≡ run (mark_check mark version) l }
{
    if mark != SFF_MARK {
        return failed(
            mark_field(mark),
            Rule::Exactly(SFF_MARK as u64),
            Refusal::OtherMark,
        );
    }
    if version != SFF_VERSION {
        return failed(
            version_field(version),
            Rule::Exactly(SFF_VERSION as u64),
            Refusal::OtherVersion,
        );
    }
    Ok(())
}

#[tactic(auto, using(reading::proofs::Tests::tests), unfolding(crate::specs::Header::length_check, reading::specs::Check::run))]
fn length_tests(code: u8, d: Header) -> Result<(), Test>
    ensures { (l : List ℕ) → outcome_of_tested result ≡ run (length_check code d) l }
{
    if code != FORMAT_CODE {
        return failed(
            code_field(code),
            Rule::Exactly(FORMAT_CODE as u64),
            Refusal::BadHeader,
        );
    }
    let expected = round_up(FRONT_LENGTH + d.flows as usize + d.key_length as usize);
    if (d.header_length as usize) != expected {
        return failed(
            header_length_field(d),
            Rule::EqualTo(expected as u64),
            Refusal::BadHeader,
        );
    }
    Ok(())
}

#[tactic(auto, using(reading::proofs::Tests::tests, crate::proofs::header::Laws::same_zero_lem), unfolding(crate::specs::Header::index_check, reading::specs::Check::run))]
fn index_tests(d: Header) -> Result<(), Test>
    ensures { (l : List ℕ) → outcome_of_tested result ≡ run (index_check d) l }
{
    if (d.index_offset == 0) != (d.index_length == 0) {
        return failed(
            index_offset_field(d),
            Rule::Other(Requirement::BothOrNeither, false),
            Refusal::BadHeader,
        );
    }
    Ok(())
}

// The checks of the header's fields: mark, version, code, header length, index offset and length.
pub fn front_tests(mark: u32, version: u32, code: u8, d: Header) -> Result<(), Test>
    ensures { (l : List ℕ) → outcome_of_tested result ≡ run (front_check mark version code d) l }
{
    mark_tests(mark, version)?;
    length_tests(code, d)?;
    index_tests(d)
}

// How many bytes the index takes, its length rounded up to 8.
pub fn index_size(d: Header) -> usize
    ensures { (result ≡ index_size d) × (result < 0x100000008) }
{
    round_up(d.index_length as usize)
}
