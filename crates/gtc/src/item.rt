// The items of Table 3 and their checks.
ghost use Rattle.std.specs.Prelude.{◌≡◌, List, ℕ, ◌+◌, ◌*◌, ◌≤◌, ◌<◌, length, IfOk};
ghost use Rattle.reading.specs.declared.check.Rule.TheVariants.{AtLeast, EqualTo};
ghost use Rattle.reading.specs.Check.{run, must};
ghost use Rattle.reading.specs.Answers.{outcome_of, outcome_of_tested};
ghost use Rattle.gtc.specs.Table.{table_end};
ghost use Rattle.gtc.specs.Entry.{offset_field};
ghost use Rattle.gtc.specs.declared.item.Shape.TheVariants.{Text, Array, SnpArray, Scanner, Block};
ghost use Rattle.gtc.specs.Item.{listing_of, is_listed, string_end, scanner_rest, scanner_end, count_field, array_count, elements_of, snp_check};
ghost use Rattle.gtc.specs.Item.{item_up_to, shape_check, shaped_check, item_check};

use crate::entry::Entry;
use crate::table::{NEGATIVE, Table, table_end};
use reading::check::{Failure, Field, Rule, Test, failed, signed_field};
use reading::item::ItemData;
use reading::number::{byte, le32};
use reading::refusal::Refusal;

// The ids of Table 3 that other rules name.
pub(crate) const NUM_SNPS_ID: u16 = 1;

pub const NORMALIZATION_TRANSFORMATIONS_ID: u16 = 400;

pub const RAW_X_ID: u16 = 1000;

pub const RAW_Y_ID: u16 = 1001;

pub const GENOTYPES_ID: u16 = 1002;

pub const BASE_CALLS_ID: u16 = 1003;

pub const GENOTYPE_SCORES_ID: u16 = 1004;

// What stands at an item's offset: a string, an array with the width of its elements, an array with one element for each SNP, the scanner
// data, or a block of so many bytes.
#[derive(Clone, Copy)]
pub(crate) enum Shape {
    Text,
    Array(u8),
    SnpArray(u8),
    Scanner,
    Block(u8),
}

// How an id's data are stored: in the offset field itself, or at the offset.
#[derive(Clone, Copy)]
pub(crate) enum Stored {
    Value,
    Shaped(Shape),
}

// What Table 3 says of an id: how its data are stored, or nothing.
#[tactic(auto, using(std::proofs::lemmas::Bool::Decides::nat_tests), unfolding(crate::specs::Item::listing_of))]
pub(crate) fn listing_of(id: u16) -> Option<Stored>
    ensures { result ≡ listing_of id }
{
    match id {
        1..=3 | 1010 => Some(Stored::Value),
        10..=12 | 100 | 101 | 200 | 201 | 300 | 1016 => Some(Stored::Shaped(Shape::Text)),
        400 => Some(Stored::Shaped(Shape::Array(52))),
        500 | 501 => Some(Stored::Shaped(Shape::Array(2))),
        1000 | 1001 | 1003 => Some(Stored::Shaped(Shape::SnpArray(2))),
        1002 => Some(Stored::Shaped(Shape::SnpArray(1))),
        1004 | 1012 | 1013 => Some(Stored::Shaped(Shape::SnpArray(4))),
        1005 => Some(Stored::Shaped(Shape::Scanner)),
        1006 | 1008 | 1009 => Some(Stored::Shaped(Shape::Block(4))),
        1007 => Some(Stored::Shaped(Shape::Block(1))),
        1011 => Some(Stored::Shaped(Shape::Block(16))),
        1014 | 1015 => Some(Stored::Shaped(Shape::Block(6))),
        _ => None,
    }
}

// The id is in Table 3.
pub(crate) fn is_listed(id: u16) -> bool
    ensures { result ≡ is_listed (listing_of id) }
{
    listing_of(id).is_some()
}

// The end of the string at place p: one length byte, then that many.
fn string_end(s: &[u8], p: usize) -> Result<usize, Failure>
    requires { p < 0x8000000000000000 }
    ensures result_value { outcome_of result ≡ run (string_end p) s.now }
    ensures end_in_bounds { IfOk result (λ e. (p < e) × (e ≤ p + 256) × (e ≤ length s.now)) }
{
    let first = p + 1;
    if s.len() < first {
        return Err(Failure::Short {
            start: p,
            end: first,
        });
    }
    let e = first + byte(s, p) as usize;
    if s.len() < e {
        return Err(Failure::Short {
            start: first,
            end: e,
        });
    }
    Ok(e)
}

// The end of the scanner data whose name ends here.
fn scanner_rest(s: &[u8], green: usize) -> Result<usize, Failure>
    requires { green ≤ length s.now }
    ensures result_value { outcome_of result ≡ run (scanner_rest green) s.now }
    ensures end_in_bounds { IfOk result (λ e. (green < e) × (e ≤ green + 600) × (e ≤ length s.now)) }
{
    let red = green + 4;
    if s.len() < red {
        return Err(Failure::Short {
            start: green,
            end: red,
        });
    }
    let version = green + 8;
    if s.len() < version {
        return Err(Failure::Short {
            start: red,
            end: version,
        });
    }
    let user = string_end(s, version)?;
    string_end(s, user)
}

// The end of the scanner data at this offset.
fn scanner_end(s: &[u8], offset: u32) -> Result<usize, Failure>
    ensures result_value { outcome_of result ≡ run (scanner_end offset) s.now }
    ensures end_in_bounds { IfOk result (λ e. (offset < e) × (e ≤ offset + 1000) × (e ≤ length s.now)) }
{
    let green = string_end(s, offset as usize)?;
    scanner_rest(s, green)
}

// The field of the count of the array at place p.
fn count_field(p: usize, n: u32) -> Field
    ensures { result ≡ count_field p n }
{
    signed_field(4, p, n as u64)
}

// The count of the array at this offset.
fn array_count(s: &[u8], offset: u32) -> Result<u32, Failure>
    ensures { outcome_of result ≡ run (array_count offset) s.now }
{
    let p = offset as usize;
    let first = p + 4;
    if s.len() < first {
        return Err(Failure::Short {
            start: p,
            end: first,
        });
    }
    let n = le32(s, p);
    if NEGATIVE <= n {
        return Err(Failure::Failed(Test {
            field: count_field(p, n),
            rule: Rule::NotNegative,
            refusal: Refusal::BadSize,
        }));
    }
    Ok(n)
}

// The n elements, w bytes each, of the array at d's offset.
fn elements_of(s: &[u8], w: u8, d: Entry, n: u32) -> Result<ItemData, Failure>
    ensures { outcome_of result ≡ run (elements_of w d n) s.now }
{
    let start = d.offset as usize + 4;
    let size = w as usize * n as usize;
    let end = start + size;
    if s.len() < end {
        return Err(Failure::Short { start, end });
    }
    Ok(ItemData {
        code: d.id,
        count: n,
        start,
        size,
    })
}

// The count of an array equals the number of SNPs.
#[tactic(auto, using(reading::proofs::Tests::tests), unfolding(reading::specs::Check::run))]
fn count_tests(p: usize, n: u32, snps: u32) -> Result<(), Test>
    ensures { (l : List ℕ) → outcome_of_tested result ≡ run (must (count_field p n) (EqualTo snps) 9) l }
{
    if NEGATIVE <= n || n != snps {
        return failed(
            count_field(p, n),
            Rule::EqualTo(snps as u64),
            Refusal::BadSize,
        );
    }
    Ok(())
}

// The count of the array at place p is the value of id 1.
fn snp_tests(t: Table, p: usize, m: u32) -> Result<(), Test>
    ensures { (l : List ℕ) → outcome_of_tested result ≡ run (snp_check t.entry.up_to.now t.entry.count p m) l }
{
    let snps = t.entry_with(NUM_SNPS_ID)?;
    count_tests(p, m, snps.offset)
}

// The bytes from place p to e.
fn item_up_to(d: Entry, p: usize, e: usize) -> ItemData
    requires { (p ≤ e) × (e ≤ p + 1000) }
    ensures { result ≡ item_up_to d p e }
{
    let size = e - p;
    ItemData {
        code: d.id,
        count: size as u32,
        start: p,
        size,
    }
}

fn text_tests(s: &[u8], d: Entry) -> Result<ItemData, Failure>
    ensures { (h : List ℕ) (n : ℕ) → outcome_of result ≡ run (shape_check Text h n d) s.now }
{
    let p = d.offset as usize;
    let end = string_end(s, p)?;
    Ok(item_up_to(d, p + 1, end))
}

fn array_tests(s: &[u8], w: u8, d: Entry) -> Result<ItemData, Failure>
    ensures { (h : List ℕ) (n : ℕ) → outcome_of result ≡ run (shape_check (Array w) h n d) s.now }
{
    let m = array_count(s, d.offset)?;
    elements_of(s, w, d, m)
}

fn snp_array_tests(s: &[u8], t: Table, w: u8, d: Entry) -> Result<ItemData, Failure>
    ensures { outcome_of result ≡ run (shape_check (SnpArray w) t.entry.up_to.now t.entry.count d) s.now }
{
    let m = array_count(s, d.offset)?;
    snp_tests(t, d.offset as usize, m)?;
    elements_of(s, w, d, m)
}

fn scanner_tests(s: &[u8], d: Entry) -> Result<ItemData, Failure>
    ensures { (h : List ℕ) (n : ℕ) → outcome_of result ≡ run (shape_check Scanner h n d) s.now }
{
    let end = scanner_end(s, d.offset)?;
    Ok(item_up_to(d, d.offset as usize, end))
}

fn block_tests(s: &[u8], m: u8, d: Entry) -> Result<ItemData, Failure>
    ensures { (h : List ℕ) (n : ℕ) → outcome_of result ≡ run (shape_check (Block m) h n d) s.now }
{
    let start = d.offset as usize;
    let size = m as usize;
    let end = start + size;
    if s.len() < end {
        return Err(Failure::Short { start, end });
    }
    Ok(ItemData {
        code: d.id,
        count: m as u32,
        start,
        size,
    })
}

fn shape_tests(s: &[u8], t: Table, k: Shape, d: Entry) -> Result<ItemData, Failure>
    ensures { outcome_of result ≡ run (shape_check k t.entry.up_to.now t.entry.count d) s.now }
{
    match k {
        Shape::Text => text_tests(s, d),
        Shape::Array(w) => array_tests(s, w, d),
        Shape::SnpArray(w) => snp_array_tests(s, t, w, d),
        Shape::Scanner => scanner_tests(s, d),
        Shape::Block(m) => block_tests(s, m, d),
    }
}

// The offset is not negative and not below the end of the table.
#[tactic(auto, using(reading::proofs::Tests::tests), unfolding(reading::specs::Check::run))]
fn offset_tests(t: Table, d: Entry) -> Result<(), Test>
    ensures { (l : List ℕ) → outcome_of_tested result ≡ run (must (offset_field d) (AtLeast (table_end t.entry.count)) 6) l }
{
    let lowest = table_end(t.count);
    if NEGATIVE <= d.offset || (d.offset as usize) < lowest {
        return failed(
            d.offset_field(),
            Rule::AtLeast(lowest as u64),
            Refusal::BadOffset,
        );
    }
    Ok(())
}

fn shaped_tests(s: &[u8], t: Table, k: Shape, d: Entry) -> Result<ItemData, Failure>
    ensures { outcome_of result ≡ run (shaped_check k t.entry.up_to.now t.entry.count d) s.now }
{
    offset_tests(t, d)?;
    shape_tests(s, t, k, d)
}

// The checks of entry d of the table, whose data are stored so.
pub(crate) fn item_tests(s: &[u8], t: Table, v: Stored, d: Entry) -> Result<ItemData, Failure>
    ensures { outcome_of result ≡ run (item_check v t.entry.up_to.now t.entry.count d) s.now }
{
    match v {
        Stored::Value => Ok(ItemData {
            code: d.id,
            count: 4,
            start: d.place as usize + 2,
            size: 4,
        }),
        Stored::Shaped(k) => shaped_tests(s, t, k, d),
    }
}
