// The elements of an item.
ghost use Rattle.std.specs.Prelude.{◌≡◌, List, ℕ, ◌+◌, ◌-◌, ◌*◌, ◌≤◌, ◌<◌, length};
ghost use Rattle.reading.specs.Number.{bits};
ghost use Rattle.reading.specs.Check.{answer};
ghost use Rattle.abif.specs.Entry.{type_of};
ghost use Rattle.abif.specs.Private.{Checked};
ghost use Rattle.abif_elements.specs.Element.{whole_at, date_at, time_at, value_at, size_of, element_of, element_reading};
ghost use Rattle.abif_elements.specs.Answers.{answer_of_element};

use abif::entry::{ElementType, type_of};
use abif::lookup::lookup;
use abif::tag::Tag;
use contents::date::date_holds;
use contents::time::time_holds;
use reading::float::{double, single};
use reading::item::ItemData;
use reading::number::{be16, be32, be64, byte};
use reading::refusal::Refusal;

// The element size of a type, 0 for one whose data are raw bytes.
pub(crate) fn width_of(code: u16) -> u16
    ensures { result ≡ size_of (type_of code) }
{
    match type_of(code) {
        ElementType::Listed(w) => w,
        ElementType::Raw | ElementType::Unknown => 0,
    }
}

// What an element is. A float comes with its bits.
#[derive(Clone, Copy)]
pub enum Element {
    Whole(i64),
    Single(f32, u32),
    Double(f64, u64),
    Date {
        year: i16,
        month: u8,
        day: u8,
    },
    Time {
        hour: u8,
        minute: u8,
        second: u8,
        hundredth: u8,
    },
    Bool(bool),
    Thumb {
        d: i32,
        u: i32,
        c: u8,
        n: u8,
    },
}

// The whole number of this type at place p. A part of a fixed length is read with no test of its length, so a loop over this is fast.
// The codes here and below are the published ones, each named in one place: `type_of` of `abif`.
pub(crate) fn whole_at(l: &[u8], code: u16, p: usize) -> i64
    requires { p + size_of (type_of code) ≤ length l.now }
    ensures { result ≡ whole_at code l.now p }
{
    match code {
        1 => {
            let end = p + 1;
            byte(&l[p..end], 0) as i64
        }
        2 => {
            let end = p + 1;
            byte(&l[p..end], 0).cast_signed() as i64
        }
        3 => {
            let end = p + 2;
            be16(&l[p..end], 0) as i64
        }
        4 => {
            let end = p + 2;
            be16(&l[p..end], 0).cast_signed() as i64
        }
        5 => {
            let end = p + 4;
            be32(&l[p..end], 0).cast_signed() as i64
        }
        _ => byte(l, p) as i64,
    }
}

fn date_at(l: &[u8], p: usize) -> Result<Element, Refusal>
    requires { p + 4 ≤ length l.now }
    ensures { (s : List ℕ) → answer_of_element result ≡ answer (date_at l.now p) s }
{
    let year = be16(l, p).cast_signed();
    let month = byte(l, p + 2);
    let day = byte(l, p + 3);
    if !date_holds(year, month, day) {
        return Err(Refusal::Forbidden);
    }
    Ok(Element::Date { year, month, day })
}

fn time_at(l: &[u8], p: usize) -> Result<Element, Refusal>
    requires { p + 4 ≤ length l.now }
    ensures { (s : List ℕ) → answer_of_element result ≡ answer (time_at l.now p) s }
{
    let hour = byte(l, p);
    let minute = byte(l, p + 1);
    let second = byte(l, p + 2);
    let hundredth = byte(l, p + 3);
    if !time_holds(hour, minute, second, hundredth) {
        return Err(Refusal::Forbidden);
    }
    Ok(Element::Time {
        hour,
        minute,
        second,
        hundredth,
    })
}

fn value_at(l: &[u8], code: u16, p: usize) -> Result<Element, Refusal>
    requires { p + size_of (type_of code) ≤ length l.now }
    ensures { (s : List ℕ) → answer_of_element result ≡ answer (value_at code l.now p) s }
{
    match code {
        7 => {
            let bits = be32(l, p);
            Ok(Element::Single(single(bits), bits))
        }
        8 => {
            let bits = be64(l, p);
            Ok(Element::Double(double(bits), bits))
        }
        10 => date_at(l, p),
        11 => time_at(l, p),
        12 => Ok(Element::Thumb {
            d: be32(l, p).cast_signed(),
            u: be32(l, p + 4).cast_signed(),
            c: byte(l, p + 8),
            n: byte(l, p + 9),
        }),
        13 => Ok(Element::Bool(byte(l, p) != 0)),
        _ => Ok(Element::Whole(whole_at(l, code, p))),
    }
}

// The place of element `index`, from one, of elements that are w bytes wide.
pub(crate) fn element_place(start: usize, w: u16, index: u64) -> usize
    requires { (start < 0x100000000) × (1 ≤ index) × (index < 0x100000000) }
    ensures { (result ≡ start + w * (index - 1)) × (result < 0x2000000000000) }
{
    start + w as usize * (index - 1) as usize
}

// That an item's data have passed their checks is a fact of the item and of the file's bytes, which no struct holds together: contracts ask it.
fn listed_element(s: &[u8], q: ItemData, w: u16, index: u64) -> Result<Element, Refusal>
    requires { Checked s.now q × (type_of q.code ≡ ElementType.Listed w) }
    ensures { answer_of_element result ≡ answer (element_of q index) s.now }
{
    if index < 1 || (q.count as u64) < index {
        return Err(Refusal::NoSuchElement);
    }
    let end = q.start + q.size;
    let p = element_place(q.start, w, index);
    value_at(&s[..end], q.code, p)
}

fn element_of(s: &[u8], q: ItemData, index: u64) -> Result<Element, Refusal>
    requires { Checked s.now q }
    ensures { answer_of_element result ≡ answer (element_of q index) s.now }
{
    match type_of(q.code) {
        ElementType::Listed(w) => listed_element(s, q, w, index),
        ElementType::Raw | ElementType::Unknown => Err(Refusal::OtherType),
    }
}

// Element number `index`, from one, of the item with this tag.
pub fn read_element(s: &[u8], tag: Tag, index: u64) -> Result<Element, Refusal>
    ensures { answer_of_element result ≡ answer (element_reading tag.name (bits 4 tag.number) index) s.now }
{
    let q = lookup(s, tag)?;
    element_of(s, q, index)
}
