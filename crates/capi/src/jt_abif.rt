// The ABIF calls. A name is its four bytes as a big-endian number; a part is told by its start and length.
ghost use Rattle.std.specs.Prelude.{◌≡◌, length};
ghost use Rattle.reading.specs.Number.{bits};
ghost use Rattle.reading.specs.Check.{answer, map_answer};
ghost use Rattle.reading.specs.Verdict.{verdict_of};
ghost use Rattle.reading.specs.Lent.{filled};
ghost use Rattle.abif.specs.Directory.{opening};
ghost use Rattle.abif.specs.Judge.{judging, extent_of};
ghost use Rattle.abif.specs.Lookup.{looking_up};
ghost use Rattle.abif_elements.specs.Element.{element_reading};
ghost use Rattle.abif_elements.specs.Text.{text_reading};
ghost use Rattle.abif_elements.specs.Numbers.{numbers_reading};
ghost use Rattle.abif_tags.specs.Report.{finding_numbers, checking_tags};
ghost use Rattle.capi.specs.Answers.{as_verdict, as_item, as_part, as_listed};
ghost use Rattle.capi.specs.Abif.{as_opened, as_element, number_element, fields_element};

use crate::answers::{Element, Item, Listed, Opened, Part, Verdict};
use abif::directory::Directory;
use abif::tag::Tag;
use abif::{directory, judge, lookup};
use abif_elements::{element, numbers, text};
use abif_tags::check;
use reading::refusal::Refusal;

// Whether the bytes are a whole ABIF file, with its extent and its tail.
#[unsafe(no_mangle)]
pub extern "C" fn jt_abif_judge(s: &[u8]) -> Verdict
    ensures { result ≡ as_verdict (verdict_of judging extent_of s.now) }
{
    judge::judge(s).into()
}

impl From<Result<Directory, Refusal>> for Opened {
    ghost use Rattle.abif.specs.Answers.{answer_of_opened};
    ghost use Rattle.capi.specs.Abif.{as_opened};

    ghost from_gives = { λ r a. a ≡ as_opened (answer_of_opened r) };

    fn from(opened: Result<Directory, Refusal>) -> Opened {
        match opened {
            Ok(directory) => Opened {
                refusal: 0,
                place: directory.place as u64,
                count: directory.count as u64,
            },
            Err(refusal) => Opened {
                refusal: refusal.into(),
                ..Opened::default()
            },
        }
    }
}

// The place and the count of the directory.
#[unsafe(no_mangle)]
pub extern "C" fn jt_abif_open(s: &[u8]) -> Opened
    ensures { result ≡ as_opened (answer opening s.now) }
{
    directory::open(s).into()
}

// The item with the tag of this name and number.
#[unsafe(no_mangle)]
pub extern "C" fn jt_abif_lookup(s: &[u8], name: u32, number: i32) -> Item
    ensures { result ≡ as_item (answer (looking_up name (bits 4 number)) s.now) }
{
    lookup::lookup(s, Tag { name, number }).into()
}

// An element of this kind that is a number.
fn number_element(kind: u64, whole: i64) -> Element
    ensures { result ≡ number_element kind whole }
{
    Element {
        kind,
        whole,
        ..Element::default()
    }
}

// An element of this kind of up to four numbers.
fn fields_element(kind: u64, a: i32, b: i32, c: i32, d: i32) -> Element
    ensures { result ≡ fields_element kind a b c d }
{
    Element {
        kind,
        a,
        b,
        c,
        d,
        ..Element::default()
    }
}

// The kinds: 1 whole number, 2 and 3 floats, 4 date, 5 time, 6 bool, 7 thumb.
impl From<element::Element> for Element {
    ghost use Rattle.reading.specs.Check.{ok};
    ghost use Rattle.abif_elements.specs.Answers.{value_of};
    ghost use Rattle.capi.specs.Abif.{as_element};

    ghost from_gives = { λ e a. a ≡ as_element (ok (value_of e)) };

    fn from(found: element::Element) -> Element {
        match found {
            element::Element::Whole(whole) => number_element(1, whole),
            element::Element::Single(single, single_bits) => Element {
                kind: 2,
                single,
                single_bits,
                ..Element::default()
            },
            element::Element::Double(real, real_bits) => Element {
                kind: 3,
                real,
                real_bits,
                ..Element::default()
            },
            element::Element::Date { year, month, day } => {
                fields_element(4, year as i32, month as i32, day as i32, 0)
            }
            element::Element::Time {
                hour,
                minute,
                second,
                hundredth,
            } => fields_element(
                5,
                hour as i32,
                minute as i32,
                second as i32,
                hundredth as i32,
            ),
            element::Element::Bool(holds) => number_element(6, i64::from(holds)),
            element::Element::Thumb { d, u, c, n } => fields_element(7, d, u, c as i32, n as i32),
        }
    }
}

impl From<Result<element::Element, Refusal>> for Element {
    ghost use Rattle.abif_elements.specs.Answers.{answer_of_element};
    ghost use Rattle.capi.specs.Abif.{as_element};

    ghost from_gives = { λ r a. a ≡ as_element (answer_of_element r) };

    fn from(found: Result<element::Element, Refusal>) -> Element {
        match found {
            Ok(element) => element.into(),
            Err(refusal) => Element {
                refusal: refusal.into(),
                ..Element::default()
            },
        }
    }
}

// Element number `index`, from one, of the item with this tag.
#[unsafe(no_mangle)]
pub extern "C" fn jt_abif_element(s: &[u8], name: u32, number: i32, index: u64) -> Element
    ensures { result ≡ as_element (answer (element_reading name (bits 4 number) index) s.now) }
{
    element::read_element(s, Tag { name, number }, index).into()
}

// Where the text of the item with this tag stands.
#[unsafe(no_mangle)]
pub extern "C" fn jt_abif_text(s: &[u8], name: u32, number: i32) -> Part
    ensures { result ≡ as_part (answer (text_reading name (bits 4 number)) s.now) }
{
    text::read_text(s, Tag { name, number }).into()
}

// The whole numbers of the item with this tag, from element `first` on, at the front of the lent list.
#[unsafe(no_mangle)]
pub extern "C" fn jt_abif_whole_numbers(
    s: &[u8],
    name: u32,
    number: i32,
    first: u64,
    out: &mut [i64],
) -> Listed
    ensures value { result ≡ as_listed (map_answer length (answer (numbers_reading name (bits 4 number) first (length out.old)) s.now)) }
    ensures out_after { out.new ≡ filled
        (answer (numbers_reading name (bits 4 number) first (length out.old)) s.now)
        out.old }
{
    numbers::whole_numbers(s, Tag { name, number }, first, out).into()
}

// What is found of the file's tags against a profile, at the front of the lent list.
#[unsafe(no_mangle)]
pub extern "C" fn jt_abif_check_tags(s: &[u8], profile: u64, out: &mut [i64]) -> Listed
    ensures value { result ≡ as_listed (map_answer length (answer (checking_tags profile (length out.old)) s.now)) }
    ensures out_after { out.new ≡ filled
        (map_answer finding_numbers (answer (checking_tags profile (length out.old)) s.now))
        out.old }
{
    check::check_tags(s, profile, out).into()
}
