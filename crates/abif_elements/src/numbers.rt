// The elements of a whole-number item, many at once.
ghost use Rattle.std.specs.Prelude.{◌≡◌, ◌+◌, ◌*◌, ◌≤◌, length};
ghost use Rattle.reading.specs.Number.{bits};
ghost use Rattle.reading.specs.Check.{answer, map_answer};
ghost use Rattle.reading.specs.Lent.{filled};
ghost use Rattle.reading.specs.Answers.{answer_of};
ghost use Rattle.abif.specs.Entry.{type_of};
ghost use Rattle.abif.specs.Private.{Checked};
ghost use Rattle.abif_elements.specs.Element.{size_of};
ghost use Rattle.abif_elements.specs.Numbers.{is_whole, wholes_at, numbers_of_item, numbers_reading};

use crate::element::{element_place, whole_at, width_of};
use abif::lookup::lookup;
use abif::tag::Tag;
use reading::item::ItemData;
use reading::refusal::Refusal;

// The codes here and below are the published ones, each named in one place: `type_of` of `abif`.
#[tactic(auto, using(std::proofs::lemmas::Bool::Decides::nat_tests), unfolding(crate::specs::Numbers::is_whole))]
fn is_whole(code: u16) -> bool
    ensures { result ≡ is_whole code }
{
    matches!(code, 1..=5 | 18 | 19)
}

// The numbers that stand w bytes apart from place p on, as many as the output holds.
fn copy(l: &[u8], code: u16, w: usize, p: usize, out: &mut [i64])
    requires { (w ≡ size_of (type_of code)) × (p + w * length out.old ≤ length l.now) }
    ensures { out.new ≡ wholes_at code w l.now p (length out.old) }
{
    for (i, x) in out.iter_mut().enumerate() {
        *x = whole_at(l, code, p + w * i);
    }
}

// The same, with the type and its size told apart before the loop, so that each loop has one kind of number and a fixed step, which is faster.
fn copy_of_type(l: &[u8], code: u16, w: usize, p: usize, out: &mut [i64])
    requires { (w ≡ size_of (type_of code)) × (p + w * length out.old ≤ length l.now) }
    ensures { out.new ≡ wholes_at code w l.now p (length out.old) }
{
    match code {
        1 => copy(l, 1, 1, p, out),
        2 => copy(l, 2, 1, p, out),
        3 => copy(l, 3, 2, p, out),
        4 => copy(l, 4, 2, p, out),
        5 => copy(l, 5, 4, p, out),
        18 => copy(l, 18, 1, p, out),
        19 => copy(l, 19, 1, p, out),
        _ => copy(l, code, w, p, out),
    }
}

// That the item's data have passed their checks is asked as in `element`.
#[tactic(auto, using(reading::proofs::Tests::tests, crate::proofs::numbers::Laws::of_little))]
fn numbers_of(s: &[u8], q: ItemData, first: u64, out: &mut [i64]) -> Result<u64, Refusal>
    requires { Checked s.now q }
    ensures result_value { answer_of result ≡ map_answer length (answer (numbers_of_item q first (length out.old)) s.now) }
    ensures out_after { out.new ≡ filled (answer (numbers_of_item q first (length out.old)) s.now) out.old }
{
    if !is_whole(q.code) {
        return Err(Refusal::OtherType);
    }
    if first < 1 || (q.count as u64) < first {
        return Err(Refusal::NoSuchElement);
    }
    if out.is_empty() {
        return Err(Refusal::NoRoom);
    }
    let n = out.len().min((q.count as u64 - (first - 1)) as usize);
    let w = width_of(q.code);
    let p = element_place(q.start, w, first);
    let end = q.start + q.size;
    copy_of_type(&s[..end], q.code, w as usize, p, &mut out[..n]);
    Ok(n as u64)
}

// The elements from number `first` on, as many as are left and as fit, at the output's front.
pub fn whole_numbers(s: &[u8], tag: Tag, first: u64, out: &mut [i64]) -> Result<u64, Refusal>
    ensures result_value { answer_of result ≡ map_answer length (answer (numbers_reading tag.name (bits 4 tag.number) first (length out.old)) s.now) }
    ensures out_after { out.new ≡ filled (answer (numbers_reading tag.name (bits 4 tag.number) first (length out.old)) s.now) out.old }
{
    let q = lookup(s, tag)?;
    numbers_of(s, q, first, out)
}
