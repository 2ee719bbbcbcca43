// The text of an item.
ghost use Rattle.std.specs.Prelude.{◌≡◌, List, ℕ, ◌+◌, ◌≤◌, length};
ghost use Rattle.reading.specs.Number.{bits};
ghost use Rattle.reading.specs.Check.{answer};
ghost use Rattle.reading.specs.Part.{shown, handed_back};
ghost use Rattle.reading.specs.Answers.{answer_of};
ghost use Rattle.abif_elements.specs.Text.{p_string, c_string, text_of, text_reading};

use abif::lookup::lookup;
use abif::tag::Tag;
use contents::text::{c_string_holds, p_string_holds};
use reading::item::ItemData;
use reading::part::{Span, part};
use reading::refusal::Refusal;

// Two functions, for the two kinds differ in their rule and in where the text starts: one that is given both is no plainer.
fn p_string(l: &[u8], q: ItemData) -> Result<Span, Refusal>
    requires { q.start + q.size ≤ length l.now }
    ensures { (s : List ℕ) → answer_of result ≡ answer (p_string q l.now) s }
{
    let start = q.start;
    let end = start + q.size;
    if !p_string_holds(&l[start..end]) {
        return Err(Refusal::Forbidden);
    }
    Ok(Span {
        start: start + 1,
        size: q.size - 1,
    })
}

fn c_string(l: &[u8], q: ItemData) -> Result<Span, Refusal>
    requires { q.start + q.size ≤ length l.now }
    ensures { (s : List ℕ) → answer_of result ≡ answer (c_string q l.now) s }
{
    let start = q.start;
    let end = start + q.size;
    if !c_string_holds(&l[start..end]) {
        return Err(Refusal::Forbidden);
    }
    Ok(Span {
        start,
        size: q.size - 1,
    })
}

// The codes are the published ones, each named in one place: `type_of` of `abif`.
fn text_of(s: &[u8], q: ItemData) -> Result<Span, Refusal>
    requires { q.start + q.size ≤ length s.now }
    ensures { answer_of result ≡ answer (text_of q) s.now }
{
    let end = q.start + q.size;
    let l = &s[..end];
    match q.code {
        18 => p_string(l, q),
        19 => c_string(l, q),
        _ => Err(Refusal::OtherType),
    }
}

// Where the text of the item with this tag stands.
pub fn read_text(s: &[u8], tag: Tag) -> Result<Span, Refusal>
    ensures { answer_of result ≡ answer (text_reading tag.name (bits 4 tag.number)) s.now }
{
    let q = lookup(s, tag)?;
    text_of(s, q)
}

// The text as a part of the caller's bytes; the empty part at their start where it is refused.
pub fn text_part(s: &[u8], tag: Tag) -> &[u8]
    ensures { shown result ≡ handed_back (shown s.entry) (answer (text_reading tag.name (bits 4 tag.number)) s.now) }
{
    match read_text(s, tag) {
        Ok(text) => part(s, text.start, text.size),
        Err(_) => part(s, 0, 0),
    }
}
