// Runs the calls of an opened file, with those that no C function reaches, on the ABIF file on standard input: with the place and count that opening
// gives, with others, and on a file that is cut short.
#![tactic(auto)]

use abif::tag::Tag;
use abif_elements::element::Element;
use abif_file::file::AbifFile;
use lent_input::read_full;
use reading::item::ItemData;
use reading::part::{Span, part};
use reading::refusal::Refusal;
use std::io;
use std::io::Write;

// A part as its length and its bytes. Each program has its own, since a public function states its result and no definition states what is printed.
fn put_part<W: Write>(to: &mut W, part: &[u8]) -> io::Result<()> {
    write!(to, "{} ", part.len())?;
    to.write_all(part)?;
    to.write_all(b"\n")
}

// A refusal, by its number.
fn put_refused<W: Write>(to: &mut W, r: Refusal) -> io::Result<()> {
    writeln!(to, "refused {r}")
}

// The type, the count, the start and the length, or the refusal.
fn put_found<W: Write>(to: &mut W, found: Result<ItemData, Refusal>) -> io::Result<()> {
    match found {
        Ok(d) => writeln!(to, "{} {} {} {}", d.code, d.count, d.start, d.size),
        Err(r) => put_refused(to, r),
    }
}

// The start and the length, or the refusal.
fn put_text<W: Write>(to: &mut W, text: Result<Span, Refusal>) -> io::Result<()> {
    match text {
        Ok(t) => writeln!(to, "{} {}", t.start, t.size),
        Err(r) => put_refused(to, r),
    }
}

// A whole number, 0 for a negative one, or the refusal; the file has no other element.
fn put_element<W: Write>(to: &mut W, element: Result<Element, Refusal>) -> io::Result<()> {
    match element {
        Ok(Element::Whole(x)) => writeln!(to, "{}", x.max(0)),
        Ok(_) => Ok(()),
        Err(r) => put_refused(to, r),
    }
}

// Every call, for the comment and the dye with this number.
fn put_items<W: Write>(to: &mut W, f: AbifFile<'_>, number: i32) -> io::Result<()> {
    let comment = Tag {
        name: 0x434d4e54,
        number,
    };
    let dye = Tag {
        name: 0x44594523,
        number,
    };
    put_found(to, f.lookup(comment))?;
    put_part(to, f.data_part(comment))?;
    put_text(to, f.read_text(comment))?;
    put_part(to, f.text_part(comment))?;
    put_element(to, f.read_element(dye, 1))
}

// The items that the file has, and then some that it does not have.
fn put_file<W: Write>(to: &mut W, f: AbifFile<'_>) -> io::Result<()> {
    put_items(to, f, 1)?;
    put_items(to, f, 2)
}

// What opening gives, and the calls with that.
fn put_opened<W: Write>(to: &mut W, s: &[u8]) -> io::Result<()> {
    let f = AbifFile::open(s);
    writeln!(to, "{} {}", f.place, f.count)?;
    put_file(to, f)
}

// The file as it is opened, with a wrong place, with a wrong count, with a place that is right in its low 32 bits alone; and its first 100 bytes.
fn main(rt: HostRuntime) -> io::Result<()> {
    let mut buffer = [0u8; 4096];
    let n = read_full(&mut rt.reader(), &mut buffer)?;
    let s = &buffer[..n];
    let to = &mut io::writer(&rt);
    put_opened(to, s)?;
    for (place, count) in [(156, 2), (128, 1), (0x1_0000_0080, 2)] {
        let f = AbifFile {
            bytes: s,
            place,
            count,
        };
        put_file(to, f)?;
    }
    put_opened(to, part(s, 0, 100))
}
