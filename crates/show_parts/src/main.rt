// Runs the calls that no C function reaches, on the ABIF file on standard input: the parts that lookup and the text call hand back, found and
// refused, and raw entries by their number.
#![tactic(auto)]

use abif::lookup::data_part;
use abif::tag::Tag;
use abif_elements::text::text_part;
use abif_file::entry::entry;
use lent_input::read_full;
use std::io;
use std::io::Write;

// A part as its length and its bytes. Each program has its own, since a public function states its result and no definition states what is printed.
fn put_part<W: Write>(to: &mut W, part: &[u8]) -> io::Result<()> {
    write!(to, "{} ", part.len())?;
    to.write_all(part)?;
    to.write_all(b"\n")
}

// The name's number of an entry, or the refusal.
fn put_entry<W: Write>(to: &mut W, s: &[u8], index: u64) -> io::Result<()> {
    match entry(s, index) {
        Ok(d) => writeln!(to, "{}", d.name),
        Err(r) => writeln!(to, "refused {r}"),
    }
}

fn main(rt: HostRuntime) -> io::Result<()> {
    let mut buffer = [0u8; 4096];
    let n = read_full(&mut rt.reader(), &mut buffer)?;
    let s = &buffer[..n];
    let to = &mut io::writer(&rt);
    for (name, number) in [(0x434d4e54, 1), (0x44594523, 1), (0x434d4e54, 2)] {
        let tag = Tag { name, number };
        put_part(to, data_part(s, tag))?;
        put_part(to, text_part(s, tag))?;
    }
    for index in 0..4 {
        put_entry(to, s, index)?;
    }
    Ok(())
}
