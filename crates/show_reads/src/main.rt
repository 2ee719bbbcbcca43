// Runs the calls that no C function reaches, on the SFF file on standard input: the parts of a read that are handed back, found and refused.
#![tactic(auto)]

use lent_input::read_full;
use sff::lookup::read_part;
use sff_fields::parts::ReadPart;
use std::io;
use std::io::Write;

// A part as its length and its bytes. Each program has its own, since a public function states its result and no definition states what is printed.
fn put_part<W: Write>(to: &mut W, part: &[u8]) -> io::Result<()> {
    write!(to, "{} ", part.len())?;
    to.write_all(part)?;
    to.write_all(b"\n")
}

// Every part of read k.
fn put_read<W: Write>(to: &mut W, s: &[u8], k: u64) -> io::Result<()> {
    let parts = [
        ReadPart::Name,
        ReadPart::Flows,
        ReadPart::Steps,
        ReadPart::Letters,
        ReadPart::Qualities,
        ReadPart::Insert,
    ];
    for which in parts {
        put_part(to, read_part(s, k, which))?;
    }
    Ok(())
}

// The file has an insert in read 1, an empty one in read 2, a clip above the bases in read 3, and the index behind read 1.
fn main(rt: HostRuntime) -> io::Result<()> {
    let mut buffer = [0u8; 4096];
    let n = read_full(&mut rt.reader(), &mut buffer)?;
    let s = &buffer[..n];
    let to = &mut io::writer(&rt);
    for k in 0..5 {
        put_read(to, s, k)?;
    }
    Ok(())
}
