// Tells of the file on standard input, in lines on standard output.
#![tactic(auto)]

mod abif_lines;
mod gtc_lines;
mod input;
mod line;
mod sff_lines;

use crate::input::{Input, input_of};
use lent_input::read_full;
use std::io;
use std::io::Write;

fn report<W: Write>(to: &mut W, s: &[u8]) -> io::Result<()> {
    match input_of(s) {
        Input::TooLong => writeln!(to, "too long"),
        Input::Unknown => writeln!(to, "unknown"),
        Input::Abif => abif_lines::put_file(to, s),
        Input::Sff => sff_lines::put_file(to, s),
        Input::Gtc => gtc_lines::put_file(to, s),
    }
}

fn main(rt: HostRuntime) -> io::Result<()> {
    // one byte more than a file may have, so that a longer one is seen
    let mut buffer = [0u8; 65537];
    let n = read_full(&mut rt.reader(), &mut buffer)?;
    report(&mut io::writer(&rt), &buffer[..n])
}
