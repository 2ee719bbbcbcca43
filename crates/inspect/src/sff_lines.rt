// The line for an SFF file: its verdict.
use crate::line::{RefusedFile, put_whole};
use sff::judge::judge;
use std::io;
use std::io::Write;

pub(crate) fn put_file<W: Write>(to: &mut W, s: &[u8]) -> io::Result<()> {
    match judge(s) {
        Err(refused) => writeln!(to, "{}", RefusedFile("SFF", refused)),
        Ok(whole) => {
            put_whole(to, "SFF", whole.extent, s.len())?;
            writeln!(to, " tail {}", whole.tail)
        }
    }
}
