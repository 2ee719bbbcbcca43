// The line for a GTC file: its verdict, with the number of unjudged entries.
use crate::line::{RefusedFile, put_whole};
use gtc::judge::judge;
use std::io;
use std::io::Write;

pub(crate) fn put_file<W: Write>(to: &mut W, s: &[u8]) -> io::Result<()> {
    match judge(s) {
        Err(refused) => writeln!(to, "{}", RefusedFile("GTC", refused)),
        Ok(whole) => {
            put_whole(to, "GTC", whole.extent, s.len())?;
            writeln!(to, " unjudged {} tail {}", whole.unjudged, whole.tail)
        }
    }
}
