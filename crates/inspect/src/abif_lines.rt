// The lines for an ABIF file: its verdict and, if it is whole, its directory's entries.
use crate::line::{Name, RefusedFile, Signed, put_whole};
use abif::directory::open;
use abif::judge::judge;
use abif_file::entry::{RawEntry, entry};
use std::io;
use std::io::Write;

fn put_entry<W: Write>(to: &mut W, d: RawEntry) -> io::Result<()> {
    write!(to, "{} {}", Name(d.name), Signed(d.number))?;
    write!(to, " type {}", Signed(d.element_type.into()))?;
    write!(to, " count {}", Signed(d.element_count))?;
    write!(to, " size {}", Signed(d.data_size))?;
    // Data of 4 bytes or fewer stand in the entry itself.
    if d.data_size <= 4 {
        writeln!(to, " inline")
    } else {
        writeln!(to, " at {}", Signed(d.data_offset))
    }
}

// The entries of a file that opens, counted from 1.
fn put_entries<W: Write>(to: &mut W, s: &[u8]) -> io::Result<()> {
    let Ok(directory) = open(s) else {
        return Ok(());
    };
    for i in 1..=directory.count {
        if let Ok(d) = entry(s, i as u64) {
            put_entry(to, d)?;
        }
    }
    Ok(())
}

pub(crate) fn put_file<W: Write>(to: &mut W, s: &[u8]) -> io::Result<()> {
    match judge(s) {
        Err(refused) => writeln!(to, "{}", RefusedFile("ABIF", refused)),
        Ok(whole) => {
            put_whole(to, "ABIF", whole.extent, s.len())?;
            writeln!(to, " tail {}", whole.tail)?;
            put_entries(to, s)
        }
    }
}
