// Runs the calls that no C function reaches, on the GTC file on standard input: the parts that an id or a transformation's number hands back,
// found and refused, and what genotype codes mean.
#![tactic(auto)]

use gtc::lookup::data_part;
use gtc_records::genotype::{Genotype, genotype_of};
use gtc_records::transformation::transformation_part;
use lent_input::read_full;
use std::io;
use std::io::Write;

fn put<W: Write>(to: &mut W, text: &[u8]) -> io::Result<()> {
    to.write_all(text)
}

// A part as its length and its bytes. Each program has its own, since a public function states its result and no definition states what is printed.
fn put_part<W: Write>(to: &mut W, part: &[u8]) -> io::Result<()> {
    write!(to, "{} ", part.len())?;
    to.write_all(part)?;
    to.write_all(b"\n")
}

// The letters of a genotype, A before B.
fn put_letters<W: Write>(to: &mut W, ploidy: u8, b_alleles: u8) -> io::Result<()> {
    for left in (1..=ploidy).rev() {
        if left <= b_alleles {
            put(to, b"B")?;
        } else {
            put(to, b"A")?;
        }
    }
    Ok(())
}

fn put_genotype<W: Write>(to: &mut W, g: Genotype) -> io::Result<()> {
    match g {
        Genotype::NoCall => put(to, b"NC"),
        Genotype::Null => put(to, b"NULL"),
        Genotype::Alleles { ploidy, b_alleles } => put_letters(to, ploidy, b_alleles),
    }
}

// What a genotype's code means, or the refusal.
fn put_code<W: Write>(to: &mut W, code: u8) -> io::Result<()> {
    match genotype_of(code) {
        Ok(g) => put_genotype(to, g)?,
        Err(refusal) => write!(to, "refused {refusal}")?,
    }
    put(to, b"\n")
}

// A value, a string, one element for each SNP, transformations, scanner data, a block and an empty array; then an id that is missing, one that
// stands twice and one that Table 3 does not list.
fn put_items<W: Write>(to: &mut W, s: &[u8]) -> io::Result<()> {
    put_part(to, data_part(s, 1010))?;
    put_part(to, data_part(s, 10))?;
    put_part(to, data_part(s, 1003))?;
    put_part(to, data_part(s, 400))?;
    put_part(to, data_part(s, 1005))?;
    put_part(to, data_part(s, 1011))?;
    put_part(to, data_part(s, 500))?;
    put_part(to, data_part(s, 11))?;
    put_part(to, data_part(s, 12))?;
    put_part(to, data_part(s, 999))
}

// The file has two transformations.
fn put_transformations<W: Write>(to: &mut W, s: &[u8]) -> io::Result<()> {
    put_part(to, transformation_part(s, 0))?;
    put_part(to, transformation_part(s, 1))?;
    put_part(to, transformation_part(s, 2))?;
    put_part(to, transformation_part(s, 3))
}

fn put_codes<W: Write>(to: &mut W) -> io::Result<()> {
    put_code(to, 0)?;
    put_code(to, 4)?;
    put_code(to, 1)?;
    put_code(to, 13)?;
    put_code(to, 45)?;
    put_code(to, 46)
}

fn main(rt: HostRuntime) -> io::Result<()> {
    let mut buffer = [0u8; 4096];
    let n = read_full(&mut rt.reader(), &mut buffer)?;
    let s = &buffer[..n];
    let to = &mut io::writer(&rt);
    put_items(to, s)?;
    put_transformations(to, s)?;
    put_codes(to)
}
