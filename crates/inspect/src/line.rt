// What the lines are made of. The output is not buffered, so that each piece is a write: a word, a name, a sign, the digits of a number.
ghost use Rattle.std.specs.Prelude.{◌≡◌};
ghost use Rattle.std.specs.Str.{IsUtf8};
ghost use Rattle.inspect.specs.Line.{printable_byte, name_text};

use reading::verdict::Refused;
use std::io::Write;
use std::{fmt, io};

// A byte that is no printable character of ASCII shows as a dot.
fn printable(b: u8) -> u8
    ensures { result ≡ printable_byte b }
{
    match b {
        b' '..=b'~' => b,
        _ => b'.',
    }
}

// The four characters of a name, given as a big-endian number.
fn name_text(name: u32) -> [u8; 4]
    ensures value { result ≡ name_text name }
    ensures utf8 { IsUtf8 result }
{
    let [a, b, c, d] = name.to_be_bytes();
    [printable(a), printable(b), printable(c), printable(d)]
}

// A tag's name, as the big-endian number of its bytes.
#[derive(Clone, Copy)]
pub(crate) struct Name(pub u32);

impl fmt::Display for Name {
    ghost use Rattle.std.specs.Prelude.{Some};

    ghost output = { λ n. Some (name_text n.0) };

    fn fmt<W: fmt::Write>(&self, f: &mut fmt::Formatter<W>) -> fmt::Result {
        let text = name_text(self.0);
        f.write_str(str::from_utf8(&text).unwrap())
    }
}

// A number, after its sign.
#[derive(Clone, Copy)]
pub(crate) struct Signed(pub i32);

impl fmt::Display for Signed {
    ghost use Rattle.std.specs.Fmt.{signed_decimal};
    ghost use Rattle.std.specs.Prelude.{Some};

    ghost output = { λ n. Some (signed_decimal n.0) };

    fn fmt<W: fmt::Write>(&self, f: &mut fmt::Formatter<W>) -> fmt::Result {
        if self.0 < 0 {
            f.write_str("-")?;
        }
        write!(f, "{}", self.0.unsigned_abs())
    }
}

// A refused file's line, up to its end, with the format's word.
#[derive(Clone, Copy)]
pub(crate) struct RefusedFile<'a>(pub &'a str, pub Refused);

impl fmt::Display for RefusedFile<'_> {
    ghost use Rattle.std.specs.Prelude.{Some};
    ghost use Rattle.inspect.specs.Line.{refused_line};

    ghost output = { λ l. Some (refused_line l.0.now l.1) };

    fn fmt<W: fmt::Write>(&self, f: &mut fmt::Formatter<W>) -> fmt::Result {
        let Refused { refusal, entry } = self.1;
        write!(f, "{} refused {refusal} at {entry}", self.0)
    }
}

// What a whole file's line begins with, after the format's word.
pub(crate) fn put_whole<W: Write>(
    to: &mut W,
    format: &str,
    extent: usize,
    length: usize,
) -> io::Result<()> {
    write!(to, "{format} whole {extent} of {length}")
}
