// What the input is, by its length and its mark.
ghost use Rattle.std.specs.Prelude.{◌≡◌};
ghost use Rattle.reading.specs.Number.{be};
ghost use Rattle.inspect.specs.Input.{input_of};

use reading::number::{be16, be32, byte};

#[derive(Clone, Copy)]
pub(crate) enum Input {
    TooLong,
    Unknown,
    Abif,
    Sff,
    Gtc,
}

// The first three bytes, highest first.
fn first_three(s: &[u8]) -> u32
    ensures { result ≡ be 3 s.now 0 }
{
    256 * be16(s, 0) as u32 + byte(s, 2) as u32
}

// Length comes before mark. Of fewer bytes than a mark has those missing read as 0, which no mark has.
pub(crate) fn input_of(s: &[u8]) -> Input
    ensures { result ≡ input_of s.now }
{
    if 65536 < s.len() {
        return Input::TooLong;
    }
    let mark = be32(s, 0);
    if mark == 0x41424946 {
        return Input::Abif;
    }
    if mark == 0x2e736666 {
        return Input::Sff;
    }
    if first_three(s) == 0x677463 {
        return Input::Gtc;
    }
    Input::Unknown
}
