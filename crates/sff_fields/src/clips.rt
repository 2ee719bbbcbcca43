// The clips of a read, and the first and the last base of its insert.
ghost use Rattle.std.specs.Prelude.{◌≡◌, List, ℕ};
ghost use Rattle.reading.specs.Choice.{pick};
ghost use Rattle.reading.specs.Check.{answer, ok, refused};
ghost use Rattle.sff_fields.specs.Clips.{clips_check, first_base, last_base, right_clip};

use crate::read::ReadHeader;

// No clip is above the bases: the largest is not.
pub fn clips_hold(d: ReadHeader) -> bool
    ensures { (l : List ℕ) → pick result (ok tt) (refused 11 0) ≡ answer (clips_check d) l }
{
    let most = d
        .quality_left
        .max(d.quality_right)
        .max(d.adapter_left)
        .max(d.adapter_right);
    most as u32 <= d.bases
}

// A right clip of 0 counts as the number of bases.
fn right_clip(d: ReadHeader, c: u16) -> usize
    ensures { result ≡ right_clip d c }
{
    if c == 0 { d.bases as usize } else { c as usize }
}

// The first base of a read's insert, from one.
pub fn first_base(d: ReadHeader) -> usize
    ensures { result ≡ first_base d }
{
    d.quality_left.max(d.adapter_left).max(1) as usize
}

// The last base of a read's insert, from one.
pub fn last_base(d: ReadHeader) -> usize
    ensures { result ≡ last_base d }
{
    right_clip(d, d.quality_right).min(right_clip(d, d.adapter_right))
}
