// Parts of lent bytes.
ghost use Rattle.std.specs.Prelude.{◌≡◌};
ghost use Rattle.reading.specs.Part.{shown, part_within};

// Where a part of the bytes stands.
#[derive(Clone, Copy)]
pub struct Span {
    pub start: usize,
    pub size: usize,
}

// The n bytes from place a on, or the empty part at the start where they are not all there. The calls that hand back the part of an answer give its
// place, or 0 and 0 where it is refused, each by itself: one call for both would ask that the answer's part is there, and no public function asks anything.
pub fn part(s: &[u8], a: usize, n: usize) -> &[u8]
    ensures { shown result ≡ part_within (shown s.entry) a n }
{
    if s.len() < a || s.len() - a < n {
        return &s[0..0];
    }
    let e = a + n;
    &s[a..e]
}
