// Numbers written into lent bytes, highest byte first. Where there is no room nothing is changed.
ghost use Rattle.std.specs.Prelude.{◌≡◌, length};
ghost use Rattle.writing.specs.Put.{words, put};

// Writes the numbers of v from place p on, two bytes each.
pub fn put_words(out: &mut [u8], p: usize, v: &[u16])
    ensures { out.new ≡ put out.old p (words v.now (length v.now) 0) }
{
    let size = 2 * v.len();
    if out.len() < size || out.len() - size < p {
        return;
    }
    for (i, x) in v.iter().enumerate() {
        let at = p + 2 * i;
        let end = at + 2;
        out[at..end].copy_from_slice(&x.to_be_bytes());
    }
}
