// Bytes written into lent bytes. Where there is no room nothing is changed, so that every call has an answer at every place.
ghost use Rattle.std.specs.Prelude.{◌≡◌, replicate};
ghost use Rattle.writing.specs.Put.{put};

// Copies all of v to place p: a part of another list, or a number's bytes.
pub fn copy(out: &mut [u8], p: usize, v: &[u8])
    ensures { out.new ≡ put out.old p v.now }
{
    if out.len() < v.len() || out.len() - v.len() < p {
        return;
    }
    // A loop, since the library's copy calls `memmove`, which C programs that link no C library would have to bring.
    for (i, b) in v.iter().enumerate() {
        out[p + i] = *b;
    }
}

// Writes n zeros from place p on.
pub fn put_zeros(out: &mut [u8], p: usize, n: usize)
    ensures { out.new ≡ put out.old p (replicate n 0) }
{
    if out.len() < n || out.len() - n < p {
        return;
    }
    let end = p + n;
    out[p..end].fill(0);
}
