// Numbers in lent bytes. A byte past the end reads as 0, so that every call has an answer at every place. The definitions are one over the width; the
// functions are one for each, since each width is read by the steps that the machine takes at once, and a trait over them would be no plainer.
ghost use Rattle.std.specs.Prelude.{◌≡◌, ◌+◌, ◌≤◌, ◌<◌, length};
ghost use Rattle.reading.specs.Number.{be, le};

// The byte at place p.
pub fn byte(s: &[u8], p: usize) -> u8
    ensures { result ≡ be 1 s.now p }
{
    if p < s.len() {
        return s[p];
    }
    0
}

// The little-endian number of 2 bytes at place p.
pub fn le16(s: &[u8], p: usize) -> u16
    ensures { result ≡ le 2 s.now p }
{
    if 2 <= s.len() && p <= s.len() - 2 {
        return u16::from_le_bytes([s[p], s[p + 1]]);
    }
    byte(s, p) as u16
}

fn le32_past(s: &[u8], p: usize) -> u32
    ensures { result ≡ le 4 s.now p }
{
    if s.len() <= p {
        return 0;
    }
    let low = le16(s, p) as u32;
    let high = le16(s, p + 2) as u32;
    low + 65536 * high
}

// The little-endian number of 4 bytes at place p.
pub fn le32(s: &[u8], p: usize) -> u32
    ensures { result ≡ le 4 s.now p }
{
    if 4 <= s.len() && p <= s.len() - 4 {
        return u32::from_le_bytes([s[p], s[p + 1], s[p + 2], s[p + 3]]);
    }
    le32_past(s, p)
}

// The big-endian number of 2 bytes at place p: the little-endian one with its bytes in the other order. Read so, a loop over it takes several at once.
pub fn be16(s: &[u8], p: usize) -> u16
    ensures { result ≡ be 2 s.now p }
{
    let low_first = le16(s, p);
    low_first.swap_bytes()
}

// The big-endian number of 4 bytes at place p.
pub fn be32(s: &[u8], p: usize) -> u32
    ensures { result ≡ be 4 s.now p }
{
    let lowest_first = le32(s, p);
    lowest_first.swap_bytes()
}

// The big-endian number of 8 bytes at place p.
pub fn be64(s: &[u8], p: usize) -> u64
    ensures { result ≡ be 8 s.now p }
{
    if s.len() <= p {
        return 0;
    }
    let high = be32(s, p) as u64;
    let low = be32(s, p + 4) as u64;
    4294967296 * high + low
}
