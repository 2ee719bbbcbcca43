// The rules of texts.
ghost use Rattle.std.specs.Prelude.{◌≡◌, length};
ghost use Rattle.contents.specs.Text.{zero_among, is_pstring, is_cstring};

// One of the bytes is zero. All of them are looked at, with no way out in between, so that the machine takes many at once.
fn has_zero(bytes: &[u8]) -> bool
    ensures { result ≡ zero_among bytes.now 0 (length bytes.now) }
{
    let mut found = false;
    for b in bytes {
        found |= *b == 0;
    }
    found
}

// The bytes are those of a pString.
pub fn p_string_holds(bytes: &[u8]) -> bool
    ensures { result ≡ is_pstring bytes.now }
{
    match bytes.split_first() {
        Some((first, rest)) => usize::from(*first) == rest.len(),
        None => false,
    }
}

// The bytes are those of a cString.
pub fn c_string_holds(bytes: &[u8]) -> bool
    ensures { result ≡ is_cstring bytes.now }
{
    match bytes.split_last() {
        Some((last, before)) => *last == 0 && !has_zero(before),
        None => false,
    }
}
