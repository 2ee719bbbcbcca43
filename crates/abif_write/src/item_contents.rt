// What the contents of an item must be. Only dates, times and texts have rules.
ghost use Rattle.std.specs.Prelude.{◌≡◌, ◌<◌, ℕ, Bool};
ghost use Rattle.abif_write.specs.ItemContents.{is_date_at, is_time_at, each_element, contents_hold};

use contents::date::date_holds;
use contents::text::{c_string_holds, p_string_holds};
use contents::time::time_holds;
use reading::number::{be16, byte};

// A date stands at this place.
fn date_at_holds(bytes: &[u8], place: usize) -> bool
    requires { place < 0x8000000000000000 }
    ensures { result ≡ is_date_at bytes.now place }
{
    let year = be16(bytes, place).cast_signed();
    date_holds(year, byte(bytes, place + 2), byte(bytes, place + 3))
}

// A time stands at this place.
fn time_at_holds(bytes: &[u8], place: usize) -> bool
    requires { place < 0x8000000000000000 }
    ensures { result ≡ is_time_at bytes.now place }
{
    time_holds(
        byte(bytes, place),
        byte(bytes, place + 1),
        byte(bytes, place + 2),
        byte(bytes, place + 3),
    )
}

// The rule holds at the place of each of n elements of 4 bytes.
fn each_holds<F: Fn(usize) -> bool>(n: u32, rule: F) -> bool
    requires { (place : ℕ) → place < 0x400000000 → F.pre rule place }
    ensures { (meant : ℕ → Bool) → ((place : ℕ) (r : Bool) → place < 0x400000000 → F.post rule place r → r ≡ meant place) → result ≡ each_element meant n 0 }
{
    for i in 0..n as usize {
        if !rule(4 * i) {
            return false;
        }
    }
    true
}

// The bytes of an item of this type, with this many elements, keep the type's rule.
pub(crate) fn contents_hold(code: u16, count: u32, bytes: &[u8]) -> bool
    ensures { result ≡ contents_hold code count bytes.now }
{
    match code {
        10 => each_holds(count, |place| date_at_holds(bytes, place)),
        11 => each_holds(count, |place| time_at_holds(bytes, place)),
        18 => p_string_holds(bytes),
        19 => c_string_holds(bytes),
        _ => true,
    }
}
