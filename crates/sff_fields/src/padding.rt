// Lengths rounded up to a multiple of 8.
ghost use Rattle.std.specs.Prelude.{◌≡◌, ◌+◌, ◌<◌};
ghost use Rattle.sff_fields.specs.Padding.{padding, padded};

// How many bytes stand between n bytes and the next multiple of 8.
pub fn padding_behind(n: usize) -> usize
    ensures { (result ≡ padding n) × (result < 8) }
{
    (8 - n % 8) % 8
}

// n rounded up to 8. By `padding_behind`, which every n has, where the library's `next_multiple_of` asks that the result fits: so the rule stands once.
pub(crate) fn round_up(n: usize) -> usize
    requires { n < 0x8000000000000000 }
    ensures { (result ≡ padded n) × (result < n + 8) }
{
    n + padding_behind(n)
}
