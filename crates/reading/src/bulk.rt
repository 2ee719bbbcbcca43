// What the bulk calls share, which write many items into a lent list of numbers.
ghost use Rattle.std.specs.Prelude.{◌≡◌};
ghost use Rattle.reading.specs.Bulk.{placed};

// The numbers from place p on, where there is room for them. Bytes are written by `copy` of `writing`: the definitions of the two are two.
pub fn put<const N: usize>(out: &mut [u64], p: usize, numbers: [u64; N])
    ensures { out.new ≡ placed out.old p numbers.entry }
{
    if out.len() < N || out.len() - N < p {
        return;
    }
    let end = p + N;
    out[p..end].copy_from_slice(&numbers);
}
