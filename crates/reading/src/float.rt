// Floats by their bits. The logic has one NaN, so only the bits tell two NaNs apart. A function for each width: one over both would need a trait whose
// members are the width's type, its bits' type, two constants and the library's call, which is no plainer.
ghost use Rattle.std.specs.Prelude.{◌≡◌};
ghost use Rattle.std.specs.Float.{binary32, binary64};
ghost use Rattle.std.specs.Float.Ieee.{of_bits};

// The 32-bit float of these bits; some NaN where they are a NaN's.
pub fn single(bits: u32) -> f32
    ensures { result ≡ of_bits binary32 bits }
{
    if bits % 0x8000_0000 <= 0x7f80_0000 {
        return f32::from_bits(bits);
    }
    0.0 / 0.0
}

// The 64-bit float of these bits; some NaN where they are a NaN's.
pub fn double(bits: u64) -> f64
    ensures { result ≡ of_bits binary64 bits }
{
    if bits % 0x8000_0000_0000_0000 <= 0x7ff0_0000_0000_0000 {
        return f64::from_bits(bits);
    }
    0.0 / 0.0
}
