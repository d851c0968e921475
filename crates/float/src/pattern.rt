// Bit patterns, as IEEE 754 has them, of every `f64`: where the language's own operations are
// undefined, at a NaN, too.
ghost use Rattle.std.specs.Prelude.{◌≡◌, from_bits, to_bits};
ghost use Rattle.std.specs.Float.{binary64};

// The bit pattern of x, and 0x7ff8000000000000 for every NaN.
pub fn to_bits(x: f64) -> u64
    ensures { result ≡ to_bits binary64 x }
{
    std::num::f64_to_bits_with_nan(x)
}

// The float that the pattern p stands for, a NaN's too.
pub fn from_bits(p: u64) -> f64
    ensures { result ≡ from_bits binary64 p }
{
    std::num::f64_from_bits_with_nan(p)
}
