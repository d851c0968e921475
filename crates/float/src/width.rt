// From one float format to the other.
ghost use Rattle.std.specs.Prelude.{◌≡◌};
ghost use Rattle.float.specs.Floats.{narrowed, widened};

// The patterns of magnitudes from which on x is past every `f32`, normal as one, and not rounded to
// nothing.
const PAST: u64 = 0x47f0_0000_0000_0000;

const NORMAL: u64 = 0x3810_0000_0000_0000;

const SUBNORMAL: u64 = 0x3680_0000_0000_0000;

// Rust's `x as f32`: the nearest `f32`, a tie to the even one. The patterns of the two formats
// differ by 29 digits and the exponent's offset, and what the sum carries over moves the exponent.
// std's `nearest_f64_to_f32_with_nan` takes more than twice the time, and this is done for each
// pixel of a mask.
pub fn narrow(x: f64) -> f32
    ensures { result ≡ narrowed x }
{
    if x.is_nan() {
        return f32::NAN;
    }
    let b = x.to_bits();
    let sign = b / 0x8000_0000_0000_0000 * 0x8000_0000;
    let mag = b % 0x8000_0000_0000_0000;
    let p = if mag >= PAST {
        0x7f80_0000
    } else if mag >= NORMAL {
        (mag + 0xfff_ffff + mag / 0x2000_0000 % 2) / 0x2000_0000 - 0x1_c000_0000
    } else if mag >= SUBNORMAL {
        // below the normal range of `f32` the digits are moved down by h + 1 places
        let h = 925 - mag / 0x10_0000_0000_0000;
        let d = 0x10_0000_0000_0000 + b % 0x10_0000_0000_0000;
        (d + ((1 << h) - 1) + (d >> (h + 1)) % 2) >> (h + 1)
    } else {
        0
    };
    f32::from_bits((sign + p) as u32)
}

// Rust's `x as f64`: the same number, and a NaN a NaN.
pub fn widen(x: f32) -> f64
    ensures { result ≡ widened x }
{
    std::num::f32_to_f64_with_nan(x)
}
