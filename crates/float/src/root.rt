// The square root, built bit by bit from mantissa and exponent: no float guess, no Newton step.
ghost use Rattle.std.specs.Prelude.{◌≡◌, ◌-◌, ◌*◌, ◌/◌, ◌%◌, ◌^◌, ◌<◌, ◌≤◌, false, T};
ghost use Rattle.std.specs.Float.{binary64};
ghost use Rattle.std.specs.Float.Ieee.{units};
ghost use Rattle.std.specs.Float.Ieee.Positive.{positive};
ghost use Rattle.float.specs.Root.{nearest_root, sqrt_of, NearestRoot};

// The `f64` nearest to the square root of x: of a zero of either sign and of +∞ that value itself,
// of a NaN and of anything below zero a NaN.
pub fn sqrt(x: f64) -> f64
    ensures value { result ≡ sqrt_of x }
    ensures nearest_root { T (positive x) → NearestRoot x result }
{
    if x > 0.0 {
        let b = x.to_bits();
        if b < 0x10_0000_0000_0000 {
            // subnormal: the digits are moved up until the leading one stands at 52
            let z = u64::from(b.leading_zeros()) - 11;
            scaled_root(b << z, 1024 - z)
        } else if b < 0x7ff0_0000_0000_0000 {
            scaled_root(
                0x10_0000_0000_0000 + b % 0x10_0000_0000_0000,
                b / 0x10_0000_0000_0000 + 1023,
            )
        } else {
            x
        }
    } else if x == 0.0 {
        x
    } else {
        f64::NAN
    }
}

// The root of d * 2^(g + 50) units of 2^-2148. An odd g lends one factor of 2 to the digits, and
// half of the rest is the root's exponent. The sum carries where the root's digits round up to
// 2^53.
fn scaled_root(d: u64, g: u64) -> f64
    requires digits_from { 2 ^ 52 ≤ d }
    requires digits_below { d < 2 ^ 53 }
    requires exponent_from { 900 ≤ g }
    requires exponent_below { g < 3072 }
    ensures { result ≡ units binary64 false (nearest_root (d * 2 ^ (g % 2) * 2 ^ 52)) (g / 2 - 1) }
{
    let q = root_by_digits(d << (g % 2));
    f64::from_bits((g / 2 - 1) * 0x10_0000_0000_0000 + q)
}

// The whole number nearest to the root of a * 2^52, one binary digit a turn: r is the root of what
// was read of it so far, and e what is left of that.
fn root_by_digits(a: u64) -> u64
    requires { a < 2 ^ 54 }
    ensures { result ≡ nearest_root (a * 2 ^ 52) }
{
    let mut rest = a;
    let mut r: u64 = 0;
    let mut e: u64 = 0;
    for _ in 0..53u64 {
        let next = e * 4 + rest / 0x10_0000_0000_0000;
        rest = rest % 0x10_0000_0000_0000 * 4;
        if r * 4 < next {
            e = next - r * 4 - 1;
            r = r * 2 + 1;
        } else {
            e = next;
            r *= 2;
        }
    }
    if r < e { r + 1 } else { r }
}
