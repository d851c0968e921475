// Rust's `as` from a float to an unsigned number: the whole part, the nearer end of the range where
// x is past it, 0 for a NaN. And back.
ghost use Rattle.std.specs.Prelude.{◌≡◌, ◌^◌, ◌≤◌};
ghost use Rattle.float.specs.Floats.{f64, as_u8, as_usize};

// Rust's `x as u8`.
pub fn to_u8(x: f64) -> u8
    ensures { result ≡ as_u8 x }
{
    std::num::saturating_f64_to_u8(x)
}

// Rust's `x as usize`.
pub fn to_usize(x: f64) -> usize
    ensures { result ≡ as_usize x }
{
    std::num::saturating_f64_to_usize(x)
}

// A count up to 2^53 as a float, by one instruction; `n as f64` takes five.
pub fn to_f64(n: usize) -> f64
    requires { n ≤ 2 ^ 53 }
    ensures { result ≡ f64 n }
{
    (n as i64) as f64
}
