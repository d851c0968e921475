// To the nearest whole number.
ghost use Rattle.std.specs.Prelude.{◌≡◌};
ghost use Rattle.float.specs.Floats.{round_of};

// Rust's `f64::round`: the nearest whole number, a half away from zero. A zero, also one that is
// rounded to, keeps the sign of x.
#[tactic(auto, using(crate::proofs::rounding::Rounded::round_is))]
pub fn round(x: f64) -> f64
    ensures { result ≡ round_of x }
{
    x.round()
}
