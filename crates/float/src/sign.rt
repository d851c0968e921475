// The sign of a float, which a zero has too.
ghost use Rattle.std.specs.Prelude.{◌≡◌};
ghost use Rattle.float.specs.Floats.{abs_of, signum_of};

// Rust's `f64::abs`.
#[tactic(auto, using(crate::proofs::sign::Signs::abs_is))]
pub fn abs(x: f64) -> f64
    ensures { result ≡ abs_of x }
{
    x.abs()
}

// Rust's `f64::signum`: 1.0 with the sign of x, also where x is a zero. A NaN stays.
#[tactic(auto, using(crate::proofs::sign::Signs::signum_is))]
pub fn signum(x: f64) -> f64
    ensures { result ≡ signum_of x }
{
    x.signum()
}
