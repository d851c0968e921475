// The larger of two floats, and a float held between two.
ghost use Rattle.std.specs.Prelude.{◌≡◌};
ghost use Rattle.float.specs.Floats.{max_of, clamp_of};

// Rust's `f64::max`: where one is a NaN, the other. Of two zeros it is x, which std's `max` leaves
// open.
#[tactic(auto, unfolding(crate::specs::Floats::max_of))]
pub fn max(x: f64, y: f64) -> f64
    ensures { result ≡ max_of x y }
{
    if x.is_nan() || x < y { y } else { x }
}

// Rust's `f64::clamp`, without its panic where lo is above hi, which std's `clamp` rules out: then
// lo goes first. A NaN x stays.
#[tactic(auto, unfolding(crate::specs::Floats::clamp_of))]
pub fn clamp(x: f64, lo: f64, hi: f64) -> f64
    ensures { result ≡ clamp_of lo hi x }
{
    if x < lo {
        lo
    } else if x > hi {
        hi
    } else {
        x
    }
}
