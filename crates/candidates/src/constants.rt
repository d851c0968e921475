// The public constant has the value of geometry.rs, whether the code uses it or not.
ghost use Rattle.std.specs.Prelude.{◌≡◌};
ghost use Rattle.float.specs.Floats.{d64};

fn verify_threshold() -> f64
    ensures { result ≡ d64 78 100 }
{
    super::VERIFY_THRESHOLD
}
