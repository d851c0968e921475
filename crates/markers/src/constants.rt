// The public constants have the values of geometry.rs, whether the code uses them or not.
ghost use Rattle.std.specs.Prelude.{◌≡◌};
ghost use Rattle.float.specs.Floats.{f64};

fn marker_units() -> f64
    ensures { result ≡ f64 6 }
{
    super::MARKER_UNITS
}

fn marker_min_px() -> usize
    ensures { result ≡ 72 }
{
    super::MARKER_MIN_PX
}

fn marker_max_px() -> usize
    ensures { result ≡ 96 }
{
    super::MARKER_MAX_PX
}
