// The public constant has the value of geometry.rs, whether the code uses it or not.
ghost use Rattle.std.specs.Prelude.{◌≡◌};
ghost use Rattle.search.specs.Stages.{k_max};

fn k_max() -> f64
    ensures { result ≡ k_max }
{
    super::K_MAX
}
