// What the layers above use with sides that they have tested.
ghost use Rattle.std.specs.Prelude.{◌≡◌, ◌≤◌};
ghost use Rattle.radial.specs.Lens.{radial};

use crate::Radial;

// The lens term k about the centre of a picture w by h.
pub fn lens(w: usize, h: usize, k: f64) -> Radial
    requires { (1 ≤ w) × (w ≤ 4096) × (1 ≤ h) × (h ≤ 4096) }
    ensures { result ≡ radial w h k }
{
    let cx = (w as f64) / 2.0;
    let cy = (h as f64) / 2.0;
    let half = float::sqrt(cx * cx + cy * cy);
    let norm = float::max(half, 1.0);
    Radial { k, cx, cy, norm }
}
