// The read-only view of a picture: w, h and the lent bytes. The functions over it, like `px` itself,
// serve inside only.
#![tactic(auto)]

pub mod internal; // internal.rt: making a view and reading through it

ghost use Rattle.std.specs.Prelude.{◌≡◌};
ghost use Rattle.frame.specs.Image.{image};
ghost use Rattle.frame.specs.Limits.{CaptureHeld};

// The Rust's RgbImage, with the bytes lent, of a picture within its limits.
#[derive(Clone, Copy)]
pub struct RgbImage<'a> {
    pub w: usize,
    pub h: usize,
    pub data: &'a [u8],
    pub ghost held: { CaptureHeld (image w h «data».now) },
}
