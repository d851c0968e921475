// The public constants have the values of frame.rs and palette.rs: a function of one line for each,
// so that a changed value is refused, whether the code uses the constant or not.
ghost use Rattle.std.specs.Prelude.{◌≡◌};
ghost use Rattle.frame.specs.Image.{black, white};

use super::{FrameSpec, Rgb};

fn calib_rows() -> usize
    ensures { result ≡ 1 }
{
    FrameSpec::CALIB_ROWS
}

fn header_rows() -> usize
    ensures { result ≡ 2 }
{
    FrameSpec::HEADER_ROWS
}

fn black() -> Rgb
    ensures { result ≡ black }
{
    super::BLACK
}

fn white() -> Rgb
    ensures { result ≡ white }
{
    super::WHITE
}
