// The lens.
ghost use Rattle.radial.specs.Lens as model;
ghost use Rattle.tablet.specs.Slices.{Answer};
ghost use Rattle.fit.specs.Numbers.{lens_numbers};
ghost use Rattle.tablet.specs.Layouts.{lens_of, point_numbers};
ghost use Rattle.tablet.specs.Tests.{lens_tests, move_tests};

// The lens of a capture of w by h with the term k.
#[unsafe(no_mangle)]
pub extern "C" fn tablet_radial(w: usize, h: usize, k: f64, lens: &mut [f64]) -> u32
    ensures { Answer (lens_tests w h lens.old) (lens_numbers (model.radial w h k))
        lens.old result lens.new }
{
    tablet::tablet_radial(w, h, k, lens)
}

// Pinhole point to observed point.
#[unsafe(no_mangle)]
pub extern "C" fn tablet_distort(lens: &[f64], x: f64, y: f64, point: &mut [f64]) -> u32
    ensures { Answer (move_tests 4 lens.now point.old) (point_numbers (model.distort
        (lens_of lens.now) (record { x = x; y = y }))) point.old result point.new }
{
    tablet::tablet_distort(lens, x, y, point)
}

// Observed point to pinhole point.
#[unsafe(no_mangle)]
pub extern "C" fn tablet_undistort(lens: &[f64], x: f64, y: f64, point: &mut [f64]) -> u32
    ensures { Answer (move_tests 4 lens.now point.old) (point_numbers (model.undistort
        (lens_of lens.now) (record { x = x; y = y }))) point.old result point.new }
{
    tablet::tablet_undistort(lens, x, y, point)
}
