// Fits and their grid score.
ghost use Rattle.frame.specs.Image.{image};
ghost use Rattle.fit.specs.Fits.{fit_for};
ghost use Rattle.tablet.specs.Slices.{Answer};
ghost use Rattle.fit.specs.Numbers.{fit_numbers};
ghost use Rattle.tablet.specs.Layouts.{frame, quad_of};
ghost use Rattle.tablet.specs.Tests.{fit_tests};
ghost use Rattle.tablet.specs.Promises.{GridScored};

// The fit for a lens term over four observed points.
#[unsafe(no_mangle)]
pub extern "C" fn tablet_fit_for(
    w: usize,
    h: usize,
    width: usize,
    height: usize,
    cell: usize,
    margin: usize,
    points: &[f64],
    k: f64,
    fit: &mut [f64],
) -> u32
    ensures { Answer (fit_tests w h (frame width height cell margin) points.now k
        fit.old) (fit_numbers (fit_for w h (frame width height cell margin) (quad_of points.now)
        k)) fit.old result fit.new }
{
    tablet::tablet_fit_for(w, h, width, height, cell, margin, points, k, fit)
}

// How well a fit of 13 numbers explains the cell grid.
#[unsafe(no_mangle)]
pub extern "C" fn tablet_grid_score(
    capture: &[u8],
    w: usize,
    h: usize,
    width: usize,
    height: usize,
    cell: usize,
    margin: usize,
    fit: &[f64],
    means: &mut [f64],
    grade: &mut [u64],
    score: &mut [f64],
) -> u32
    ensures { GridScored (image w h capture.now) (frame width height cell margin)
        fit.now means.old means.new grade.old grade.new
        score.old score.new result }
{
    tablet::tablet_grid_score(
        capture, w, h, width, height, cell, margin, fit, means, grade, score,
    )
}
