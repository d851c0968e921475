// The warp and the tests of `rectify`, for callers that have made theirs.
ghost use Rattle.std.specs.Prelude.{◌≡◌, false, not, ◌+◌, ◌*◌, ◌<◌, eqb, length, IfOk};
ghost use Rattle.base.specs.Loops.{filled};
ghost use Rattle.float.specs.Floats.{◌⊕◌, f64, d64};
ghost use Rattle.frame.specs.Image.{image};
ghost use Rattle.view.specs.Views.{picture};
ghost use Rattle.frame.specs.Refusals.{number_of, lowest_of, frame_outside};
ghost use Rattle.candidates.specs.Areas.{picture_tests};
ghost use Rattle.fit_geometry.specs.Promises.{fit_short};
ghost use Rattle.geometry.specs.Warp.{reading, row_byte, warped, inside_at, row_beyond, beyond};
ghost use Rattle.geometry.specs.Promises.{canonical_length, canonical_wrong, warp_tests};
ghost use Rattle.geometry.specs.Rectification as spec;

use candidates::Lengths;
use candidates::internal::{areas_short, picture_tested};
use fit::internal::no_fit;
use fit::{GeometryFit, Grade};
use fit_geometry::PictureFit;
use fit_geometry::internal::means_short;
use float::internal::to_f64;
use frame::{CheckedFrame, FrameSpec, Point, Refusal};
use sampling::Sample;
use search::{Outcome, Stage};
use view::RgbImage;

// The centre of the pixel in column or row n.
fn center(n: usize) -> f64
    requires { n < 4096 }
    ensures { result ≡ f64 n ⊕ d64 5 10 }
{
    to_f64(n) + 0.5
}

// The canonical pixel in column x and row y: the reading where the fit puts its centre, and whether
// that is inside the picture. Two calls and not `sample`, so that the compiled loop of the warp
// keeps no sample in memory: docs/BENCHMARK.md.
#[tactic(auto, unfolding(crate::specs::Warp::pixel_place, crate::specs::Warp::reading, crate::specs::Warp::inside_at))]
fn pixel(capture: RgbImage, fit: GeometryFit, x: usize, y: usize) -> Sample
    requires { (x < 4096) × (y < 4096) }
    ensures { (result.colour ≡ reading (picture capture.entry) fit x y) × (result.inside
        ≡ inside_at (picture capture.entry) fit x y) }
{
    let p = fit.map(Point {
        x: center(x),
        y: center(y),
    });
    Sample {
        colour: sampling::internal::reading(capture, p),
        inside: sampling::internal::inside(capture.w, capture.h, p.x, p.y),
    }
}

// Row y of the canonical image; the number of its pixels whose position was not inside.
pub fn warp_row(
    capture: RgbImage,
    frame: CheckedFrame,
    fit: GeometryFit,
    y: usize,
    row: &mut [u8],
) -> usize
    requires { (y < 4096) × (length row.old ≡ 3 * frame.spec.width) }
    ensures { (result ≡ row_beyond (picture capture.entry) frame.spec fit y) × (row.new
        ≡ filled (row_byte (picture capture.entry) fit y) (3 * frame.spec.width) row.old) }
{
    let mut count: usize = 0;
    for x in 0..frame.spec.width {
        let s = pixel(capture, fit, x, y);
        let c = s.colour;
        let i = x * 3;
        row[i] = c.r;
        row[i + 1] = c.g;
        row[i + 2] = c.b;
        count += (!s.inside) as usize;
    }
    count
}

// The canonical image, a row at a time; the number of its pixels whose position was not inside.
pub fn warp(capture: RgbImage, frame: CheckedFrame, fit: GeometryFit, canonical: &mut [u8]) -> usize
    requires { length canonical.old ≡ canonical_length frame.spec }
    ensures { (result ≡ beyond (picture capture.entry) frame.spec fit) × (canonical.new
        ≡ warped (picture capture.entry) frame.spec fit canonical.old) }
{
    let size = 3 * frame.spec.width;
    let mut count: usize = 0;
    for y in 0..frame.spec.height {
        let start = y * size;
        let end = start + size;
        count += warp_row(capture, frame, fit, y, &mut canonical[start..end]);
    }
    count
}

// Refusal 4, of a canonical image of n bytes.
pub fn canonical_wrong(frame: CheckedFrame, n: usize) -> bool
    ensures { result ≡ not (eqb n (canonical_length frame.spec)) }
{
    n != 3 * frame.spec.width * frame.spec.height
}

// The capture and the frame of a warp, or its refusal by 1, 2 or 4.
pub(crate) fn warp_tested<'a>(
    capture: &'a [u8],
    w: usize,
    h: usize,
    frame: FrameSpec,
    canonical: &[u8],
) -> Result<(RgbImage<'a>, CheckedFrame), Refusal>
    ensures number { number_of result ≡ lowest_of (warp_tests (image w h capture.entry.now) frame canonical.now) }
    ensures value { IfOk result (λ p. (picture p.0 ≡ image w h capture.entry.now) × (p.1.spec ≡ frame)) }
{
    let frame = CheckedFrame::new(frame)?;
    let capture = RgbImage::new(capture, w, h)?;
    if canonical_wrong(frame, canonical.len()) {
        return Err(Refusal::CanonicalWrong);
    }
    Ok((capture, frame))
}

// ---- rectify

// Refusal 4; false where the frame is outside its limits: 1 goes before 4.
#[tactic(auto, unfolding(crate::specs::Promises::canonical_wrong))]
fn canonical_refused(frame: FrameSpec, n: usize) -> bool
    ensures { frame_outside frame ≡ false → result ≡ canonical_wrong frame n }
{
    match CheckedFrame::new(frame) {
        Ok(frame) => canonical_wrong(frame, n),
        Err(_) => false,
    }
}

// The capture and the frame of a call, or the lowest refusal of the tests of `rectify`.
pub fn tested<'a>(
    capture: &'a [u8],
    w: usize,
    h: usize,
    frame: FrameSpec,
    lengths: Lengths,
    means: usize,
    canonical: usize,
) -> Result<(RgbImage<'a>, CheckedFrame), Refusal>
    ensures number { number_of result ≡ lowest_of (picture_tests (image w h capture.entry.now) frame
        (fit_short (image w h capture.entry.now) frame lengths means) (canonical_wrong frame canonical)) }
    ensures value { IfOk result (λ p. (picture p.0 ≡ image w h capture.entry.now) × (p.1.spec ≡ frame)) }
{
    let short = areas_short(w, h, lengths) | means_short(frame, means);
    let wrong = canonical_refused(frame, canonical);
    picture_tested(capture, w, h, frame, short, wrong)
}

// A kept trial without a score.
#[tactic(auto, unfolding(crate::specs::Rectification::unscored))]
fn unscored(kept: Outcome) -> bool
    ensures { result ≡ spec.unscored kept }
{
    match kept {
        Outcome::NoHomography | Outcome::Graded(Grade::Score(_)) => false,
        Outcome::Graded(Grade::Outside(_)) => true,
        Outcome::Graded(Grade::TooFew) => true,
    }
}

// What a search kept and counted, without its fit.
#[tactic(auto, unfolding(crate::specs::Rectification::without_fit))]
fn without_fit(stage: Stage) -> Stage
    ensures { result ≡ spec.without_fit stage }
{
    Stage {
        fit: no_fit(),
        ..stage
    }
}

// Refusal 16 of a picture that has a fit: the kept trial is unscored. Then there is no fit.
#[tactic(auto, unfolding(crate::specs::Rectification::scored_fit))]
pub fn scored(picture: PictureFit) -> PictureFit
    ensures { result ≡ spec.scored_fit picture }
{
    if picture.places.is_ok() & unscored(picture.stage.kept) {
        return PictureFit {
            places: Err(Refusal::Unscored),
            stage: without_fit(picture.stage),
            ..picture
        };
    }
    picture
}

// The canonical image under the fit of a picture that is not refused, and the number of its pixels
// whose position was not inside; else it stays, and the number is 0.
pub fn lay(capture: RgbImage, frame: CheckedFrame, found: PictureFit, canonical: &mut [u8]) -> usize
    requires { length canonical.old ≡ canonical_length frame.spec }
    ensures { (result ≡ spec.beyond_where (number_of found.places) (picture capture.entry) frame.spec
        found.stage.fit) × (canonical.new ≡ spec.laid_where (number_of found.places)
        (picture capture.entry) frame.spec found.stage.fit canonical.old) }
{
    match found.places {
        Err(_) => 0,
        Ok(_) => warp(capture, frame, found.stage.fit, canonical),
    }
}
