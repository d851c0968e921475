// The lens.
ghost use Rattle.radial.specs.Lens as model;
ghost use Rattle.tablet.specs.Slices.{Answer};
ghost use Rattle.fit.specs.Numbers.{lens_numbers};
ghost use Rattle.tablet.specs.Layouts.{lens_of, point_numbers};
ghost use Rattle.tablet.specs.Tests.{lens_tests, move_tests};

use super::slices::{store_lens, store_point};
use frame::{Point, Refusal};
use radial::Radial;

// The lens of a capture of w by h with the term k.
#[tactic(auto, unfolding(radial::specs::Lens::new_lens, frame::specs::Refusals::answer_for, frame::specs::Refusals::side_tests, frame::specs::Refusals::lowest_of))]
pub fn tablet_radial(w: usize, h: usize, k: f64, lens: &mut [f64]) -> u32
    ensures { Answer (lens_tests w h lens.old) (lens_numbers (model.radial w h k))
        lens.old result lens.new }
{
    let found = match Radial::new(w, h, k) {
        Ok(found) => found,
        Err(refusal) => return refusal.number(),
    };
    if lens.len() < 4 {
        return Refusal::AreaShort.number();
    }
    store_lens(lens, found);
    0
}

// Pinhole point to observed point.
#[tactic(auto, unfolding(frame::specs::Refusals::lowest_of))]
pub fn tablet_distort(lens: &[f64], x: f64, y: f64, point: &mut [f64]) -> u32
    ensures { Answer (move_tests 4 lens.now point.old) (point_numbers (model.distort
        (lens_of lens.now) (record { x = x; y = y }))) point.old result point.new }
{
    if lens.len() < 4 || point.len() < 2 {
        return Refusal::AreaShort.number();
    }
    let moved = super::slices::lens(lens).distort(Point { x, y });
    store_point(point, moved);
    0
}

// Observed point to pinhole point.
#[tactic(auto, unfolding(frame::specs::Refusals::lowest_of))]
pub fn tablet_undistort(lens: &[f64], x: f64, y: f64, point: &mut [f64]) -> u32
    ensures { Answer (move_tests 4 lens.now point.old) (point_numbers (model.undistort
        (lens_of lens.now) (record { x = x; y = y }))) point.old result point.new }
{
    if lens.len() < 4 || point.len() < 2 {
        return Refusal::AreaShort.number();
    }
    let moved = super::slices::lens(lens).undistort(Point { x, y });
    store_point(point, moved);
    0
}
