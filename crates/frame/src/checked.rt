// A frame within its limits, which the functions behind the public ones take, and how many cells it has.
ghost use Rattle.std.specs.Prelude.{◌≡◌, false, true, MatchResult};
ghost use Rattle.frame.specs.Frame.{cols, rows};
ghost use Rattle.frame.specs.Limits.{FrameHeld};
ghost use Rattle.frame.specs.Refusals.{frame_outside};
ghost use Rattle.frame.specs.declared.refusals.Refusal.TheVariants.{FrameOutside};

use super::internal::frame_outside;
use super::{FrameSpec, Refusal};

#[derive(Clone, Copy)]
pub struct CheckedFrame {
    pub spec: FrameSpec,
    pub ghost held: { FrameHeld spec },
}

impl CheckedFrame {
    // Refusal 1 where a number is outside its limit.
    pub fn new(spec: FrameSpec) -> Result<CheckedFrame, Refusal>
        ensures { MatchResult result
            (λ f. (frame_outside spec ≡ false) × (f.spec ≡ spec))
            (λ r. (frame_outside spec ≡ true) × (r ≡ FrameOutside)) }
    {
        if frame_outside(spec) {
            return Err(Refusal::FrameOutside);
        }
        Ok(CheckedFrame { spec })
    }

    pub fn cols(self) -> usize
        ensures { result ≡ cols self.spec }
    {
        let frame = self.spec;
        frame.width.saturating_sub(2 * frame.margin) / frame.cell
    }

    pub fn rows(self) -> usize
        ensures { result ≡ rows self.spec }
    {
        let frame = self.spec;
        frame.height.saturating_sub(2 * frame.margin) / frame.cell
    }
}
