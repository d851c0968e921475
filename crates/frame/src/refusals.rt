// Why a call is refused (requirements, 2): a variant for each refusal, with the number that the
// requirements and the C interface give it.
ghost use Rattle.std.specs.Prelude.{◌≡◌};
ghost use Rattle.frame.specs.Refusals.{number};

#[derive(Clone, Copy, Debug, PartialEq, Eq)]
pub enum Refusal {
    // A frame number is outside its limit.
    FrameOutside = 1,
    // A capture's side is outside its limit, or its number of bytes is wrong.
    CaptureWrong = 2,
    // A lent area is too short.
    AreaShort = 3,
    // The canonical image's length is wrong.
    CanonicalWrong = 4,
    // The frame's margin and sides hold no markers.
    NoLayout = 5,
    // A capture's side is below 32.
    CaptureSmall = 6,
    // There are fewer than four candidates.
    FewCandidates = 7,
    // One candidate fills two corners.
    SharedCandidate = 8,
    // The corners do not turn one way, or their area is too small.
    Crooked = 9,
    NoHomography = 10,
    // The determinant is too near to 0.
    Singular = 11,
    // The page's area is too short.
    PageShort = 12,
    // A page has too many candidates, or one that cannot be printed.
    Unprintable = 13,
    // A book's header, length, grade or zero field is wrong.
    Malformed = 14,
    // A book's keys do not rise.
    KeysFall = 15,
    // The kept trial has no score.
    Unscored = 16,
    // There are too many rectangles, or one, or a patch's box, is wrong.
    RectangleWrong = 17,
    // Two books cannot be joined.
    BooksDiffer = 18,
}

impl Refusal {
    pub fn number(self) -> u32
        ensures { result ≡ number self }
    {
        self as u32
    }
}
