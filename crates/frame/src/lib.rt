// The frame description, pictures, and what every layer shares of refusals and answers.
#![tactic(auto)]

mod checked;
mod constants;
pub mod internal;
mod refusals;

ghost use Rattle.std.specs.Prelude.{◌≡◌};
ghost use Rattle.frame.specs.Frame.{new_frame, cols, rows};
ghost use Rattle.frame.specs.Refusals.{frame_tests, answer_for};

pub use checked::CheckedFrame;
pub use refusals::Refusal;

#[derive(Clone, Copy)]
pub struct FrameSpec {
    pub width: usize,
    pub height: usize,
    pub cell: usize,
    pub margin: usize,
}

// The Rust's [f64; 2].
#[derive(Clone, Copy)]
pub struct Point {
    pub x: f64,
    pub y: f64,
}

// Four points in the order TL, TR, BR, BL.
#[derive(Clone, Copy)]
pub struct Quad {
    pub tl: Point,
    pub tr: Point,
    pub br: Point,
    pub bl: Point,
}

// The Rust's [u8; 3].
#[derive(Clone, Copy)]
pub struct Rgb {
    pub r: u8,
    pub g: u8,
    pub b: u8,
}

pub const BLACK: Rgb = Rgb { r: 0, g: 0, b: 0 };

pub const WHITE: Rgb = Rgb {
    r: 255,
    g: 255,
    b: 255,
};

impl FrameSpec {
    // Calibration strip: one row at the very top.
    pub const CALIB_ROWS: usize = 1;
    // Header band.
    pub const HEADER_ROWS: usize = 2;

    // A frame whose margin is one cell.
    pub fn new(width: usize, height: usize, cell: usize) -> Result<FrameSpec, Refusal>
        ensures { result ≡ answer_for (frame_tests (new_frame width height cell)) (new_frame width height cell) }
    {
        let frame = FrameSpec {
            width,
            height,
            cell,
            margin: cell,
        };
        Ok(CheckedFrame::new(frame)?.spec)
    }

    // The number of cells in a row.
    pub fn cols(self) -> Result<usize, Refusal>
        ensures { result ≡ answer_for (frame_tests self) (cols self) }
    {
        Ok(CheckedFrame::new(self)?.cols())
    }

    // The number of cells in a column.
    pub fn rows(self) -> Result<usize, Refusal>
        ensures { result ≡ answer_for (frame_tests self) (rows self) }
    {
        Ok(CheckedFrame::new(self)?.rows())
    }
}
