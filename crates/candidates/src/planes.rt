// A picture's planes, as the ring rule reads them.
ghost use Rattle.candidates.specs.Held.{PlanesHeld};

// A picture's mask and luma plane.
#[derive(Clone, Copy)]
pub struct Planes<'a> {
    pub w: usize,
    pub h: usize,
    pub mask: &'a [u8],
    pub luma: &'a [f32],
    pub ghost held: { PlanesHeld w h mask.now luma.now },
}
