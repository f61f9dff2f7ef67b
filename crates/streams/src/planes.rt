// The planes of a frame.

// Luma, U and V.
#[derive(Drop)]
pub struct Planes<'a> {
    pub y: &'a mut [u16],
    pub u: &'a mut [u16],
    pub v: &'a mut [u16],
}
