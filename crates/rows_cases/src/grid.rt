// What every call on a plane is asked with: the plane's settings, the step table and the grid's lists.
use rules::settings::Plane;

#[derive(Clone, Copy)]
pub struct Grid<'a> {
    pub s: Plane,
    pub steps: &'a [u32],
    pub vedge: &'a [u8],
    pub hedge: &'a [u8],
    pub sqw: &'a [u8],
    pub sqh: &'a [u8],
    pub qindex: &'a [u16],
    pub tiles: &'a [u16],
    pub keep: &'a [u8],
}
