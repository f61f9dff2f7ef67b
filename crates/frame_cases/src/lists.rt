// The lists that a call may change, as a case lends them: three planes and two grids.
use cases::{Due, Line};

#[derive(Drop)]
pub struct Planes<'a> {
    pub y: &'a mut [u16],
    pub u: &'a mut [u16],
    pub v: &'a mut [u16],
}

#[derive(Drop)]
pub struct Grid<'a> {
    pub vedge: &'a mut [u8],
    pub hedge: &'a mut [u8],
    pub sqw: &'a mut [u8],
    pub sqh: &'a mut [u8],
    pub qindex: &'a mut [u16],
}

impl<'a> Planes<'a> {
    // The planes of a line, to the front of lent lists.
    pub fn read(
        line: &mut Line,
        y: &'a mut [u16],
        u: &'a mut [u16],
        v: &'a mut [u16],
    ) -> Planes<'a> {
        Planes {
            y: line.list(y),
            u: line.list(u),
            v: line.list(v),
        }
    }

    // Whether they are the next lists that are due.
    pub fn are(&self, due: &mut Due) -> bool {
        due.is(self.y) && due.is(self.u) && due.is(self.v)
    }
}

impl<'a> Grid<'a> {
    // The grid of a line, to the front of lent lists.
    pub fn read(
        line: &mut Line,
        vedge: &'a mut [u8],
        hedge: &'a mut [u8],
        sqw: &'a mut [u8],
        sqh: &'a mut [u8],
        qindex: &'a mut [u16],
    ) -> Grid<'a> {
        Grid {
            vedge: line.list(vedge),
            hedge: line.list(hedge),
            sqw: line.list(sqw),
            sqh: line.list(sqh),
            qindex: line.list(qindex),
        }
    }

    // Whether its lists are the next ones that are due.
    pub fn is(&self, due: &mut Due) -> bool {
        due.is(self.vedge)
            && due.is(self.hedge)
            && due.is(self.sqw)
            && due.is(self.sqh)
            && due.is(self.qindex)
    }
}
