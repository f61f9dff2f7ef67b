// The settings of a frame's planes and grids, luma's or chroma's, in the words of rules' Frame.
ghost use Rattle.std.specs.Prelude.{◌≡◌};
ghost use Rattle.rules.specs.Frame.{luma_plane, chroma_plane, chroma_on};
ghost use Rattle.frame_checks.specs.Settings.{Sized, kind_on, plane_of, tu_of, q_of};

use rounding::{halved, shifted, superblocks, up_to_eight};
use rules::settings::{Frame, Plane, QindexGrid, TuGrid};

fn luma_plane(f: Frame) -> Plane
    requires { Sized f }
    ensures { result ≡ luma_plane f }
{
    let width = up_to_eight(f.width);
    let height = up_to_eight(f.height);
    Plane {
        cols: width / 4,
        rows: height / 4,
        stride: f.lumastride,
        width: width,
        height: height,
        sbw: 16,
        sbh: 16,
        chroma: false,
        depth: f.depth,
        deltaq: f.deltay,
        deltaside: f.deltay,
    }
}

fn chroma_plane(f: Frame) -> Plane
    requires { Sized f }
    ensures { result ≡ chroma_plane f }
{
    let width = up_to_eight(halved(f.ssx, f.width));
    let height = up_to_eight(halved(f.ssy, f.height));
    Plane {
        cols: width / 4,
        rows: height / 4,
        stride: f.chromastride,
        width: shifted(f.ssx, up_to_eight(f.width)),
        height: shifted(f.ssy, up_to_eight(f.height)),
        sbw: shifted(f.ssx, 16),
        sbh: shifted(f.ssy, 16),
        chroma: true,
        depth: f.depth,
        deltaq: f.deltauv,
        deltaside: f.deltauv,
    }
}

// The plane's settings.
pub fn plane_of(f: Frame, chroma: bool) -> Plane
    requires { Sized f }
    ensures { result ≡ plane_of f chroma }
{
    if chroma {
        chroma_plane(f)
    } else {
        luma_plane(f)
    }
}

// The TU grid's settings.
pub fn tu_of(f: Frame, chroma: bool) -> TuGrid
    requires { Sized f }
    ensures { result ≡ tu_of f chroma }
{
    let s = plane_of(f, chroma);
    if chroma {
        return TuGrid {
            cols: s.cols,
            rows: s.rows,
            ssx: f.ssx,
            ssy: f.ssy,
            capw: f.ccapw,
            caph: f.ccaph,
        };
    }
    TuGrid {
        cols: s.cols,
        rows: s.rows,
        ssx: 0,
        ssy: 0,
        capw: f.capw,
        caph: f.caph,
    }
}

// The qindex grid's settings.
pub fn q_of(f: Frame, chroma: bool) -> QindexGrid
    requires { Sized f }
    ensures { result ≡ q_of f chroma }
{
    let s = plane_of(f, chroma);
    let sbcols = superblocks(f.width);
    if chroma {
        return QindexGrid {
            cols: s.cols,
            rows: s.rows,
            ssx: f.ssx,
            ssy: f.ssy,
            sbcols: sbcols,
        };
    }
    QindexGrid {
        cols: s.cols,
        rows: s.rows,
        ssx: 0,
        ssy: 0,
        sbcols: sbcols,
    }
}

// Whether chroma is there and is to be filtered.
pub fn chroma_on(f: Frame) -> bool
    ensures { result ≡ chroma_on f }
{
    if f.haschroma {
        return f.chromadeblock;
    }
    false
}

// Whether planes of a kind are filtered: luma always, chroma where it is on.
pub fn kind_on(f: Frame, chroma: bool) -> bool
    ensures { result ≡ kind_on f chroma }
{
    if chroma {
        return chroma_on(f);
    }
    true
}
