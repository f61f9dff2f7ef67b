// The formats by their names after the header's letter C, each name as one number of its bytes.
ghost use Rattle.std.specs.Prelude.{◌≡◌};
ghost use Rattle.y4m.specs.Formats.{form, layout_of};

// Subsampling each way, whether there is chroma, and the depth. A depth of 0 is no format, as `header_of` says of `read_header` (docs/ENTRIES.md).
#[derive(Clone, Copy)]
pub struct Layout {
    pub ssx: usize,
    pub ssy: usize,
    pub chroma: bool,
    pub depth: u32,
}

// A format of its four values.
fn lay_out(ssx: usize, ssy: usize, chroma: bool, depth: u32) -> Layout
    ensures { result ≡ form ssx ssy chroma depth }
{
    Layout {
        ssx,
        ssy,
        chroma,
        depth,
    }
}

// The format of a name. By numbers: `read_word` gives a word as one number of its bytes.
pub fn named(name: usize) -> Layout
    ensures { result ≡ layout_of name }
{
    match name {
        3420720 => lay_out(1, 1, true, 8), // 420
        14691882314524007 => lay_out(1, 1, true, 8), // 420jpeg
        3761121885403047730 => lay_out(1, 1, true, 8), // 420mpeg2
        3761121898036749430 => lay_out(1, 1, true, 8), // 420paldv
        57390165668144 => lay_out(1, 1, true, 10), // 420p10
        57390165668146 => lay_out(1, 1, true, 12), // 420p12
        3420722 => lay_out(1, 0, true, 8), // 422
        57390199222576 => lay_out(1, 0, true, 10), // 422p10
        57390199222578 => lay_out(1, 0, true, 12), // 422p12
        3421236 => lay_out(0, 0, true, 8), // 444
        57398822711600 => lay_out(0, 0, true, 10), // 444p10
        57398822711602 => lay_out(0, 0, true, 12), // 444p12
        1836019311 => lay_out(0, 0, false, 8), // mono
        120325361578288 => lay_out(0, 0, false, 10), // mono10
        120325361578290 => lay_out(0, 0, false, 12), // mono12
        _ => lay_out(0, 0, false, 0),
    }
}
