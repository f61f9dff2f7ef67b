// What is the same for every frame of a stream.
ghost use Rattle.streams.specs.Shaped.{Shaped};

use pictures::planes::Shape;
use pictures::shapes::{chroma_of, luma_of};
use system::files::{Source, Target};
use y4m::header::Header;

// A picture that is open: its name, its file, where the answer goes, its first line, and the header there.
#[derive(Clone, Copy)]
pub struct Picture<'a> {
    pub name: &'a [u8],
    pub from: &'a Source,
    pub told: &'a Target,
    pub head: &'a [u8],
    pub h: Header,
}

// The same with the file that is written, and the shapes of luma and chroma. They stand here with no invariant: `refused::frames::frame_by` takes a job of any shapes.
#[derive(Clone, Copy)]
pub struct Job<'a> {
    pub name: &'a [u8],
    pub from: &'a Source,
    pub to: &'a Target,
    pub told: &'a Target,
    pub head: &'a [u8],
    pub h: Header,
    pub l: Shape,
    pub c: Shape,
}

impl<'a> Picture<'a> {
    // The picture's frames to a file.
    pub fn job(self, to: &'a Target) -> Job<'a>
        ensures { Shaped result }
    {
        Job {
            name: self.name,
            from: self.from,
            to,
            told: self.told,
            head: self.head,
            h: self.h,
            l: luma_of(self.h),
            c: chroma_of(self.h),
        }
    }
}
