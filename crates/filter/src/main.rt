// Filters a picture or a stream: `filter PICTURE SETTINGS OUT [plain]` reads a YUV4MPEG2 file and a settings file, deblocks each frame, applies the CCSO offsets
// that the settings ask for, writes the frames to OUT, and answers on standard output, on descriptor 3 where OUT is '-'. A fourth word asks for the plain engine, which gives the same.
// `bin/filter` keeps OUT as it was where a frame is not filtered.
#![tactic(auto)]

// The answer.
mod say;

// What the settings ask for.
mod asked;

// The filters over the planes.
mod treat;

// One frame.
mod one_frame;

// The order of it all.
mod run;

use run::Names;
use system::bytes::buffer;
use system::files::{Ends, answers, word};

fn main(rt: HostRuntime) {
    let ends = Ends {
        input: rt.stdin(),
        output: rt.stdout(),
        errors: rt.stderr(),
    };
    let mut picture = buffer();
    let mut settings = buffer();
    let mut out = buffer();
    let out = word(&rt, 3, &mut out);
    let answer = answers(&rt, ends, out.unwrap_or(b""));
    let (Some(picture), Some(settings), Some(out)) = (
        word(&rt, 1, &mut picture),
        word(&rt, 2, &mut settings),
        out,
    ) else {
        say::usage(&answer);
        return;
    };
    let _ = run::run(&rt, ends, &answer, picture, Names { settings, out });
}
