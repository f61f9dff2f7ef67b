// Runs records of edges again on a picture or a stream: `replay_picture PICTURE OUT Y [U V [SETTINGS]]` reads a YUV4MPEG2 file, runs luma's record Y and, where they are named, chroma's records U and V
// on each frame, with the cells kept that the settings keep, writes the frames to OUT, and answers on standard output, or on descriptor 3 where OUT is -. An empty name stands for none. `bin/replay` keeps OUT as it was where a frame is refused.
#![tactic(auto)]

// The answer.
mod say;

// The records' files.
mod load;

// The cells that a settings file keeps.
mod marks;

// One frame.
mod frame;

// The order of it all.
mod run;

use run::Names;
use system::bytes::buffer;
use system::files::{Ends, answers, word};

fn main(rt: HostRuntime) {
    let ends = Ends {
        input: rt.stdin(),
        output: rt.stdout(),
        errors: rt.stderr(),
    };
    let mut picture = buffer();
    let mut out = buffer();
    let mut y = buffer();
    let mut u = buffer();
    let mut v = buffer();
    let mut settings = buffer();
    let out = word(&rt, 2, &mut out);
    let told = answers(&rt, ends, out.unwrap_or(b""));
    let (Some(picture), Some(out), Some(y)) = (
        word(&rt, 1, &mut picture),
        out,
        word(&rt, 3, &mut y),
    ) else {
        say::usage(&told);
        return;
    };
    let names = Names {
        out,
        y,
        u: word(&rt, 4, &mut u),
        v: word(&rt, 5, &mut v),
        settings: word(&rt, 6, &mut settings),
    };
    let _ = run::run(&rt, ends, &told, picture, names);
}
