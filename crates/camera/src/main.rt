// Deblocks a picture or a stream as its rows arrive: `camera SETTINGS` reads YUV4MPEG2 from standard input and a settings file, and writes each row to standard output as soon as it is final.
// It answers on descriptor 3, which `bin/camera` opens.
#![tactic(auto)]

// The answer.
mod say;

// What the settings ask for.
mod asked;

// One frame.
mod one_frame;

// The order of it all.
mod run;

use system::bytes::buffer;
use system::files::{Ends, Target, word};

fn main(rt: HostRuntime) {
    let ends = Ends {
        input: rt.stdin(),
        output: rt.stdout(),
        errors: rt.stderr(),
    };
    let mut settings = buffer();
    let Some(settings) = word(&rt, 1, &mut settings) else {
        say::usage(&Target::Output(ends.output));
        return;
    };
    let _ = run::run(&rt, ends, settings);
}
