// Compares two records of edges: `compare_records A [B]` reads both, B from standard input where it is not named, prints the first edge that differs in words, and how many edges each has.
// Its first byte is the outcome, before any name: 0 equal, 1 different, 2 a bad file.
#![tactic(auto)]

// What is printed.
mod say;

// The files, and the order of it all.
mod run;

use system::bytes::buffer;
use system::files::{Ends, Target, word};

fn main(rt: HostRuntime) {
    let ends = Ends {
        input: rt.stdin(),
        output: rt.stdout(),
        errors: rt.stderr(),
    };
    let told = Target::Output(ends.output);
    let mut first = buffer();
    let mut second = buffer();
    let Some(a) = word(&rt, 1, &mut first) else {
        say::usage(&told);
        return;
    };
    // Two calls: one alone would be compiled into main, whose stack would then be that of both records.
    let _ = match word(&rt, 2, &mut second) {
        None => run::run(&rt, ends, &told, a, b"-"),
        Some(b) => run::run(&rt, ends, &told, a, b),
    };
}
