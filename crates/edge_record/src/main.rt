// Writes a picture's records of edges: `edge_record PICTURE SETTINGS Y C` reads a picture's header and its settings as the program `filter` does, and writes luma's record to
// Y and, where chroma is deblocked, chroma's to C. No entry depends on a sample, so no sample is read. `bin/filter` runs it after a picture was filtered.
// It prints the outcome as one digit, on descriptor 3 where a record goes to standard output: 0 luma's alone is written, 1 luma's and chroma's, 2 there are no such files, 3 a record could not be written.
#![tactic(auto)]

// The record of luma or of chroma.
mod entries;

// The files, and the order of it all.
mod run;

use run::{Fault, Record};
use std::fs::File;
use std::rt::{Env, Files};
use system::bytes::buffer;
use system::files::{Ends, Target, answers, open_out, print_decimal, word, write_all};

// The file of an argument, to write to.
fn opened<R: Env + Files<File = File>>(rt: &R, ends: Ends, k: usize) -> Target {
    open_out(rt, ends, word(rt, k, &mut buffer()).unwrap_or(b""))
}

// Whether a record goes to standard output.
fn has_output(to: &Target) -> bool {
    matches!(to, Target::Output(_))
}

// The outcome as it is printed.
fn number(outcome: Result<Record, Fault>) -> u64 {
    match outcome {
        Ok(Record::NotAsked) => 0,
        Ok(Record::Written) => 1,
        Err(Fault::NoFiles) => 2,
        Err(Fault::Unwritten) => 3,
    }
}

// Says the outcome, apart from the records where one has standard output.
fn tell<R: Files<File = File>>(rt: &R, ends: Ends, apart: bool, outcome: Result<Record, Fault>) {
    let name: &[u8] = if apart { b"-" } else { b"" };
    let _ = print_decimal(&answers(rt, ends, name), number(outcome));
}

fn main(rt: HostRuntime) {
    let ends = Ends {
        input: rt.stdin(),
        output: rt.stdout(),
        errors: rt.stderr(),
    };
    let mut picture = buffer();
    let mut settings = buffer();
    let (Some(picture), Some(settings)) = (word(&rt, 1, &mut picture), word(&rt, 2, &mut settings))
    else {
        let _ = write_all(
            &Target::Output(ends.output),
            b"usage: edge_record PICTURE SETTINGS Y C\n",
        );
        return;
    };
    // Two calls: one alone would be compiled into main, whose stack would then be that of a record. Y is closed before C is opened.
    let y = opened(&rt, ends, 3);
    let luma = run::run(&rt, ends, picture, settings, false, &y);
    let first = has_output(&y);
    drop(y);
    let Ok(Record::Written) = luma else {
        tell(&rt, ends, first, luma);
        return;
    };
    let c = opened(&rt, ends, 4);
    let chroma = run::run(&rt, ends, picture, settings, true, &c);
    tell(&rt, ends, first || has_output(&c), chroma);
}
