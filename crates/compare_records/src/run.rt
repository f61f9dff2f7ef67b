// From the names of two files to the answer.
ghost use Rattle.std.specs.Prelude.{◌≤◌, length, IfOk};

use crate::say;
use crate::say::Answered;
use compared::{Difference, compare};
use pictures::files::{read_whole, text_room};
use replay::{count, record_check};
use std::fs::File;
use std::rt::Files;
use system::files::{Ends, Target};

// A record from a file, and how many bytes it has; an error after the line that says why there is none.
fn load<R: Files<File = File>>(
    rt: &R,
    ends: Ends,
    told: &Target,
    name: &[u8],
    bytes: &mut [u8],
) -> Result<usize, Answered>
    ensures { IfOk result (λ n. (5 ≤ n) × (n ≤ length bytes.new)) }
{
    let Some(n) = read_whole(rt, ends, name, bytes) else {
        return Err(say::bad(told, name, b"the record can't be read"));
    };
    if n == bytes.len() {
        return Err(say::bad(
            told,
            name,
            b"expected a record of fewer than 33554432 bytes",
        ));
    }
    if let Err(r) = record_check(&bytes[..n]) {
        return Err(say::refused(told, name, r));
    }
    if n < 5 {
        return Err(Answered);
    }
    Ok(n)
}

// What two records are to each other, in words; whether they differ.
fn tell(told: &Target, a: &[u8], b: &[u8]) -> bool
    requires { (5 ≤ length a.now) × (5 ≤ length b.now) }
{
    match compare(a, b) {
        Difference::Equal(n) => {
            say::equal(told, n);
            return false;
        }
        Difference::Edges(k, e, f) => {
            say::edge(told, k, e);
            say::other(told, e, f);
        }
        Difference::FirstGoesOn(k, e) => {
            say::edge(told, k, e);
            say::words(told, b"; the second record has no such edge\n");
        }
        Difference::SecondGoesOn(k, e) => {
            say::edge(told, k, e);
            say::words(told, b"; the first record has no such edge\n");
        }
    }
    true
}

// Both records, and then the answer; an error after the line on one that is none.
pub fn run<R: Files<File = File>>(
    rt: &R,
    ends: Ends,
    told: &Target,
    first: &[u8],
    second: &[u8],
) -> Result<(), Answered> {
    let mut a = text_room();
    let n = load(rt, ends, told, first, &mut a)?;
    let mut b = text_room();
    let m = load(rt, ends, told, second, &mut b)?;
    if tell(told, &a[..n], &b[..m]) {
        say::longer(told, first, count(&a[..n]), second, count(&b[..m]));
    }
    Ok(())
}
