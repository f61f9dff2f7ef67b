// What C is answered: a number, or minus the number of a refusal, with its place and the counts of stored and changed samples beside it.
#![tactic(auto)]

ghost use Rattle.std.specs.Prelude.{◌≡◌, ◌+◌, ◌*◌, ◌≤◌, ◌<◌, pos, neg_ℤ, set};
ghost use Rattle.std.specs.declared.result.Result.TheVariants.{Err};
ghost use Rattle.rules.specs.Refusals.{number_of, answered, length_told, counted, stored_in, changed_in};
ghost use Rattle.answers.specs.Told.{Told, Counted, Few, bytes_in, refusal_in, tallied};

use rules::counts::{Counts, Visited};
use rules::refusals::{Refusal, number, place as place_of};
use rules::rows::RowsAnswer;

// Minus the number of a refusal.
pub fn minus(r: Refusal) -> i32
    ensures { result ≡ neg_ℤ (pos (number_of r)) }
{
    0 - number(r) as i32
}

// A number at a place of a list, where it reaches so far.
fn put(list: &mut [usize], at: usize, k: usize)
    ensures { list.new ≡ set list.old at k }
{
    if list.len() <= at {
        return;
    }
    list[at] = k;
}

// How many samples were stored and changed, in the first two entries of a list, as many as it has.
pub fn put_counts(counts: &mut [usize], stored: usize, changed: usize)
    ensures { counts.new ≡ tallied stored changed counts.old }
{
    put(counts, 0, stored);
    put(counts, 1, changed);
}

// A count, or minus the number of a refusal, whose place is put into a list.
fn told_count(a: Result<(), Refusal>, k: usize, place: &mut [usize]) -> i32
    requires { k < 2147483648 }
    ensures { Counted a k place.old result place.new }
{
    match a {
        Ok(()) => count(k),
        Err(r) => {
            put(place, 0, place_of(r));
            minus(r)
        }
    }
}

// 0, or minus the number of a refusal, whose place is put into a list.
pub fn told(a: Result<(), Refusal>, place: &mut [usize]) -> i32
    ensures { Told a place.old result place.new }
{
    told_count(a, 0, place)
}

// A refusal of the settings' own list: minus its number, its place put into a list, and counts of none into another.
pub fn told_refusal(r: Refusal, place: &mut [usize], counts: &mut [usize]) -> i32
    ensures { Told (Err r) place.old result place.new × (counts.new ≡ tallied 0 0 counts.old) }
{
    put_counts(counts, 0, 0);
    told(Err(r), place)
}

// What is told of an entry that filters, with its counts put into a list.
pub fn told_counts(a: Result<Counts, Refusal>, place: &mut [usize], counts: &mut [usize]) -> i32
    ensures { Told (answered a) place.old result place.new × (counts.new ≡ tallied (stored_in a) (changed_in a) counts.old) }
{
    match a {
        Ok(n) => {
            put_counts(counts, n.stored, n.changed);
            0
        }
        Err(r) => told_refusal(r, place, counts),
    }
}

// The same of a plane whose edges are recorded: how many bytes its record takes.
pub fn told_record(a: Result<Visited, Refusal>, place: &mut [usize], counts: &mut [usize]) -> i32
    requires { Few (length_told a) }
    ensures { Counted (refusal_in (length_told a)) (bytes_in (length_told a)) place.old result place.new × (counts.new ≡ tallied (stored_in (counted a)) (changed_in (counted a)) counts.old) }
{
    match a {
        Ok(v) => {
            put_counts(counts, v.stored, v.changed);
            count(v.bytes)
        }
        Err(r) => told_refusal(r, place, counts),
    }
}

// How many rows are final, or minus the number of a refusal, whose place is put into a list, with the counts in another.
pub fn told_rows(a: RowsAnswer, place: &mut [usize], counts: &mut [usize]) -> i32
    requires { a.finalrows < 2147483648 }
    ensures { Counted a.answer a.finalrows place.old result place.new × (counts.new ≡ tallied a.stored a.changed counts.old) }
{
    put_counts(counts, a.stored, a.changed);
    told_count(a.answer, a.finalrows, place)
}

// Both thresholds in one number, q above side.
pub fn packed(q: u32, side: u32) -> i32
    requires { (q ≤ 2048) × (side ≤ 839) }
    ensures { result ≡ pos (q * 65536 + side) }
{
    (q * 65536 + side) as i32
}

// A count of samples or of bytes.
pub fn count(k: usize) -> i32
    requires { k < 2147483648 }
    ensures { result ≡ pos k }
{
    k as i32
}
