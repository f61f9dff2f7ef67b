// The first entry at which two good records differ.
ghost use Rattle.std.specs.Prelude.{◌≡◌, ◌≤◌, length};
ghost use Rattle.compared.specs.Compare.{same_numbers, first_difference, difference_of};

use replay::{count, entry};
use rules::edge::Edge;

// Equal records of so many edges; both edges of the first entry that differs, with its number; or the first edge of the longer record that the other lacks.
// An enum of its own: none of its four cases is a failure.
#[derive(Drop)]
pub enum Difference {
    Equal(usize),
    Edges(usize, Edge, Edge),
    FirstGoesOn(usize, Edge),
    SecondGoesOn(usize, Edge),
}

fn same_numbers(e: Edge, f: Edge) -> bool
    ensures { result ≡ same_numbers e f }
{
    if e.x != f.x {
        return false;
    }
    if e.y != f.y {
        return false;
    }
    if e.dir != f.dir {
        return false;
    }
    if e.pair != f.pair {
        return false;
    }
    if e.q != f.q {
        return false;
    }
    e.side == f.side
}

// The first entry that both records have and that differs.
fn first_difference(a: &[u8], b: &[u8]) -> Option<usize>
    requires { (5 ≤ length a.now) × (5 ≤ length b.now) }
    ensures { result ≡ first_difference a.now b.now }
{
    let n = count(a).min(count(b));
    for k in 0..n {
        if !same_numbers(entry(a, k), entry(b, k)) {
            return Some(k);
        }
    }
    None
}

pub fn compare(a: &[u8], b: &[u8]) -> Difference
    requires { (5 ≤ length a.now) × (5 ≤ length b.now) }
    ensures { result ≡ difference_of a.now b.now }
{
    if let Some(k) = first_difference(a, b) {
        return Difference::Edges(k, entry(a, k), entry(b, k));
    }
    let n = count(a);
    let m = count(b);
    if m < n {
        return Difference::FirstGoesOn(m, entry(a, m));
    }
    if n < m {
        return Difference::SecondGoesOn(n, entry(b, n));
    }
    Difference::Equal(n)
}
