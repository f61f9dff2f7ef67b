// The published table of AC steps.
#![tactic(auto)]

ghost use Rattle.std.specs.Prelude.{◌≡◌, ◌≤◌, ◌<◌, length};
ghost use Rattle.ac_steps.specs.Steps.{step_at, step_table, tabled, StepsTo};

// Its first 25 entries.
const FIRST: [u32; 25] = [
    64, 40, 41, 43, 44, 45, 47, 48, 49, 51, 52, 54, 55, 57, 59, 60, 62, 64, 66, 68, 70, 72, 74, 76,
    78,
];

// The next entry after i of them: twice the one 24 before it, and from 255 on the same.
fn next_step(t: &[u32], i: usize) -> u32
    requires { (i < 352) × (352 ≤ length t.now) × StepsTo i t.now }
    ensures { result ≡ step_at i }
{
    match i {
        0..=24 => FIRST[i],
        25..=255 => 2 * t[i - 24],
        _ => t[i - 1],
    }
}

// Puts the table at the front of a list.
pub fn put_steps(list: &mut [u32])
    requires { 352 ≤ length list.old }
    ensures { list.new ≡ tabled list.old }
{
    // By index: an entry is made from entries before it in the same list.
    for i in 0..352 {
        list[i] = next_step(list, i);
    }
}

// The table.
pub fn steps() -> [u32; 352]
    ensures { result ≡ step_table }
{
    let mut t = [0u32; 352];
    put_steps(&mut t);
    t
}
