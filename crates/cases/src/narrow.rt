// Lists whose entries a line has wider than a call: leaves and offsets.
ghost use Rattle.std.specs.Prelude.{◌≤◌, length};

use crate::asked::Line;

// A list's entries, each narrowed by a rule, at the front of another list, as many as it has room for.
fn narrowed<'b, T: Copy, U: Drop, F: Fn(T) -> U>(
    from: &[T],
    to: &'b mut [U],
    rule: F,
) -> &'b mut [U]
    requires { F.IsAlwaysCallable rule }
    ensures { length result.now ≤ length to.old }
{
    let n = from.len().min(to.len());
    let front = &mut to[..n];
    for (entry, wide) in front.iter_mut().zip(from) {
        *entry = rule(*wide);
    }
    front
}

// A list of leaves: a number that fits no u16 is bad in a leaf, and so is 65535.
pub fn read_leaves<'b>(line: &mut Line, room: &'b mut [u16]) -> &'b mut [u16]
    ensures { length result.now ≤ length room.old }
{
    let mut wide = [0u32; 32768];
    narrowed(line.list(&mut wide), room, |n| n.min(65535) as u16)
}

// A list of offsets: one that fits no i8 is bad, and so are -128 and 127.
pub fn read_offsets<'b>(line: &mut Line, room: &'b mut [i8]) -> &'b mut [i8]
    ensures { length result.now ≤ length room.old }
{
    let mut wide = [0i32; 256];
    narrowed(
        line.signed_list(&mut wide),
        room,
        |n| n.clamp(-128, 127) as i8,
    )
}
