// One plane whose rows are filled call by call, after its settings and grid: the picture, the plane that the whole run leaves, and its calls.
use crate::call;
use crate::grid::Grid;
use cases::Line;
use tally::Outcome;

// Every call, one after the other on one plane: the first refusal's number, 0 for none, and whether each was answered as is due.
fn run_calls(
    mut line: Line,
    g: Grid,
    picture: &[u16],
    due: &[u16],
    plane: &mut [u16],
    found: &mut [u16],
) -> Option<Outcome> {
    let mut number = 0;
    let mut same = true;
    for _ in 0..line.unsigned(8192)? {
        let k = call::read(&mut line)?;
        same &= call::run(k, g, picture, due, plane, found);
        if number == 0 {
            number = k.told.number;
        }
    }
    Some(Outcome::new(number, same && line.ended()))
}

// A plane after its grid: the picture, the plane that the whole run leaves, and the calls. The lent plane, and the list for what a call finds, are as long as the picture; the first call's rows and rubbish cover them.
pub fn replay(mut line: Line, g: Grid) -> Option<Outcome> {
    let mut picture = [0u16; 131072];
    let mut due = [0u16; 131072];
    let mut plane = [0u16; 131072];
    let mut found = [0u16; 131072];
    let picture = line.list(&mut picture);
    let due = line.list(&mut due);
    let n = picture.len();
    plane[..n].copy_from_slice(picture);
    found[..n].copy_from_slice(picture);
    run_calls(line, g, picture, due, &mut plane[..n], &mut found[..n])
}
