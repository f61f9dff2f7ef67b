// A record while it is written: its header, and an entry noted where it fits.
ghost use Rattle.std.specs.Prelude.{◌≡◌, ◌≤◌, length};
ghost use Rattle.std.proofs.lemmas.List.Edits.{sets};
ghost use Rattle.rules.specs.Record.{header};
ghost use Rattle.records.specs.Fit.{InBytes};
ghost use Rattle.records.specs.Noted.{noted_one};

use crate::entry::put_edge;
use rules::edge::Edge;

// Puts the header: the mark EDG and the version 1.
pub fn put_header(buffer: &mut [u8])
    requires { 5 ≤ length buffer.old }
    ensures { buffer.new ≡ sets buffer.old 0 header }
{
    buffer[0] = 69;
    buffer[1] = 68;
    buffer[2] = 71;
    buffer[3] = 1;
    buffer[4] = 0;
}

// Puts the entry at its place where the buffer has room for it; an empty buffer takes none.
pub fn note(buffer: &mut [u8], at: usize, e: Edge)
    requires { InBytes e × (at ≤ 70368744177664) }
    ensures { buffer.new ≡ noted_one at e buffer.old }
{
    if buffer.len() < at + 10 {
        return;
    }
    put_edge(buffer, at, e);
}
