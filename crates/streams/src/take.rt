// The settings' text from its file into the lists of its numbers, and what is said of a line that is not as it should be.
ghost use Rattle.std.specs.Prelude.{◌≤◌, length};
ghost use Rattle.settings.specs.Lines.{Kept, Lent, lent};

use crate::say::{Answered, at_line, words};
use crate::table::entry;
use settings::file::{Fault, Settings, parse};
use settings::kinds::{Expected, Kind};
use system::files::{Source, Target, read_full};
use text::place::{line_end, spaces, word_end};

// A setting by its name; nothing for a number that no kind has.
pub fn setting(told: &Target, kind: impl Into<usize>) {
    entry(
        told,
        b"
settings
qindex
steps
leaf
leaf_uv
skip
delta_y
delta_uv
cap_y
cap_uv
chroma
ccso_y
ccso_u
ccso_v
flags_y
flags_u
flags_v
offset_y
offset_u
offset_v
tiles_y
tiles_uv
keep",
        kind.into(),
    );
}

// Which numbers a setting has: a line of the table of `numbers_of`.
fn sort_of(kind: Kind) -> usize {
    match kind {
        Kind::Qindex => 0,
        Kind::Steps => 1,
        Kind::Leaf | Kind::LeafUv | Kind::Skip => 2,
        Kind::DeltaY | Kind::DeltaUv => 3,
        Kind::CapY | Kind::CapUv => 4,
        Kind::Chroma => 5,
        Kind::CcsoY | Kind::CcsoU | Kind::CcsoV => 6,
        Kind::FlagsY | Kind::FlagsU | Kind::FlagsV => 7,
        Kind::TilesY | Kind::TilesUv => 9,
        Kind::Keep => 10,
        _ => 8,
    }
}

// The numbers of a setting.
fn numbers_of(told: &Target, kind: Kind) {
    entry(
        told,
        b"numbers from 0 to 65535, one for each superblock, 4096 at most
numbers from 0 to 4294967295, 352 at most
four numbers: row, column, width, height, in cells; 1048576 leaves at most
one number
two numbers: width, height, in cells
0 or 1
eleven numbers, without which its plane's offsets say nothing
flags, 0 or 1, 4096 at most
offsets from -10 to 7, 128 at most
numbers from 0 to 65535, one for each column of cells that starts a tile, 1023 at most
four numbers from 0 to 65535: row, column, rows, columns, in luma cells; 4096 rectangles at most",
        sort_of(kind),
    );
}

// A line that begins with an unknown name.
fn unknown(told: &Target, name: &[u8], line: usize, word: &[u8]) {
    at_line(told, name, line);
    words(told, b"the name of a setting, and not '");
    words(told, word);
    words(told, b"'\n");
}

// Says that the line from a place on begins with an unknown name.
fn say_unknown(told: &Target, name: &[u8], text: &[u8], at: usize, line: usize) {
    let n = text.len();
    if n < at {
        return;
    }
    let end = line_end(text, at, n);
    let from = spaces(text, at, end);
    let stop = word_end(text, from, end);
    unknown(told, name, line, &text[from..stop]);
}

// What the settings file should have said.
fn expected_setting(told: &Target, name: &[u8], line: usize, kind: Kind) {
    at_line(told, name, line);
    words(told, b"'");
    setting(told, kind);
    if kind == Kind::Version {
        words(told, b" 1' before any other setting\n");
        return;
    }
    words(told, b"' and ");
    numbers_of(told, kind);
    words(told, b"\n");
}

// The answer on a line that is not as it should be.
fn say_fault(told: &Target, name: &[u8], text: &[u8], fault: Fault) -> Answered {
    let place = fault.place;
    match fault.expected {
        Expected::Name => say_unknown(told, name, text, place.at, place.line),
        Expected::Setting(kind) => expected_setting(told, name, place.line, kind),
    }
    Answered
}

// A text into the lists; an error after the answer that says what is wrong.
pub fn take(told: &Target, name: &[u8], text: &[u8], s: &mut Settings<'_>) -> Result<(), Answered>
    ensures lent { Lent s.old s.new }
    ensures kept { Kept (lent s.old).lists (lent s.new).lists }
{
    match parse(text, s) {
        Ok(_) => Ok(()),
        Err(fault) => Err(say_fault(told, name, text, fault)),
    }
}

// The front of a text to where it is to stand; how long it is.
fn put_front(front: &[u8], text: &mut [u8]) -> usize
    requires { length front.now ≤ length text.old }
    ensures { result ≤ length text.new }
{
    let n = front.len();
    text[..n].copy_from_slice(front);
    n
}

// A text whose front was read, and the rest of it from its file; how long it is.
pub fn read_on(file: &Source, front: &[u8], text: &mut [u8]) -> usize
    requires { length front.now ≤ length text.old }
    ensures { result ≤ length text.new }
{
    let m = put_front(front, text);
    m + read_full(file, &mut text[m..])
}
