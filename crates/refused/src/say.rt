// The lines of an answer: the outcome as one byte (1 refused, 2 a bad file), which stands before any name, and then what is said of a leaf, a setting or a refusal.
use by_settings::places::{Place, STEPS};
use rules::refusals::Refusal;
use settings::kinds::Kind;
use streams::say::{number, words};
use streams::table::entry;
use streams::take::setting;
use system::files::Target;

// Where leaves should begin.
fn cells(told: &Target, rows: usize, columns: usize) {
    words(told, b"leaves in the picture's ");
    number(told, rows);
    words(told, b" rows and ");
    number(told, columns);
    words(told, b" columns of cells, and not '");
}

// A leaf that begins outside the picture, by its kind, row and column.
pub fn outside(told: &Target, kind: Kind, row: usize, column: usize, rows: usize, columns: usize) {
    cells(told, rows, columns);
    setting(told, kind);
    words(told, b" ");
    number(told, row);
    words(told, b" ");
    number(told, column);
    words(told, b" ..'\n");
}

// The line of the settings that has what was refused, where there is one.
fn settings_line(told: &Target, line: Option<usize>) {
    if let Some(line) = line {
        words(told, b"; line ");
        number(told, line);
        words(told, b" of the settings");
    }
}

// The range of a setting.
fn range(told: &Target, kind: Kind) {
    match kind {
        Kind::DeltaY | Kind::DeltaUv => words(told, b"-128..127"),
        Kind::CapY | Kind::CapUv => words(told, b"1, 2, 4, 8 and 16 cells each way"),
        _ => words(
            told,
            b"its ranges: scale 1..16, cuts -4095..4095 with lo at most hi, classes 0..3, taps -16..16, band log2 0..3",
        ),
    }
}

// A setting outside its range, and the line that has it.
pub fn out_of_range(told: &Target, kind: Kind, line: Option<usize>) {
    words(told, b"1refused by 5: ");
    setting(told, kind);
    words(told, b" is outside ");
    range(told, kind);
    settings_line(told, line);
    words(told, b"\n");
}

// A bad list of tile starts of a plane with so many columns of cells, and the line that has it.
pub fn bad_tiles(told: &Target, kind: Kind, columns: usize, line: Option<usize>) {
    words(told, b"1refused by 5: ");
    setting(told, kind);
    words(
        told,
        b" is no strictly rising list of columns above 0 and below ",
    );
    number(told, columns);
    settings_line(told, line);
    words(told, b"\n");
}

// A refusal's meaning, by its number.
fn meaning(told: &Target, n: usize) {
    entry(
        told,
        b"
the depth is not 8, 10 or 12
a size, stride or subsampling is outside its range
a list is too short
the step table is not 352 entries from 64 on, each at most 1048576
a delta, cap, tile start or CCSO setting is outside its range
a grid cell has a bad mark or index
an edge lacks room
a sample is above the depth's top
a leaf is bad
the record's buffer is too short
this is no record of edges, or one of another version
the record's last entry is cut
an entry of the record is outside its ranges
a count of filled rows exceeds the plane, is no multiple of 4 or is below the last
the state is spent",
        n,
    );
}

// Where a refusal stands: a plane by its name, or a list by its setting's.
fn placed(told: &Target, at: Place) {
    entry(
        told,
        b"luma\nU\nV\nchroma\nleaf\nleaf_uv\nskip\nsteps\nthe frame",
        at.plane,
    );
    if at.plane == STEPS {
        words(told, b", entry ");
    } else {
        words(told, b", row ");
        number(told, at.row);
        words(told, b", column ");
    }
    number(told, at.column);
}

// A refusal by its number, its meaning, its place, and the line of the settings that has it.
pub fn refused(told: &Target, r: Refusal, at: Place, line: Option<usize>) {
    let n = rules::refusals::number(r) as usize;
    words(told, b"1refused by ");
    number(told, n);
    words(told, b": ");
    meaning(told, n);
    words(told, b"; ");
    placed(told, at);
    settings_line(told, line);
    words(told, b"\n");
}
