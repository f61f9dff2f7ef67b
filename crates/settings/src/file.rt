// A settings text, line by line, up to the first line that is not as it should be.
ghost use Rattle.std.specs.Prelude.{◌≡◌, ◌≤◌, length, get_or, not, pos};
ghost use Rattle.laws.specs.Choose.{either};
ghost use Rattle.settings.specs.Kinds.{number_of, answer_of};
ghost use Rattle.settings.specs.Lines.{Kept, Lent, lent, take_of, start_of, count_right, whole_of, is_one, version_bad, is_flag, flag_bad, verdict_of, fill_of, too_soon, setting_of, line_of};
ghost use Rattle.settings.specs.Text.{alone_of, missing_of, found, parse_of};

use crate::kinds::{Expected, Kind};
use crate::names::{Destination, kind, rule_of};
use crate::values::{Taken, put};
use crate::walk::Walk;
use laws::Gap;
use text::Cursor;
use text::place::spaces;
use text::spell::read_word;

// A line, counted from 1, and the place where it starts.
#[derive(Clone, Copy)]
pub struct Place {
    pub line: usize,
    pub at: usize,
}

// A line that is not as it should be, and what was expected there.
#[derive(Clone, Copy)]
pub struct Fault {
    pub place: Place,
    pub expected: Expected,
}

// The lists that the numbers go to, and the place after the last number of each kind.
#[derive(Drop)]
pub struct Settings<'a> {
    pub numbers: &'a mut [i32],
    pub shorts: &'a mut [u16],
    pub steps: &'a mut [u32],
    pub flags: &'a mut [u8],
    pub offsets: &'a mut [i8],
    pub places: &'a mut [usize; 24],
}

// The numbers after a name, into the list that is theirs.
fn take(
    text: &[u8],
    c: Cursor,
    list: Destination,
    from: usize,
    end: usize,
    s: &mut Settings<'_>,
) -> Taken
    ensures from_le_at { from ≤ result.at }
    ensures lent { Lent s.old s.new }
    ensures kept { Kept (lent s.old).lists (lent s.new).lists }
    ensures places_unchanged { s.new.places.now ≡ s.old.places.now }
    ensures result_after { record { lists = (lent s.new).lists; left = result } ≡ take_of text.now c list from end (lent s.old).lists }
{
    match list {
        Destination::Numbers => put(text, c, s.numbers, from, end),
        Destination::Shorts => put(text, c, s.shorts, from, end),
        Destination::Steps => put(text, c, s.steps, from, end),
        Destination::Flags => put(text, c, s.flags, from, end),
        Destination::Offsets => put(text, c, s.offsets, from, end),
        Destination::Tiles => put(text, c, s.shorts, from, end),
    }
}

// Where a line's numbers begin: signed numbers and tile starts stand at a place of their own, others after those before them.
fn start(list: Destination, from: usize, place: usize) -> usize
    ensures { result ≡ start_of list from place }
{
    match list {
        Destination::Numbers => from,
        Destination::Tiles => from,
        _ => place,
    }
}

// Whether there are as many numbers as a line should have, or any where that is not settled.
fn count_right(each: Option<usize>, n: usize) -> bool
    ensures { result ≡ count_right each n }
{
    match each {
        Some(each) => n == each,
        None => 0 < n,
    }
}

// Whether the line was read to its end and had as many numbers as it should.
fn whole(t: Taken, from: usize, each: Option<usize>) -> bool
    requires { from ≤ t.at }
    ensures { result ≡ whole_of t from each }
{
    let rest = t.rest;
    if !rest.good {
        return false;
    }
    if rest.at < rest.end {
        return false;
    }
    count_right(each, t.at - from)
}

// Whether the first number is not the version of this form of settings.
fn version_bad(numbers: &[i32]) -> bool
    ensures { result ≡ not (is_one (get_or numbers.now 0 (pos 0))) }
{
    if numbers.len() == 0 {
        return true;
    }
    Gap::from(numbers[0]).up != 1
}

// Whether chroma's flag is neither 0 nor 1.
fn flag_bad(numbers: &[i32]) -> bool
    ensures { result ≡ not (is_flag (get_or numbers.now 7 (pos 0))) }
{
    if numbers.len() < 8 {
        return false;
    }
    let flag = Gap::from(numbers[7]);
    flag.down != 0 || 1 < flag.up
}

// Whether a number of a line is not one that its kind may have.
fn number_bad(kind: Kind, s: &Settings<'_>) -> bool
    ensures { result ≡ either (version_bad (number_of kind) s.now.numbers.now) (flag_bad (number_of kind) s.now.numbers.now) }
{
    match kind {
        Kind::Version => version_bad(s.numbers),
        Kind::Chroma => flag_bad(s.numbers),
        _ => false,
    }
}

// What is to be said of a line's numbers.
fn verdict(
    t: Taken,
    from: usize,
    each: Option<usize>,
    kind: Kind,
    s: &Settings<'_>,
) -> Result<(), Expected>
    requires { from ≤ t.at }
    ensures { answer_of result ≡ verdict_of t from each (number_of kind) s.now.numbers.now }
{
    if !whole(t, from, each) {
        return Err(Expected::Setting(kind));
    }
    if number_bad(kind, s) {
        return Err(Expected::Setting(kind));
    }
    Ok(())
}

// The numbers of a line of a known kind; the kind's place moves on where they are good.
fn fill(
    text: &[u8],
    at: usize,
    end: usize,
    kind: Kind,
    s: &mut Settings<'_>,
) -> Result<(), Expected>
    ensures lent { Lent s.old s.new }
    ensures kept { Kept (lent s.old).lists (lent s.new).lists }
    ensures result_after { record { state = lent s.new; answer = answer_of result }
        ≡ fill_of text.now at end (number_of kind) (lent s.old) }
{
    let k = usize::from(kind);
    let rule = rule_of(Some(kind), s.shorts.len());
    let from = start(rule.list, rule.from, s.places[k]);
    let c = Cursor {
        at,
        end,
        good: true,
    };
    let t = take(text, c, rule.list, from, rule.end, s);
    verdict(t, from, rule.each, kind, s)?;
    s.places[k] = t.at;
    Ok(())
}

// Whether a setting stands before the first one, whose place is still 0.
fn too_soon(kind: Kind, first: usize) -> bool
    ensures { result ≡ too_soon (number_of kind) first }
{
    match kind {
        Kind::Version => false,
        _ => first == 0,
    }
}

// A line after its name, of a known kind.
fn setting(
    text: &[u8],
    at: usize,
    end: usize,
    kind: Kind,
    s: &mut Settings<'_>,
) -> Result<(), Expected>
    ensures lent { Lent s.old s.new }
    ensures kept { Kept (lent s.old).lists (lent s.new).lists }
    ensures result_after { record { state = lent s.new; answer = answer_of result }
        ≡ setting_of text.now at end (number_of kind) (lent s.old) }
{
    if too_soon(kind, s.places[1]) {
        return Err(Expected::Setting(Kind::Version));
    }
    fill(text, at, end, kind, s)
}

// One line.
fn line(text: &[u8], from: usize, end: usize, s: &mut Settings<'_>) -> Result<(), Expected>
    requires { (from ≤ end) × (end ≤ length text.now) }
    ensures lent { Lent s.old s.new }
    ensures kept { Kept (lent s.old).lists (lent s.new).lists }
    ensures result_after { record { state = lent s.new; answer = answer_of result }
        ≡ line_of text.now from end (lent s.old) }
{
    let at = spaces(text, from, end);
    if at == end {
        return Ok(());
    }
    let w = read_word(text, at, end);
    match kind(w.value) {
        Some(kind) => setting(text, w.next, end, kind, s),
        None => Err(Expected::Name),
    }
}

// Whether a plane has offsets and no CCSO numbers: each place as it is, and where its kind begins.
fn alone(ccso: usize, none: usize, offsets: usize, first: usize) -> bool
    ensures { result ≡ alone_of ccso none offsets first }
{
    if ccso != none {
        return false;
    }
    offsets != first
}

// What is missing where every line was good: the first setting, a qindex, or the CCSO numbers of a plane with offsets.
fn missing(s: &Settings<'_>) -> Result<(), Expected>
    ensures { answer_of result ≡ missing_of s.now.places.now }
{
    let places = *s.places;
    let kind = if places[1] == 0 {
        Kind::Version
    } else if places[2] == 0 {
        Kind::Qindex
    } else if alone(places[12], 16, places[18], 0) {
        Kind::CcsoY
    } else if alone(places[13], 32, places[19], 128) {
        Kind::CcsoU
    } else if alone(places[14], 48, places[20], 256) {
        Kind::CcsoV
    } else {
        return Ok(());
    };
    Err(Expected::Setting(kind))
}

// An answer with the place of its line.
fn placed(answer: Result<(), Expected>, line: usize, at: usize) -> Result<Place, Fault>
    ensures { found result ≡ record { line = line; kind = answer_of answer; at = at } }
{
    let place = Place { line, at };
    match answer {
        Ok(()) => Ok(place),
        Err(expected) => Err(Fault { place, expected }),
    }
}

// Every line of a text, and the place after the last one; lines count from 1.
pub fn parse(text: &[u8], s: &mut Settings<'_>) -> Result<Place, Fault>
    ensures lent { Lent s.old s.new }
    ensures kept { Kept (lent s.old).lists (lent s.new).lists }
    ensures result_after { record { state = lent s.new; fault = found result } ≡ parse_of text.now (lent s.old) }
{
    let mut walk = Walk::new();
    while let Some(here) = walk.next(text) {
        let told = line(text, here.at, here.stop, s);
        placed(told, here.number, here.at)?;
    }
    placed(missing(s), walk.number, walk.at)
}
