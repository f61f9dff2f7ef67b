// One line of a stream as it is read: numbers that are there or not, and lists to the front of lent ones.
ghost use Rattle.std.specs.Prelude.{◌≡◌, ◌≤◌, length, take, IfSome, IsSome, is_some, true};
ghost use Rattle.text.specs.Numbers.{number_at, whole_line};
ghost use Rattle.text.specs.Lists.{listed_at, list_at, SetsSteps};
ghost use Rattle.text.specs.Typed.{unsigned_of, signed_of, answered_at, counted_at};

use text::{Answered, Cursor, Entry, Steps};

// A line's bytes, and the place of what is read next. A number that is not there, or does not fit, gives the line up: nothing is there any more.
#[derive(Clone, Copy)]
pub struct Line<'a> {
    pub text: &'a [u8],
    pub rest: Cursor,
}

impl<'a> Line<'a> {
    // A whole text as a line.
    pub fn new(text: &'a [u8]) -> Line<'a>
        ensures text { result.text.now ≡ text.now }
        ensures start { result.rest.at ≡ 0 }
        ensures end { result.rest.end ≡ length text.now }
        ensures good { result.rest.good ≡ true }
    {
        Line {
            text,
            rest: Cursor {
                at: 0,
                end: text.len(),
                good: true,
            },
        }
    }

    // The next number, of at most `most`.
    pub fn unsigned(&mut self, most: usize) -> Option<usize>
        ensures there { is_some result ≡ self.new.rest.good }
        ensures value { IfSome result (λ n. n ≡ (unsigned_of most (number_at self.old.text.now self.old.rest)).value) }
        ensures bound { IfSome result (λ n. n ≤ most) }
        ensures rest { self.new.rest ≡ (unsigned_of most (number_at self.old.text.now self.old.rest)).rest }
        ensures text { self.new.text.now ≡ self.old.text.now }
    {
        let n = text::read_unsigned(self.text, self.rest, most);
        self.rest = n.rest;
        self.rest.good.then_some(n.value)
    }

    // The next number as a type of its own, where it fits.
    pub fn number<T: TryFrom<usize> + Drop>(&mut self) -> Option<T>
    where
        T::Error: Drop,
        ensures { IsSome result → self.new.rest.good ≡ true }
    {
        T::try_from(self.unsigned(usize::MAX)?).ok()
    }

    // The next number, where it fits a u32.
    pub fn size(&mut self) -> Option<usize>
        ensures bound { IfSome result (λ n. n ≤ 4294967295) }
        ensures rest { self.new.rest ≡ (unsigned_of 4294967295 (number_at self.old.text.now self.old.rest)).rest }
        ensures text { self.new.text.now ≡ self.old.text.now }
    {
        self.unsigned(4294967295)
    }

    // The next number, read past 32 bits: the stream has refused sizes of four times a u32.
    pub fn large(&mut self) -> Option<usize>
        ensures { IfSome result (λ n. n ≤ 1099511627775) }
    {
        self.unsigned(1099511627775)
    }

    // The next number, 1 for yes and 0 for no.
    pub fn flag(&mut self) -> Option<bool>
        ensures { is_some result ≡ self.new.rest.good }
    {
        Some(self.unsigned(1)? == 1)
    }

    // The next number, where it is an i32.
    pub fn signed(&mut self) -> Option<i32>
        ensures there { is_some result ≡ self.new.rest.good }
        ensures value { IfSome result (λ n. n ≡ (signed_of (number_at self.old.text.now self.old.rest)).value) }
    {
        let n = text::read_signed(self.text, self.rest);
        self.rest = n.rest;
        self.rest.good.then_some(n.value)
    }

    // What the stream says that a call answers.
    pub fn answer(&mut self) -> Option<Answered>
        ensures there { is_some result ≡ self.new.rest.good }
        ensures value { IfSome result (λ t. t ≡ answered_at self.old.text.now self.old.rest) }
    {
        let told = text::read_answer(self.text, self.rest);
        self.rest = told.rest;
        self.rest.good.then_some(told)
    }

    // What the stream says that a call answers, with both counts.
    pub fn counted(&mut self) -> Option<Answered>
        ensures there { is_some result ≡ self.new.rest.good }
        ensures value { IfSome result (λ t. t ≡ counted_at self.old.text.now self.old.rest) }
    {
        let told = text::read_counted(self.text, self.rest);
        self.rest = told.rest;
        self.rest.good.then_some(told)
    }

    // The next list, at the front of a lent one. Of a line that is given up it has no entries, or zeros.
    pub fn list<'b, T: Entry>(&mut self, room: &'b mut [T]) -> &'b mut [T]
        ensures within { length result.now ≤ length room.old }
        ensures count { length result.now ≡ (listed_at T.MOST self.old.text.now self.old.rest (length room.old)).length }
        ensures entries { result.now ≡ take (length result.now) (list_at T.entry_of T.MOST self.old.text.now self.old.rest room.old) }
        ensures rest { self.new.rest ≡ (listed_at T.MOST self.old.text.now self.old.rest (length room.old)).rest }
        ensures text { self.new.text.now ≡ self.old.text.now }
    {
        let l = text::read_list(self.text, self.rest, room);
        self.rest = l.rest;
        &mut room[..l.length]
    }

    // The next list of numbers with a sign, at the front of a lent one.
    pub fn signed_list<'b>(&mut self, room: &'b mut [i32]) -> &'b mut [i32]
        ensures { length result.now ≤ length room.old }
    {
        let signed = text::read_i32s(self.text, self.rest, room);
        self.rest = signed.rest;
        &mut room[..signed.length]
    }

    // A line that sets the step table, at the front of a lent list.
    pub fn set_steps(&self, room: &mut [u32]) -> Steps
        ensures { SetsSteps self.now.text.now self.now.rest room.old room.new result }
    {
        text::set_steps(self.text, self.rest, room)
    }

    // Whether the line was read whole.
    pub fn ended(&self) -> bool
        ensures { result ≡ whole_line self.now.rest }
    {
        text::ended(self.rest)
    }
}
