// Lists after a call, one by one against the line's: the new ones of an accepted case stand after the answer, the lent ones of a refused case where they were read.
ghost use Rattle.std.specs.Prelude.{◌≡◌, ◌≢◌, true, false};
ghost use Rattle.text.specs.Numbers.{whole_line};
ghost use Rattle.cases.specs.Due.{held_due};

use crate::asked::Line;
use text::{Answered, Entry};

// Where the next list stands, what follows the answer, and whether the lists are the lent ones, whose lengths stand before them.
#[derive(Clone, Copy)]
pub struct Due<'a> {
    pub next: Line<'a>,
    pub after: Line<'a>,
    pub lent: bool,
}

impl<'a> Due<'a> {
    // What is due of a case whose lists were read from `lent` on, and whose answer ends where `after` goes on.
    pub fn new(told: Answered, lent: Line<'a>, after: Line<'a>) -> Due<'a>
        ensures accepted { told.number ≡ 0 → result.lent ≡ false }
        ensures refused { told.number ≢ 0 → result.lent ≡ true }
    {
        if told.number == 0 {
            return Due::printed(after);
        }
        Due {
            next: lent,
            after,
            lent: true,
        }
    }

    // New lists, printed after the answer.
    pub fn printed(after: Line<'a>) -> Due<'a>
        ensures { result.lent ≡ false }
    {
        Due {
            next: after,
            after,
            lent: false,
        }
    }

    // Whether a list is the next one that is due.
    pub fn is<T: Entry>(&mut self, list: &[T]) -> bool
        ensures lent { self.new.lent ≡ self.old.lent }
        ensures after { self.new.after.rest ≡ self.old.after.rest }
        ensures text { self.new.next.text.now ≡ self.old.next.text.now }
        ensures same { result ≡ (held_due T.number_of (T.entry_of 0) T.MOST self.old.lent self.old.next.text.now self.old.next.rest list.now).same }
        ensures rest { self.new.next.rest ≡ (held_due T.number_of (T.entry_of 0) T.MOST self.old.lent self.old.next.text.now self.old.next.rest list.now).rest }
    {
        if self.lent {
            let _ = self.next.size();
        }
        let h = text::hold_list(self.next.text, self.next.rest, list);
        self.next.rest = h.rest;
        h.same
    }

    // Whether a list is the one that is due, and the line ends where it should.
    pub fn only<T: Entry>(mut self, list: &[T]) -> bool
        ensures lent { self.entry.lent ≡ true → result ≡ true → whole_line self.entry.after.rest ≡ true }
        ensures same { result ≡ true → (held_due T.number_of (T.entry_of 0) T.MOST self.entry.lent self.entry.next.text.now self.entry.next.rest list.now).same ≡ true }
        ensures new { self.entry.lent ≡ false → result ≡ true → whole_line (held_due T.number_of (T.entry_of 0) T.MOST self.entry.lent self.entry.next.text.now self.entry.next.rest list.now).rest ≡ true }
    {
        self.is(list) && self.ended()
    }

    // Whether the line ends where it should: after the new lists, or after a refusal's answer.
    pub fn ended(&self) -> bool
        ensures lent { self.now.lent ≡ true → result ≡ whole_line self.now.after.rest }
        ensures new { self.now.lent ≡ false → result ≡ whole_line self.now.next.rest }
    {
        if self.lent {
            return self.after.ended();
        }
        self.next.ended()
    }
}
