// Why a plane did not pass.
use pictures::planes::Cut;
use rules::refusals::Refusal;
use std::io;

// The file ended after so many bytes of it, a call was refused, or a row could not be written.
#[derive(Clone, Copy)]
pub enum Stop {
    Cut(usize),
    Refused(Refusal),
    Unwritten,
}

impl From<Cut> for Stop {
    fn from(cut: Cut) -> Stop {
        Stop::Cut(cut.bytes)
    }
}

impl From<Refusal> for Stop {
    fn from(r: Refusal) -> Stop {
        Stop::Refused(r)
    }
}

impl From<io::Error> for Stop {
    fn from(_e: io::Error) -> Stop {
        Stop::Unwritten
    }
}
