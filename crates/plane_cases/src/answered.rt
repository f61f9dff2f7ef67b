// Whether a plane's answer is the line's.
use rules::counts::Counts;
use rules::refusals::Refusal;
use text::Answered;

// Whether a plane's answer and both counts are the stream's.
pub fn same(a: Result<Counts, Refusal>, told: Answered) -> bool {
    tally::same_counted(a, told.number, told.place, told.stored, told.changed)
}
