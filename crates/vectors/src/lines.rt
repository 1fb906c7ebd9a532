// Whether a line reads back to the reason that is reckoned, and the reason has this line.
use cases::answers::{FILL, holds};
use cases::headers::Case;
use reasons::Reason;
use reasons::line::{REASON_LINE_LENGTH, reason_line};
use reasons::reading::read_reason;

// How a reason is stored: its number, 0 if there is none, and the offsets of its line, 0 for what it has not. These stay numbers, as in the stored cases.
pub(crate) fn stored(reason: Option<Reason>) -> (u8, u16, u16) {
    match reason {
        None => (0, 0, 0),
        Some(Reason::HoldsLoop(choice)) => (1, choice, 0),
        Some(Reason::TooFewTrips(looping)) => (2, looping, 0),
        Some(Reason::UnevenIn(inner, outer)) => (3, inner, outer),
    }
}

fn has_line(reason: Reason, line: &[u8]) -> bool {
    let mut buffer = [FILL; REASON_LINE_LENGTH];
    let length = reason_line(reason, &mut buffer);
    length == line.len() && holds(&buffer, line)
}

// A line that reads back to something is the line of what it reads back to.
pub(crate) fn line_agrees(case: Case, line: &[u8]) -> bool {
    let found = read_reason(line);
    let (number, first, second) = stored(found);
    case.number == number
        && case.value == usize::from(first)
        && case.count == usize::from(second)
        && found.is_none_or(|reason| has_line(reason, line))
}
