// Whether the library call and the C call over a range answer as reckoned.
use cases::answers::{FILL, holds, left_after};
use cases::headers::Case;
use cases::numbers::{budget_in, parameters_in};
use encoding::number::{signed16_at, unsigned32_at, unsigned64_at};
use exports::pumdalin_range;
use sweep::extremes::{Extreme, Extremes, cycles_over_range};
use sweep::values::ParameterRange;

// How many bytes what is given takes, parameters, a budget and a range, and how many the C call's area, of which five numbers are stored.
const GIVEN: usize = 20;

const AREA: usize = 40;

// The longest area that is lent.
const LENT: usize = 80;

// How many bytes follow the sheet: what is given, the C call's number and its area.
pub(crate) const RANGE: usize = GIVEN + 1 + AREA;

fn range_in(given: &[u8]) -> ParameterRange {
    ParameterRange {
        number: unsigned32_at(given, 12),
        first: signed16_at(given, 16),
        last: signed16_at(given, 18),
    }
}

// A value lies in 16 bits, so the low two of its eight bytes tell it.
fn extremes_in(area: &[u8]) -> Extremes {
    Extremes {
        least: Extreme {
            cycles: unsigned64_at(area, 0),
            value: signed16_at(area, 8),
        },
        most: Extreme {
            cycles: unsigned64_at(area, 16),
            value: signed16_at(area, 24),
        },
        visits: unsigned64_at(area, 32),
    }
}

fn library_agrees(case: Case, sheet: &[u8], given: &[u8], stored: &[u8]) -> bool {
    let answer = cycles_over_range(
        sheet,
        parameters_in(given),
        budget_in(given),
        range_in(given),
    );
    case.has_answer(answer, extremes_in(stored))
}

// What follows the 40th byte has to stay, and every byte where the call refuses. An area that is longer than the space is not lent: the number 0 stands for
// the answer, and nothing is written.
fn c_agrees(case: Case, sheet: &[u8], given: &[u8], number: u8, stored: &[u8]) -> bool {
    let mut area = [FILL; LENT];
    let [p1, p2, p3, p4] = parameters_in(given);
    let budget = budget_in(given);
    let range = range_in(given);
    let lent = area.get_mut(..case.count);
    let returned = lent.map_or(0, |answer| {
        pumdalin_range(
            sheet,
            p1,
            p2,
            p3,
            p4,
            budget,
            range.number,
            range.first,
            range.last,
            answer,
        )
    });
    returned == u32::from(number) && holds(&area, left_after(returned, stored))
}

pub(crate) fn range_agrees(case: Case, sheet: &[u8], own: &[u8]) -> bool {
    let Some((given, answered)) = own.split_at_checked(GIVEN) else {
        return false;
    };
    let Some((number, stored)) = answered.split_first() else {
        return false;
    };
    library_agrees(case, sheet, given, stored) && c_agrees(case, sheet, given, *number, stored)
}
