// Whether the library call and the C call answer as reckoned.
use cases::answers::{FILL, holds, left_after};
use cases::headers::Case;
use cases::numbers::{budget_in, parameters_in};
use encoding::number::unsigned64_at;
use exports::pumdalin_figures;
use figures::{Figures, cycles};

// How many bytes what is given takes, parameters and a budget, and how many the stored answer area after it.
const GIVEN: usize = 12;

const AREA: usize = 24;

// How long the area is that is lent.
const LENT: usize = 40;

// How many bytes follow the sheet.
pub(crate) const CALL: usize = GIVEN + AREA;

fn library_agrees(case: Case, sheet: &[u8], given: &[u8], stored: &[u8]) -> bool {
    let figures = Figures {
        least: unsigned64_at(stored, 0),
        most: unsigned64_at(stored, 8),
        visits: unsigned64_at(stored, 16),
    };
    let answer = cycles(sheet, parameters_in(given), budget_in(given));
    case.has_answer(answer, figures)
}

// The area that is lent is longer than it has to be: what follows its 24th byte has to stay, and all of it where the call refuses.
fn c_agrees(case: Case, sheet: &[u8], given: &[u8], stored: &[u8]) -> bool {
    let mut area = [FILL; LENT];
    let [p1, p2, p3, p4] = parameters_in(given);
    let number = pumdalin_figures(sheet, p1, p2, p3, p4, budget_in(given), &mut area);
    number == u32::from(case.number) && holds(&area, left_after(number, stored))
}

// Where nothing follows the sheet, the parameters and the budget are 0, and only a refusal agrees.
pub(crate) fn calls_agree(case: Case, sheet: &[u8], own: &[u8]) -> bool {
    let (given, stored) = own.split_at_checked(GIVEN).unwrap_or((own, &[]));
    library_agrees(case, sheet, given, stored) && c_agrees(case, sheet, given, stored)
}
