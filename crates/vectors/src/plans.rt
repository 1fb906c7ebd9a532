// Whether the plan of a sheet has the loops' lines, or the refusal, as reckoned.
use crate::lines::stored;
use cases::headers::Case;
use cases::numbers::{PARAMETERS, parameters_in};
use encoding::number::unsigned16_at;
use layout::PlanArrays;
use planner::plan;
use planner::report::{Class, LoopReport, report_of};
use records::MAX_RECORDS;

// How many bytes a loop's line takes: its offset, closed, walked or ranked, its ceiling, and why it is not closed.
pub(crate) const LINE: usize = 10;

// A loop's offset, the number of its class, its ceiling, and how its reason is stored.
type LoopLine = (u64, u8, u64, (u8, u16, u16));

// A number, as the stored cases have it.
fn class_number(class: Class) -> u8 {
    match class {
        Class::Walked => 0,
        Class::Closed => 1,
        Class::Ranked => 2,
    }
}

fn line_of(report: LoopReport) -> LoopLine {
    (
        report.offset,
        class_number(report.class),
        report.ceiling,
        stored(report.reason),
    )
}

fn line_in(line: &[u8; LINE]) -> LoopLine {
    (
        u64::from(unsigned16_at(line, 0)),
        line[2],
        u64::from(unsigned16_at(line, 3)),
        (line[5], unsigned16_at(line, 6), unsigned16_at(line, 8)),
    )
}

// Whether the plan's loops have just these lines.
fn same_lines(arrays: &PlanArrays, lines: &[u8]) -> bool {
    let (lines, rest) = lines.as_chunks::<LINE>();
    let reports = (0..MAX_RECORDS).filter_map(|number| report_of(arrays, number));
    rest.is_empty() && reports.map(line_of).eq(lines.iter().map(line_in))
}

// Where nothing follows the sheet, the parameters are 0, and only a refusal agrees.
pub(crate) fn plan_agrees(case: Case, sheet: &[u8], given: &[u8]) -> bool {
    let mut arrays = PlanArrays::blank();
    let answer = plan(sheet, parameters_in(given), &mut arrays);
    let lines = given.get(PARAMETERS..);
    case.has_answer(answer, case.value)
        && (answer.is_err() || lines.is_some_and(|lines| same_lines(&arrays, lines)))
}
