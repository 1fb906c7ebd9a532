// The lines of each loop of a sheet, in sheet order, from its plan.
ghost use Rattle.std.specs.Prelude.{◌+◌, ◌*◌, ◌≤◌, length};
ghost use Rattle.meaning.specs.Answer.{accepted};
ghost use Rattle.meaning.specs.Program.{loop_lines, reports_of};
ghost use Rattle.layout.specs.Loops.{loop_limit};
ghost use Rattle.encoding.specs.Append.{Appended};
ghost use Rattle.text.specs.Limits.{report_limit};
ghost use Rattle.text.specs.Reports.{plan_report, reports_before};

use crate::lines::put_report;
use form::Parameters;
use layout::PlanArrays;
use planner::plan;
use planner::report::report_of;

// The lines of the record with this number; none for a record that is no loop.
fn put_record_lines(arrays: &PlanArrays, number: usize, buffer: &mut [u8], at: usize) -> usize
    requires { at + report_limit * length (plan_report arrays.now number) ≤ length buffer.old }
    ensures appended { Appended buffer.old at (loop_lines (plan_report arrays.now number)) buffer.new result }
    ensures short { result ≤ at + report_limit * length (plan_report arrays.now number) }
{
    match report_of(arrays, number) {
        Some(report) => put_report(buffer, at, report),
        None => at,
    }
}

fn put_loop_lines(arrays: &PlanArrays, count: usize, buffer: &mut [u8], start: usize) -> usize
    requires { start + report_limit * length (reports_before arrays.now count) ≤ length buffer.old }
    ensures { Appended buffer.old start (loop_lines (reports_before arrays.now count)) buffer.new result }
{
    let mut at = start;
    for number in 0..count {
        at = put_record_lines(arrays, number, buffer, at);
    }
    at
}

// The lines of a sheet that is not refused 1 to 6; none of another.
pub(crate) fn put_loops(sheet: &[u8], parameters: Parameters, buffer: &mut [u8], at: usize) -> usize
    requires { at + report_limit * loop_limit ≤ length buffer.old }
    ensures { Appended buffer.old at (loop_lines (reports_of parameters (accepted sheet.now parameters))) buffer.new result }
{
    let mut arrays = PlanArrays::blank();
    match plan(sheet, parameters, &mut arrays) {
        Ok(count) => put_loop_lines(&arrays, count, buffer, at),
        Err(_) => at,
    }
}
