// One stage in place, on a plan's arrays: from the start of one visit to the start of the next, or to the sheet's end.
#![tactic(auto)]

mod evaluate;

ghost use Rattle.std.specs.Prelude.{◌≡◌};
ghost use Rattle.evaluator.specs.Machine.{next_on};

use crate::evaluate::evaluate_body;
use layout::PlanArrays;
use layout::rows::depth_at;
use records::MAX_RECORDS;
use state::State;

// Passes records, of a plan with so many, from where the state stands to the start of the next visit or to the sheet's end. No plan has more records
// than a sheet.
pub fn advance(arrays: &PlanArrays, count: usize, state: &mut State)
    ensures { next_on arrays.now.rows arrays.now.differences arrays.now.limits count state.old ≡ state.new }
{
    let records = count.min(MAX_RECORDS);
    let depth = depth_at(&arrays.rows, state.at);
    evaluate_body(arrays, records, records, depth, state);
}
