// The plan of a sheet at given parameters: its records' rows, and what the parameters make of its loops; refusals 1 to 6.
#![tactic(auto)]

mod closing;
pub mod reason;
pub mod report;

ghost use Rattle.std.specs.Prelude.{◌≡◌};
ghost use Rattle.layout.specs.Numbers.{stored_in};
ghost use Rattle.sheet.specs.Sheets.{records_of};
ghost use Rattle.loops.specs.Facts.{within_ceiling, words_stored, facts_stored, sheet_facts};
ghost use Rattle.nest.specs.Rows.{rows_stored};
ghost use Rattle.planner.specs.Plan.{plan_of, limits_in};
ghost use Rattle.sheet.specs.Answers.{refusable};
ghost use Rattle.planner.specs.Answers.{plan_count};

use crate::closing::put_limits;
use form::Parameters;
use layout::PlanArrays;
use loops::survey;
use nest::lay_rows;
use sheet::reader::check_sheet;
use sheet::refusal::{Refusal, RefusalKind};

// Stores the rows of the records that are read; of their loops, up to the first with too large a ceiling, what the parameters make of them; and
// the limits of a plan. What the arrays hold behind these stays. The count stays beside the arrays, since these are promised on a refusal too, where there is none.
pub fn plan(sheet: &[u8], parameters: Parameters, arrays: &mut PlanArrays) -> Result<usize, Refusal>
    ensures answer { refusable result ≡ plan_count (plan_of sheet.now parameters) }
    ensures rows { arrays.new.rows ≡ stored_in arrays.old.rows (rows_stored (records_of sheet.now)) }
    ensures differences { arrays.new.differences
        ≡ stored_in arrays.old.differences (words_stored (within_ceiling (sheet_facts parameters (records_of sheet.now)))) }
    ensures facts { arrays.new.facts
        ≡ stored_in arrays.old.facts (facts_stored (within_ceiling (sheet_facts parameters (records_of sheet.now)))) }
    ensures limits { arrays.new.limits ≡ stored_in arrays.old.limits (limits_in (plan_of sheet.now parameters)) }
{
    let count = check_sheet(sheet)?;
    lay_rows(sheet, count, &mut arrays.rows);
    if let Some(offset) = survey(sheet, count, parameters, arrays) {
        return Err(Refusal {
            kind: RefusalKind::OverCeiling,
            offset,
        });
    }
    put_limits(count, arrays);
    Ok(count)
}
