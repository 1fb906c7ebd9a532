// The answer over a range in an answer area that the caller lends.
ghost use Rattle.std.specs.Prelude.{◌≡◌};
ghost use Rattle.ranges.specs.RangeCall.{range_call};
ghost use Rattle.sweep.specs.Values.{range_of};
ghost use Rattle.exports.specs.Returned.{returned_of};

use crate::area::{RANGE_AREA_LENGTH, put_extremes};
use form::Parameters;
use sheet::refusal::RefusalKind;
use sweep::extremes::cycles_over_range;
use sweep::values::ParameterRange;

// What the library call over a range answers; 9 comes first.
pub(crate) fn store_extremes(
    sheet: &[u8],
    parameters: Parameters,
    budget: u32,
    range: ParameterRange,
    answer: &mut [u8],
) -> Result<(), RefusalKind>
    ensures number { returned_of result ≡ (range_call sheet.now parameters budget (range_of range) answer.old).number }
    ensures bytes { answer.new ≡ (range_call sheet.now parameters budget (range_of range) answer.old).area }
{
    if answer.len() < RANGE_AREA_LENGTH {
        return Err(RefusalKind::ShortBuffer);
    }
    let extremes = cycles_over_range(sheet, parameters, budget, range).map_err(
        |refusal| refusal.kind,
    )?;
    put_extremes(answer, extremes);
    Ok(())
}
