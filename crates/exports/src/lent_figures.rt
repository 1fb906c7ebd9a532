// The figures in an answer area that the caller lends.
ghost use Rattle.std.specs.Prelude.{◌≡◌};
ghost use Rattle.meaning.specs.CCall.{c_call};
ghost use Rattle.exports.specs.Returned.{returned_of};

use crate::area::{AREA_LENGTH, put_figures};
use figures::cycles;
use form::Parameters;
use sheet::refusal::RefusalKind;

// What the library call answers; 9 comes first.
pub(crate) fn store_figures(
    sheet: &[u8],
    parameters: Parameters,
    budget: u32,
    answer: &mut [u8],
) -> Result<(), RefusalKind>
    ensures number { returned_of result ≡ (c_call sheet.now parameters budget answer.old).number }
    ensures bytes { answer.new ≡ (c_call sheet.now parameters budget answer.old).area }
{
    if answer.len() < AREA_LENGTH {
        return Err(RefusalKind::ShortBuffer);
    }
    let figures = cycles(sheet, parameters, budget).map_err(|refusal| refusal.kind)?;
    put_figures(answer, figures);
    Ok(())
}
