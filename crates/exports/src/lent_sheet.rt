// A converted sheet in a buffer that the caller lends, and its length in the answer area.
ghost use Rattle.std.specs.Prelude.{◌≡◌};
ghost use Rattle.meaning.specs.ConverterCall.{convert_call};
ghost use Rattle.converter.specs.Converting.{new_records};
ghost use Rattle.exports.specs.Returned.{returned_of};

use crate::area::{LENGTH_SIZE, put_length};
use converter::{Sheet, convert};
use encoding::put::put;
use records::MAX_SHEET_LENGTH;
use sheet::refusal::RefusalKind;

// The sheet with a skip in every loop, or in none, and its length. Refusals 1 to 5 and 10 come first, then 9; nothing is written before.
pub(crate) fn store_sheet(
    sheet: &[u8],
    skips: bool,
    buffer: &mut [u8],
    answer: &mut [u8],
) -> Result<(), RefusalKind>
    ensures number { returned_of result ≡ (convert_call (new_records skips sheet.now) buffer.old answer.old).number }
    ensures sheet { buffer.new ≡
        (convert_call (new_records skips sheet.now) buffer.old answer.old).buffer }
    ensures area { answer.new ≡
        (convert_call (new_records skips sheet.now) buffer.old answer.old).area }
{
    let mut target: Sheet = [0; MAX_SHEET_LENGTH];
    let room = answer.len();
    let length = convert(sheet, skips, &mut target).map_err(|refusal| refusal.kind)?;
    if room < LENGTH_SIZE || buffer.len() < length {
        return Err(RefusalKind::ShortBuffer);
    }
    put(buffer, 0, &target[..length]);
    put_length(answer, length);
    Ok(())
}
