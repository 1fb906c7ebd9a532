// A text in a buffer that the caller lends, and its length in the answer area.
ghost use Rattle.std.specs.Prelude.{◌≡◌, ◌≤◌, length};
ghost use Rattle.meaning.specs.Limits.{length_size};
ghost use Rattle.meaning.specs.TextCall.{fit_text};
ghost use Rattle.meaning.specs.Lent.{store_lent};
ghost use Rattle.exports.specs.Returned.{returned_of};

use crate::area::put_length;
use encoding::put::put;
use sheet::refusal::RefusalKind;

// The text into the lent buffer and its length into the area, or 12.
pub(crate) fn store_text(
    text: &[u8],
    buffer: &mut [u8],
    answer: &mut [u8],
) -> Result<(), RefusalKind>
    requires { length_size ≤ length answer.old }
    ensures number { returned_of result ≡ (store_lent buffer.old answer.old (fit_text buffer.old text.now)).number }
    ensures text { buffer.new ≡
        (store_lent buffer.old answer.old (fit_text buffer.old text.now)).buffer }
    ensures area { answer.new ≡
        (store_lent buffer.old answer.old (fit_text buffer.old text.now)).area }
{
    if buffer.len() < text.len() {
        return Err(RefusalKind::ShortText);
    }
    put(buffer, 0, text);
    put_length(answer, text.len());
    Ok(())
}
