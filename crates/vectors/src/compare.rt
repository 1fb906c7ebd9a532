// Whether a case comes out as reckoned; the cases of the reader and the writer.
use crate::calls::calls_agree;
use crate::conversions::conversion_agrees;
use crate::entries::records_in;
use crate::lines::line_agrees;
use crate::plans::plan_agrees;
use crate::states::stages_agree;
use crate::texts::text_agrees;
use cases::answers::{FILL, holds};
use cases::calls::Call;
use cases::headers::Case;
use sheet::reader::read_sheet;
use sheet::refusal::Refusal;
use writer::write_sheet;

// The longest buffer that is lent to the writer or a converter.
const BUFFER: usize = 2048;

fn reader_agrees(case: Case, sheet: &[u8], entries: &[u8]) -> bool {
    let read = read_sheet(sheet);
    case.has_answer(read.answer, case.value) && read.records == records_in(entries)
}

// Whether the writer or a converter answers and leaves what is stored: the sheet at the start of the space and every other byte as it was; a
// refusal leaves all of them.
pub(crate) fn written_agrees<F: FnOnce(&mut [u8]) -> Result<usize, Refusal>>(
    case: Case,
    sheet: &[u8],
    write: F,
) -> bool
    requires { F.IsAlwaysCallable write }
{
    let mut space = [FILL; BUFFER];
    let Some(buffer) = space.get_mut(..case.buffer) else {
        return false;
    };
    let answer = write(buffer);
    let written = sheet.get(..answer.unwrap_or(0));
    case.has_answer(answer, case.value) && written.is_some_and(|bytes| holds(&space, bytes))
}

// A buffer that is longer than the space is not lent: a length of 0 stands for the answer, and nothing is written.
fn writer_agrees(case: Case, sheet: &[u8], entries: &[u8]) -> bool {
    if BUFFER < case.buffer {
        return case.has_answer(Ok(0), case.value);
    }
    written_agrees(case, sheet, |buffer| {
        write_sheet(records_in(entries), case.count, buffer)
    })
}

// Whether a case with this sheet, and these bytes after it, comes out as reckoned. Calls over a range have a program of their own.
pub(crate) fn agrees(case: Case, sheet: &[u8], own: &[u8]) -> bool {
    match case.call {
        Some(Call::Reader) => reader_agrees(case, sheet, own),
        Some(Call::Writer) => writer_agrees(case, sheet, own),
        Some(Call::Plan) => plan_agrees(case, sheet, own),
        Some(Call::Figures) => calls_agree(case, sheet, own),
        Some(Call::Stages) => stages_agree(case, sheet, own),
        Some(Call::Text) => text_agrees(case, sheet, own),
        Some(Call::ReasonLine) => line_agrees(case, sheet),
        Some(Call::Converter(conversion)) => conversion_agrees(case, conversion, sheet, own),
        Some(Call::Range) | None => false,
    }
}
