// Whether the converters, those of the library and those for C, do as reckoned.
use crate::compare::written_agrees;
use crate::texts::lent_agrees;
use cases::calls::Conversion;
use cases::headers::Case;
use converter::{with_skips, without_skips};
use encoding::number::byte_at;
use exports::{pumdalin_with_skips, pumdalin_without_skips};

fn library_agrees(case: Case, conversion: Conversion, sheet: &[u8], new_sheet: &[u8]) -> bool {
    written_agrees(case, new_sheet, |buffer| match conversion {
        Conversion::WithSkips => with_skips(sheet, buffer),
        Conversion::WithoutSkips => without_skips(sheet, buffer),
    })
}

fn c_agrees(
    case: Case,
    conversion: Conversion,
    sheet: &[u8],
    number: u8,
    new_sheet: &[u8],
) -> bool {
    lent_agrees(case, number, new_sheet, |buffer, area| match conversion {
        Conversion::WithSkips => pumdalin_with_skips(sheet, buffer, area),
        Conversion::WithoutSkips => pumdalin_without_skips(sheet, buffer, area),
    })
}

// After the sheet stand the number that the C call returns, since its area may be too short, and the new sheet; where nothing follows, they are 0 and
// empty.
pub(crate) fn conversion_agrees(
    case: Case,
    conversion: Conversion,
    sheet: &[u8],
    own: &[u8],
) -> bool {
    let number = byte_at(own, 0);
    let new_sheet = own.get(1..).unwrap_or(&[]);
    library_agrees(case, conversion, sheet, new_sheet)
        && c_agrees(case, conversion, sheet, number, new_sheet)
}
