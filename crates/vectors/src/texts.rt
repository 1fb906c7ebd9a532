// Whether the text call, and what a C call leaves in two buffers that it is lent, are as reckoned.
use cases::answers::{FILL, holds, left_after};
use cases::headers::Case;
use exports::pumdalin_text;
use text::TEXT_LENGTH;

// The longest area that is lent.
const AREA: usize = 32;

// Whether a C call returns the number and leaves what is stored: a text or a sheet and its length at the start of the two spaces, and every
// other byte as it was; a refusal leaves all of them.
pub(crate) fn lent_agrees<F: FnOnce(&mut [u8], &mut [u8]) -> u32>(
    case: Case,
    number: u8,
    stored: &[u8],
    call: F,
) -> bool
    requires { F.IsAlwaysCallable call }
{
    let mut space = [FILL; TEXT_LENGTH];
    let mut area = [FILL; AREA];
    let Some(buffer) = space.get_mut(..case.buffer) else {
        return false;
    };
    let Some(answer) = area.get_mut(..case.count) else {
        return false;
    };
    let returned = call(buffer, answer);
    let length = (stored.len() as u64).to_le_bytes();
    returned == u32::from(number)
        && holds(&space, left_after(returned, stored))
        && holds(&area, left_after(returned, &length))
}

pub(crate) fn text_agrees(case: Case, input: &[u8], text: &[u8]) -> bool {
    lent_agrees(case, case.number, text, |buffer, area| {
        pumdalin_text(input, buffer, area)
    })
}
