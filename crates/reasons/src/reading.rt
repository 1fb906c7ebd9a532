// The reason read back from a line: of the three whose numbers stand where their lines have them, the one that has this line.
ghost use Rattle.std.specs.Prelude.{◌≡◌, ◌+◌, ◌*◌, ◌-◌, ◌%◌, ◌≤◌};
ghost use Rattle.meaning.specs.Limits.{offset_limit};
ghost use Rattle.meaning.specs.ReasonLine.{reason_line, number_at, same_text, read_reason, ReadsBack};
ghost use Rattle.reasons.specs.View.{reason_in, found_in};

use crate::Reason;
use crate::line::{CHOICE, LOOP, REASON_LINE_LENGTH, put_reason_line, uneven_position};

// The number with one more digit, modulo the number of offsets: a larger one is in no reason.
fn with_digit(number: u16, digit: u8) -> u16
    requires { (48 ≤ digit) × (digit ≤ 57) }
    ensures { result ≡ (10 * number + (digit - 48)) % offset_limit }
{
    number
        .wrapping_mul(10)
        .wrapping_add(u16::from(digit - b'0'))
}

// The number of the digits from a position on.
fn number_at(line: &[u8], at: usize) -> u16
    ensures { result ≡ number_at at line.now }
{
    let mut number = 0;
    for &character in line.get(at..).unwrap_or(&[]) {
        if !character.is_ascii_digit() {
            break;
        }
        number = with_digit(number, character);
    }
    number
}

// Whether the reason has this line.
fn is_line(line: &[u8], reason: Reason) -> bool
    ensures { result ≡ same_text (reason_line (reason_in reason)) line.now }
{
    let mut buffer = [0; REASON_LINE_LENGTH];
    let length = put_reason_line(&mut buffer, 0, reason);
    &buffer[..length] == line
}

pub fn read_reason(line: &[u8]) -> Option<Reason>
    ensures found { found_in result ≡ read_reason line.now }
    ensures exact { ReadsBack line.now (found_in result) }
{
    let choice = Reason::HoldsLoop(number_at(line, CHOICE.len()));
    if is_line(line, choice) {
        return Some(choice);
    }
    let k = number_at(line, LOOP.len());
    let few = Reason::TooFewTrips(k);
    if is_line(line, few) {
        return Some(few);
    }
    let uneven = Reason::UnevenIn(k, number_at(line, uneven_position(k)));
    is_line(line, uneven).then_some(uneven)
}
