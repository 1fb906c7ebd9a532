// A reason's line, put at a position of a buffer; the answer is the position after it.
ghost use Rattle.std.specs.Prelude.{◌≡◌, ◌++◌, ◌+◌, ◌≤◌, length, drop};
ghost use Rattle.std.proofs.Math.Option.{some};
ghost use Rattle.meaning.specs.Text.{decimal};
ghost use Rattle.meaning.specs.ReasonLine.{uneven_line_start, reason_line, read_reason, OffsetsBelow};
ghost use Rattle.encoding.specs.Append.{decimal_limit, Appended};
ghost use Rattle.reasons.specs.Limits.{uneven_start_limit, reason_line_limit};
ghost use Rattle.reasons.specs.View.{reason_in};

use crate::Reason;
use encoding::decimal::{MAX_DIGITS, put_decimal};
use encoding::put::put;

// The words of the longest line, that of an uneven loop, and the longest numbers.
pub const REASON_LINE_LENGTH: usize = 25 + 2 * MAX_DIGITS;

// The fixed phrases of document 02; those that end a line have its line feed.
pub(crate) const CHOICE: [u8; 7] = *b"choice ";

pub(crate) const LOOP: [u8; 5] = *b"loop ";

const HOLDS_LOOP: [u8; 14] = *b" holds a loop\n";

const TOO_FEW_TRIPS: [u8; 25] = *b" may fall below no trips\n";

const UNEVEN_IN: [u8; 19] = *b" is uneven in loop ";

const LINE_FEED: [u8; 1] = *b"\n";

// A phrase, and an offset after it.
fn put_numbered(buffer: &mut [u8], at: usize, phrase: &[u8], offset: u16) -> usize
    requires { at + length phrase.now + decimal_limit ≤ length buffer.old }
    ensures appended { Appended buffer.old at (phrase.now ++ decimal offset) buffer.new result }
    ensures short { result ≤ at + length phrase.now + decimal_limit }
{
    let at = put(buffer, at, phrase);
    put_decimal(buffer, at, u64::from(offset))
}

// The line of an uneven loop, up to the offset of loop M.
fn put_uneven_start(buffer: &mut [u8], at: usize, k: u16) -> usize
    requires { at + uneven_start_limit ≤ length buffer.old }
    ensures appended { Appended buffer.old at (uneven_line_start k) buffer.new result }
    ensures short { result ≤ at + uneven_start_limit }
{
    let at = put_numbered(buffer, at, &LOOP, k);
    put(buffer, at, &UNEVEN_IN)
}

pub fn put_reason_line(buffer: &mut [u8], at: usize, reason: Reason) -> usize
    requires { at + reason_line_limit ≤ length buffer.old }
    ensures appended { Appended buffer.old at (reason_line (reason_in reason)) buffer.new result }
    ensures short { (result ≡ at + length (reason_line (reason_in reason))) × (result ≤ at + reason_line_limit) }
{
    match reason {
        Reason::HoldsLoop(c) => {
            let at = put_numbered(buffer, at, &CHOICE, c);
            put(buffer, at, &HOLDS_LOOP)
        }
        Reason::TooFewTrips(k) => {
            let at = put_numbered(buffer, at, &LOOP, k);
            put(buffer, at, &TOO_FEW_TRIPS)
        }
        Reason::UnevenIn(k, m) => {
            let at = put_uneven_start(buffer, at, k);
            let at = put_decimal(buffer, at, u64::from(m));
            put(buffer, at, &LINE_FEED)
        }
    }
}

// Stores the line at the buffer's start and answers its length; the bytes after it stay. No other reason has this line.
pub fn reason_line(reason: Reason, buffer: &mut [u8; REASON_LINE_LENGTH]) -> usize
    ensures length { result ≡ length (reason_line (reason_in reason)) }
    ensures bytes { buffer.new ≡ reason_line (reason_in reason) ++ drop (length (reason_line (reason_in reason))) buffer.old }
    ensures fits { (result ≤ reason_line_limit) × (length buffer.new ≡ reason_line_limit) }
    ensures reads { read_reason (reason_line (reason_in reason)) ≡ some (reason_in reason) }
    ensures only { (other : Reason) → OffsetsBelow (reason_in other) → reason_line (reason_in other) ≡ reason_line (reason_in reason) → reason_in other ≡ reason_in reason }
{
    put_reason_line(buffer, 0, reason)
}

// Where loop M's offset stands in the line of an uneven loop K.
pub(crate) fn uneven_position(k: u16) -> usize
    ensures { result ≡ length (uneven_line_start k) }
{
    let mut start = [0; REASON_LINE_LENGTH];
    put_uneven_start(&mut start, 0, k)
}
