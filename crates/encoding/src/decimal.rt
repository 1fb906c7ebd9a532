// Numbers in decimal, put at a position of a buffer; the answer is the position after them. They stay written here, and so do the lines of texts, since
// std's `write!` into a slice promises nothing of the bytes in it, and the kit's `itoa` writes a number before an end, from where each would be moved.
ghost use Rattle.std.specs.Prelude.{◌≡◌, [], ◌∷◌, ◌+◌, ◌≤◌, ◌<◌, length};
ghost use Rattle.meaning.specs.Text.{digit, digits, decimal};
ghost use Rattle.encoding.specs.Append.{decimal_limit, Appended};

use crate::put::put_byte;

// The most digits of a number of 64 bits.
pub const MAX_DIGITS: usize = 20;

fn put_digit(buffer: &mut [u8], at: usize, n: u64) -> usize
    requires { (at < length buffer.old) × (n < 10) }
    ensures { Appended buffer.old at (digit n ∷ []) buffer.new result }
{
    put_byte(buffer, at, b'0' + n as u8)
}

// At most so many digits, the highest first.
fn put_digits(buffer: &mut [u8], at: usize, more: usize, n: u64) -> usize
    requires { at + more ≤ length buffer.old }
    ensures appended { Appended buffer.old at (digits more n) buffer.new result }
    ensures short { result ≤ at + more }
{
    if more == 0 {
        return at;
    }
    if n < 10 {
        return put_digit(buffer, at, n);
    }
    let last = put_digits(buffer, at, more - 1, n / 10);
    put_digit(buffer, last, n % 10)
}

pub fn put_decimal(buffer: &mut [u8], at: usize, n: u64) -> usize
    requires { at + decimal_limit ≤ length buffer.old }
    ensures appended { Appended buffer.old at (decimal n) buffer.new result }
    ensures short { (result ≡ at + length (decimal n)) × (result ≤ at + decimal_limit) }
{
    put_digits(buffer, at, MAX_DIGITS, n)
}
