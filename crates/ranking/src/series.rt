// The Newton series of one arm's sums, as words that compare as its coefficients do.
ghost use Rattle.std.specs.Prelude.{◌≡◌, ◌+◌, ◌%◌, ◌^◌, if◌then◌else◌, nat_lt, slice_index};
ghost use Rattle.ranking.specs.Series.{series_of};

use newton::differences;

// 2^63: added to signed words, it makes them compare as unsigned ones do.
const HALF: u64 = 0x8000_0000_0000_0000;

pub const ORDERS: usize = 4;

// The coefficients of order 0 to 3, each plus 2^63, modulo 2^64; 0 for an order that is not known.
#[derive(Clone, Copy)]
pub struct Series {
    pub words: [u64; ORDERS],
}

// The coefficient of an order, in two's complement, plus 2^63; 0 where fewer values are known.
fn rank_known(order: u64, count: u64, word: u64) -> u64
    ensures { result ≡ (if nat_lt order count then (word + 2 ^ 63) % 2 ^ 64 else 0) }
{
    if order < count {
        word.wrapping_add(HALF)
    } else {
        0
    }
}

// The series of the first `count` of four values.
pub fn series_of(count: u64, values: [u64; ORDERS]) -> Series
    ensures { result ≡ series_of count (slice_index values 0) (slice_index values 1) (slice_index values 2) (slice_index values 3) }
{
    let [value, first, second, third] = differences(values);
    Series {
        words: [
            rank_known(0, count, value),
            rank_known(1, count, first),
            rank_known(2, count, second),
            rank_known(3, count, third),
        ],
    }
}
