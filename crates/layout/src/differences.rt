// Differences: of each loop the size of its stride, its D where every counter is 0, and what a trip of each loop around it adds to D, in two's complement.
#![tactic(auto, unfolding(crate::specs::Loops::word_in))]

ghost use Rattle.std.specs.Prelude.{◌≡◌, ◌<◌};
ghost use Rattle.std.proofs.Math.Seq.{paste};
ghost use Rattle.layout.specs.Loops.{difference_width, difference_from, stride_at, base_at, push_word_at};
ghost use Rattle.meaning.specs.Limits.{index_factors};

use crate::MAX_LOOPS;
use form::packed::INDEX_FACTORS;

// 2^63: from here on a word stands for a negative number.
pub const NEGATIVE: u64 = 0x8000_0000_0000_0000;

const STRIDE: usize = 0;

const BASE: usize = 1;

// From here on, one for each loop that can stand around.
const PUSHES: usize = 2;

pub const DIFFERENCE_WIDTH: usize = PUSHES + INDEX_FACTORS;

pub const DIFFERENCE_WORDS: usize = MAX_LOOPS * DIFFERENCE_WIDTH;

pub type Differences = [u64; DIFFERENCE_WORDS];

// Where the words of a loop begin. Stays beside `fact_from` and `row_from`, since a call of one function with both constants is longer than this product.
fn difference_from(number: usize) -> usize
    ensures { result ≡ difference_from number }
{
    number % MAX_LOOPS * DIFFERENCE_WIDTH
}

// Stores the words of a loop.
pub fn put_difference(differences: &mut Differences, number: usize, words: [u64; DIFFERENCE_WIDTH])
    ensures { differences.new ≡ paste differences.old (difference_from number) words difference_width }
{
    let from = difference_from(number);
    differences[from..from + DIFFERENCE_WIDTH].copy_from_slice(&words);
}

// The stride's size.
pub fn stride_at(differences: &Differences, number: usize) -> u64
    ensures { result ≡ stride_at differences.now number }
{
    differences[difference_from(number) + STRIDE]
}

// D where every counter is 0.
pub fn base_at(differences: &Differences, number: usize) -> u64
    ensures { result ≡ base_at differences.now number }
{
    differences[difference_from(number) + BASE]
}

// What a trip of the loop that has m loops around it adds to D.
pub fn push_at(differences: &Differences, number: usize, m: usize) -> u64
    requires { m < index_factors }
    ensures { result ≡ push_word_at differences.now number m }
{
    differences[difference_from(number) + PUSHES + m]
}
