// Limits: how many trips each loop visits at most where the rest may be summed, with a mark where the loop is ranked; 0 where it is walked. The largest
// of these numbers stands before them: where no loop is ranked, one look at it says so.
#![tactic(auto, unfolding(crate::specs::Loops::limit_number, crate::specs::Loops::some_ranked, crate::specs::Loops::limit_at, crate::specs::Loops::ranked_at))]

ghost use Rattle.std.specs.Prelude.{◌≡◌, [], ◌∷◌, max, get_or};
ghost use Rattle.std.proofs.Math.Seq.{paste};
ghost use Rattle.layout.specs.Loops.{limit_from, limit_number, some_ranked, limit_at, ranked_at};

use crate::{MAX_LOOPS, narrow};

pub const LIMIT_NUMBERS: usize = 1 + MAX_LOOPS;

pub type Limits = [u16; LIMIT_NUMBERS];

const LARGEST: usize = 0;

// Added to the limit of a ranked loop; above every limit.
const RANKED_MARK: u16 = 8;

// The number that is stored of a loop with this limit. Stays a number with a mark, and 0 of a walked loop, in `limit_at` and `ranked_at` too, since
// the clause `limits` of `planner::plan` promises each number, and docs/landings/C-18.md the contracts of `limit_number` and `ranked_at`.
pub fn limit_number(limit: usize, ranked: bool) -> u16
    ensures { result ≡ limit_number ranked limit }
{
    let number = narrow(limit) % RANKED_MARK;
    if ranked { number + RANKED_MARK } else { number }
}

// No loop yet: the largest number is 0.
pub fn begin_limits(limits: &mut Limits)
    ensures { limits.new ≡ paste limits.old 0 (0 ∷ []) 1 }
{
    limits[LARGEST] = 0;
}

// Stores what `limit_number` says of the loop with this number; the first number stays the largest.
pub fn put_limit(limits: &mut Limits, number: usize, limit: u16)
    ensures { limits.new
        ≡ paste (paste limits.old (limit_from number) (limit ∷ []) 1) 0 (max (get_or limits.old 0 0) limit ∷ []) 1 }
{
    let largest = limits[LARGEST].max(limit);
    limits[limit_from(number)] = limit;
    limits[LARGEST] = largest;
}

// Where the number of a loop is.
fn limit_from(number: usize) -> usize
    ensures { result ≡ limit_from number }
{
    1 + number % MAX_LOOPS
}

// Whether any loop is ranked.
pub fn some_ranked(limits: &Limits) -> bool
    ensures { result ≡ some_ranked limits.now }
{
    limits[LARGEST] >= RANKED_MARK
}

pub fn limit_at(limits: &Limits, number: usize) -> u64
    ensures { result ≡ limit_at limits.now number }
{
    u64::from(limits[limit_from(number)] % RANKED_MARK)
}

pub fn ranked_at(limits: &Limits, number: usize) -> bool
    ensures { result ≡ ranked_at limits.now number }
{
    some_ranked(limits) && limits[limit_from(number)] >= RANKED_MARK
}
