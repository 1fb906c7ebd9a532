// The layout of a plan: what one call works out of a sheet and the parameters, as arrays of numbers that are lent.
// Arrays may hold any numbers, and a record or a loop any number: remainders keep positions in the arrays, and change nothing in a plan.
#![tactic(auto)]

pub mod differences;
pub mod facts;
pub mod limits;
pub mod rows;

ghost use Rattle.std.specs.Prelude.{◌≡◌, ◌%◌, ◌^◌, replicate};
ghost use Rattle.layout.specs.Loops.{differences_length, facts_length, limits_length};
ghost use Rattle.layout.specs.Rows.{rows_length};

use crate::differences::{DIFFERENCE_WORDS, Differences};
use crate::facts::{FACT_NUMBERS, Facts};
use crate::limits::{LIMIT_NUMBERS, Limits};
use crate::rows::{ROW_NUMBERS, Rows};
use records::MAX_RECORDS;

// Each loop has an end, so that at most half of the records are loops.
pub const MAX_LOOPS: usize = MAX_RECORDS / 2;

// All that a plan holds. Stays arrays of packed numbers, since the clauses `rows`, `differences`, `facts` and `limits` of `planner::plan`, which docs/PROOFS.md
// lists, promise each of these numbers; and a call has no heap.
#[derive(Drop)]
pub struct PlanArrays {
    pub rows: Rows,
    pub differences: Differences,
    pub facts: Facts,
    pub limits: Limits,
}

impl PlanArrays {
    // Before any plan.
    #[inline]
    pub fn blank() -> PlanArrays
        ensures rows { result.rows ≡ replicate rows_length 0 }
        ensures differences { result.differences ≡ replicate differences_length 0 }
        ensures facts { result.facts ≡ replicate facts_length 0 }
        ensures limits { result.limits ≡ replicate limits_length 0 }
    {
        PlanArrays {
            rows: [0; ROW_NUMBERS],
            differences: [0; DIFFERENCE_WORDS],
            facts: [0; FACT_NUMBERS],
            limits: [0; LIMIT_NUMBERS],
        }
    }
}

// The last 16 bits, which are all that a number of a row or a limit has.
pub fn narrow(number: usize) -> u16
    ensures { result ≡ number % 2 ^ 16 }
{
    (number % 65536) as u16
}
