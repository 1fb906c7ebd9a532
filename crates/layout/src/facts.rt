// Facts: what closing asks of each loop and what is said of it, four numbers a loop.
#![tactic(auto, unfolding(crate::specs::Loops::fact_in))]

ghost use Rattle.std.specs.Prelude.{◌≡◌};
ghost use Rattle.std.proofs.Math.Seq.{paste};
ghost use Rattle.layout.specs.Loops.{fact_width, fact_from, fact_numbers, ceiling_at, choice_depth_at, rank_depth_at, enough_at};

use crate::MAX_LOOPS;

// Of one loop: its ceiling; how many of the loops around it stand around the innermost choice around it, and how many of them the choices around it
// keep from being ranked; whether its smallest D is as large as closing a loop around it asks.
#[derive(Clone, Copy)]
pub struct Fact {
    pub ceiling: u16,
    pub choice: u16,
    pub rank: u16,
    pub enough: bool,
}

const FACT_WIDTH: usize = 4;

const CEILING: usize = 0;

const CHOICE_DEPTH: usize = 1;

const RANK_DEPTH: usize = 2;

const ENOUGH: usize = 3;

pub const FACT_NUMBERS: usize = MAX_LOOPS * FACT_WIDTH;

pub type Facts = [u16; FACT_NUMBERS];

// Where the numbers of a loop begin. Stays beside `difference_from` and `row_from`, since a call of one function with both constants is longer than this product.
fn fact_from(number: usize) -> usize
    ensures { result ≡ fact_from number }
{
    number % MAX_LOOPS * FACT_WIDTH
}

// Stores what is known of a loop.
#[tactic(auto, unfolding(crate::specs::Loops::fact_numbers))]
pub fn put_fact(facts: &mut Facts, number: usize, known: Fact)
    ensures { facts.new ≡ paste facts.old (fact_from number) (fact_numbers known) fact_width }
{
    let values = [
        known.ceiling,
        known.choice,
        known.rank,
        u16::from(known.enough),
    ];
    let from = fact_from(number);
    facts[from..from + FACT_WIDTH].copy_from_slice(&values);
}

pub fn ceiling_at(facts: &Facts, number: usize) -> u64
    ensures { result ≡ ceiling_at facts.now number }
{
    u64::from(facts[fact_from(number) + CEILING])
}

pub fn choice_depth_at(facts: &Facts, number: usize) -> usize
    ensures { result ≡ choice_depth_at facts.now number }
{
    usize::from(facts[fact_from(number) + CHOICE_DEPTH])
}

pub fn rank_depth_at(facts: &Facts, number: usize) -> usize
    ensures { result ≡ rank_depth_at facts.now number }
{
    usize::from(facts[fact_from(number) + RANK_DEPTH])
}

pub fn enough_at(facts: &Facts, number: usize) -> bool
    ensures { result ≡ enough_at facts.now number }
{
    facts[fact_from(number) + ENOUGH] != 0
}
