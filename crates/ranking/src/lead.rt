// The comparison arm after arm: the largest coefficient of each order so far, and whether one arm has them all.
ghost use Rattle.std.specs.Prelude.{◌≡◌};
ghost use Rattle.ranking.specs.Lead.{at_least, joined_series, turned_series, first_lead, attained_with, next_lead};

use crate::series::{ORDERS, Series};
use std::array::from_fn;

#[derive(Clone, Copy)]
pub struct Lead {
    pub largest: Series,
    pub attained: bool,
}

// Whether no coefficient of s is below that of t.
#[tactic(auto, unfolding(crate::specs::Lead::at_least))]
fn at_least(s: Series, t: Series) -> bool
    ensures { result ≡ at_least s t }
{
    (0..ORDERS).all(|order| t.words[order] <= s.words[order])
}

// The larger coefficient of each order.
#[tactic(auto, unfolding(crate::specs::Lead::joined_series))]
fn joined(s: Series, t: Series) -> Series
    ensures { result ≡ joined_series s t }
{
    Series {
        words: from_fn(|order| s.words[order].max(t.words[order])),
    }
}

// Words that compare the other way round.
#[tactic(auto, unfolding(crate::specs::Lead::turned_series))]
pub fn turned(s: Series) -> Series
    ensures { result ≡ turned_series s }
{
    Series {
        words: from_fn(|order| u64::MAX - s.words[order]),
    }
}

// After the first arm.
#[tactic(auto, unfolding(crate::specs::Lead::first_lead))]
pub fn first_lead(s: Series) -> Lead
    ensures { result ≡ first_lead s }
{
    Lead {
        largest: s,
        attained: true,
    }
}

fn attained_with(largest: Series, attained: bool, s: Series) -> bool
    ensures { result ≡ attained_with largest attained s }
{
    at_least(s, largest) || attained && at_least(largest, s)
}

// With one arm more.
#[tactic(auto, unfolding(crate::specs::Lead::next_lead))]
pub fn next_lead(lead: Lead, s: Series) -> Lead
    ensures { result ≡ next_lead lead s }
{
    let largest = lead.largest;
    Lead {
        largest: joined(largest, s),
        attained: attained_with(largest, lead.attained, s),
    }
}
