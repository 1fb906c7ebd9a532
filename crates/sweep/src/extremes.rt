// The smallest least and the largest most over a range (document 02, C-14).
ghost use Rattle.std.specs.Prelude.{◌≡◌, ℕ, Bool, ◌<◌, ◌≤◌, length, slice_index};
ghost use Rattle.std.specs.Cmp.{IsStrictWeakOrder};
ghost use Rattle.std.specs.List.{IsFirstBest};
ghost use Rattle.meaning.specs.Limits.{value_limit};
ghost use Rattle.ranges.specs.ParameterRange.{value_count, value_at};
ghost use Rattle.ranges.specs.Extremes.{extremes_in, extremes};
ghost use Rattle.ranges.specs.RangePromise.{RangeAnswered};
ghost use Rattle.sweep.specs.Values.{range_of};
ghost use Rattle.sweep.specs.Tests.{Tests};
ghost use Rattle.sweep.specs.Ranges.{extremes_is, range_result};

use crate::over::{Cycles, figures_over};
use crate::values::{MAX_VALUES, ParameterRange, value_at, value_count};
use form::Parameters;
use sheet::refusal::Refusal;

// Cycles, with the smallest value that gives them.
#[derive(Clone, Copy, PartialEq, Eq)]
pub struct Extreme {
    pub cycles: u64,
    pub value: i16,
}

#[derive(Clone, Copy, PartialEq, Eq)]
pub struct Extremes {
    pub least: Extreme,
    pub most: Extreme,
    pub visits: u64,
}

// Where the number stands first that no other beats. Stays a loop, since std's `max_by` answers the last of equal ones.
fn first_best<F: Fn(u64, u64) -> bool>(numbers: &[u64], beats: F) -> usize
    requires callable { F.IsAlwaysCallable beats }
    requires some { 0 < length numbers.now }
    ensures { (test : ℕ → ℕ → Bool) → IsStrictWeakOrder test → Tests (F.post beats) test →
        IsFirstBest test numbers.now (length numbers.now) result }
{
    let mut best = 0;
    for k in 1..numbers.len() {
        if beats(numbers[k], numbers[best]) {
            best = k;
        }
    }
    best
}

// The cycles at a place, and the value there.
fn extreme_at(cycles: &[u64], range: ParameterRange, place: usize) -> Extreme
    requires inside { (place < length cycles.now) × (length cycles.now ≡ value_count (range_of range)) }
    requires few { value_count (range_of range) ≤ value_limit }
    ensures cycles { result.cycles ≡ slice_index cycles.now place }
    ensures value { result.value ≡ value_at (range_of range) place }
{
    Extreme {
        cycles: cycles[place],
        value: value_at(range, place as u32),
    }
}

// From the leasts and the mosts at the values of the range.
fn extremes_in(leasts: &[u64], mosts: &[u64], range: ParameterRange, visits: u64) -> Extremes
    requires some { 0 < value_count (range_of range) }
    requires counted { (length leasts.now ≡ value_count (range_of range)) × (length mosts.now ≡ value_count (range_of range)) }
    requires few { value_count (range_of range) ≤ value_limit }
    ensures { extremes_is result ≡ extremes_in (range_of range) leasts.now mosts.now visits }
{
    Extremes {
        least: extreme_at(leasts, range, first_best(leasts, |a, b| a < b)),
        most: extreme_at(mosts, range, first_best(mosts, |a, b| b < a)),
        visits,
    }
}

// The library call over a range.
pub fn cycles_over_range(
    sheet: &[u8],
    parameters: Parameters,
    budget: u32,
    range: ParameterRange,
) -> Result<Extremes, Refusal>
    ensures answers { range_result result ≡ extremes sheet.now parameters budget (range_of range) }
    ensures promise { RangeAnswered sheet.now parameters budget (range_of range) (range_result result) }
{
    let mut leasts: Cycles = [0; MAX_VALUES];
    let mut mosts: Cycles = [0; MAX_VALUES];
    let visits = figures_over(sheet, parameters, budget, range, &mut leasts, &mut mosts)?;
    let count = value_count(range) as usize;
    Ok(extremes_in(&leasts[..count], &mosts[..count], range, visits))
}
