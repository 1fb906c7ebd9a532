// The figures over a range in two lent arrays, a place for each value; zeros after them, and where the range is refused.
ghost use Rattle.std.specs.Prelude.{◌≡◌, ◌-◌, ◌^◌, ◌<◌, max};
ghost use Rattle.meaning.specs.Limits.{value_limit};
ghost use Rattle.sheet.specs.Answers.{refusable};
ghost use Rattle.meaning.specs.Answer.{answer};
ghost use Rattle.ranges.specs.FiguresOver.{figures_over};
ghost use Rattle.ranges.specs.Extremes.{leasts_of, mosts_of};
ghost use Rattle.sweep.specs.Values.{range_of};
ghost use Rattle.sweep.specs.Overs.{blank, next_total, least_figure, most_figure, stored_at, visits_over, cycles_over};
ghost use Rattle.sweep.specs.Filled.{Begun, FilledTo, FilledOver};

use crate::values::{MAX_VALUES, ParameterRange, is_allowed, parameters_at, value_count};
use figures::{budget_allowed, cycles};
use form::Parameters;
use sheet::refusal::{Refusal, RefusalKind};

// The least or the most cycles at each value. Stays an array for each, since `figures_over` promises of each by itself what it holds (`leasts`, `mosts`).
pub type Cycles = [u64; MAX_VALUES];

// The budget that one value more gets: what is left, and 1 where nothing is, since the library call has no budget 0.
fn budget_left(budget: u32, total: u64) -> u32
    ensures { result ≡ max 1 (budget - total) }
{
    u64::from(budget).saturating_sub(total).max(1) as u32
}

// The visits with one value more, whose least and most are stored at its place. A value that takes more than its budget passes the whole one.
fn one_more(
    sheet: &[u8],
    parameters: Parameters,
    budget: u32,
    total: u64,
    k: usize,
    leasts: &mut Cycles,
    mosts: &mut Cycles,
) -> Result<u64, Refusal>
    requires { (k < value_limit) × (total < 2 ^ 32) }
    ensures visits { refusable result ≡ next_total budget total (answer sheet.now parameters (max 1 (budget - total))) }
    ensures leasts { leasts.new ≡ stored_at least_figure k leasts.old (answer sheet.now parameters (max 1 (budget - total))) }
    ensures mosts { mosts.new ≡ stored_at most_figure k mosts.old (answer sheet.now parameters (max 1 (budget - total))) }
{
    let over_budget = u64::from(budget) + 1;
    match cycles(sheet, parameters, budget_left(budget, total)) {
        Ok(figures) => {
            leasts[k] = figures.least;
            mosts[k] = figures.most;
            Ok(total + figures.visits)
        }
        Err(refusal) => match refusal.kind {
            RefusalKind::TooManyVisits => Ok(over_budget),
            _ => Err(refusal),
        },
    }
}

// Leasts and mosts at all values. It goes on where the visits have passed the budget: a later value may be refused 1 to 6.
fn fill(
    sheet: &[u8],
    parameters: Parameters,
    budget: u32,
    range: ParameterRange,
    leasts: &mut Cycles,
    mosts: &mut Cycles,
) -> Result<u64, Refusal>
    requires { Begun budget (range_of range) leasts.old mosts.old }
    ensures { FilledTo sheet.now parameters budget (range_of range) (refusable result) leasts.new mosts.new }
{
    let mut total = 0;
    for k in 0..value_count(range) {
        let at = parameters_at(parameters, range, k);
        total = one_more(sheet, at, budget, total, k as usize, leasts, mosts)?;
    }
    Ok(total)
}

// In the order 11, 7, then 1 to 6 of the first value that has one, then 8 for the sum of the visits.
// The sheet, the parameters, the budget and the range stay one by one here and inward, since a struct would be made only for these calls, and each of them would take it apart.
fn fill_range(
    sheet: &[u8],
    parameters: Parameters,
    budget: u32,
    range: ParameterRange,
    leasts: &mut Cycles,
    mosts: &mut Cycles,
) -> Result<u64, Refusal>
    requires { (leasts.old ≡ blank) × (mosts.old ≡ blank) }
    ensures { FilledOver (figures_over sheet.now parameters budget (range_of range)) (refusable result) leasts.new mosts.new }
{
    if !is_allowed(range) {
        return Err(Refusal {
            kind: RefusalKind::BadRange,
            offset: 0,
        });
    }
    if !budget_allowed(budget) {
        return Err(Refusal {
            kind: RefusalKind::BadBudget,
            offset: 0,
        });
    }
    let total = fill(sheet, parameters, budget, range, leasts, mosts)?;
    if u64::from(budget) < total {
        return Err(Refusal {
            kind: RefusalKind::TooManyVisits,
            offset: 0,
        });
    }
    Ok(total)
}

// The visits of all values, and the least and the most of each; the arrays hold zeros where the range is refused.
pub fn figures_over(
    sheet: &[u8],
    parameters: Parameters,
    budget: u32,
    range: ParameterRange,
    leasts: &mut Cycles,
    mosts: &mut Cycles,
) -> Result<u64, Refusal>
    ensures visits { refusable result ≡ visits_over (figures_over sheet.now parameters budget (range_of range)) }
    ensures leasts { leasts.new ≡ cycles_over leasts_of (figures_over sheet.now parameters budget (range_of range)) }
    ensures mosts { mosts.new ≡ cycles_over mosts_of (figures_over sheet.now parameters budget (range_of range)) }
{
    *leasts = [0; MAX_VALUES];
    *mosts = [0; MAX_VALUES];
    let over = fill_range(sheet, parameters, budget, range, leasts, mosts);
    if over.is_err() {
        *leasts = [0; MAX_VALUES];
        *mosts = [0; MAX_VALUES];
    }
    over
}
