// The stage, repeated in place until the sheet's end or until the visits pass the budget.
ghost use Rattle.std.specs.Prelude.{◌≡◌};
ghost use Rattle.meaning.specs.Answer.{check_visits};
ghost use Rattle.figures.specs.Answers.{answer_result};
ghost use Rattle.figures.specs.Repeat.{Planned, Reached, figures_at};

use crate::Figures;
use evaluator::advance;
use layout::PlanArrays;
use sheet::refusal::{Refusal, RefusalKind};
use state::first;
use state::sums::Sums;

// From the first state; answers the sums of the last one.
pub(crate) fn repeat_stages(arrays: &PlanArrays, count: usize, budget: u32) -> Sums
    requires { Planned arrays.now count }
    ensures { Reached arrays.now count budget result }
{
    let mut state = first();
    while state.at != count && state.sums.visits <= u64::from(budget) {
        advance(arrays, count, &mut state);
    }
    state.sums
}

// The figures in sums, or refusal 8 where their visits are more than the budget.
pub(crate) fn figures_of(sums: Sums, budget: u32) -> Result<Figures, Refusal>
    ensures { answer_result result ≡ check_visits budget (figures_at sums) }
{
    if u64::from(budget) < sums.visits {
        return Err(Refusal {
            kind: RefusalKind::TooManyVisits,
            offset: 0,
        });
    }
    Ok(Figures {
        least: sums.passed.least,
        most: sums.passed.most,
        visits: sums.visits,
    })
}
