// The stage of document 01: from the sheet, the parameters and a state by value to the next state.
#![tactic(auto)]

ghost use Rattle.std.specs.Prelude.{◌≡◌, List};
ghost use Rattle.meaning.specs.Record.{Record};
ghost use Rattle.meaning.specs.Reader.{ok};
ghost use Rattle.meaning.specs.Answer.{accepted};
ghost use Rattle.stages.specs.Next.{next_state};
ghost use Rattle.stages.specs.Laws.{StageLaws};

use evaluator::advance;
use form::Parameters;
use layout::PlanArrays;
use planner::plan;
use state::State;

// One stage, which is `advance` on a copy of the state; where the sheet is refused 1 to 6 the state stays as it is.
pub fn stage(sheet: &[u8], parameters: Parameters, mut s: State) -> State
    ensures next { result ≡ next_state sheet.now parameters s }
    ensures laws { (rs : List Record) → accepted sheet.now parameters ≡ ok rs → StageLaws sheet.now parameters rs }
{
    let mut arrays = PlanArrays::blank();
    if let Ok(count) = plan(sheet, parameters, &mut arrays) {
        advance(&arrays, count, &mut s);
    }
    s
}
