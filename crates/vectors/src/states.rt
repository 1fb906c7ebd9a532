// Whether the stages of a sheet, one after another, return the states that are reckoned.
use cases::headers::Case;
use cases::numbers::{PARAMETERS, parameters_in};
use encoding::number::{unsigned16_at, unsigned32_at, unsigned64_at};
use form::Parameters;
use stages::stage;
use state::bounds::Bounds;
use state::sums::Sums;
use state::{State, first};

// How many bytes a state takes before its kept arms: the records passed, the visits, the innermost least and most, how many arms are kept.
const STATE: usize = 24;

// How many bytes a kept arm takes: its least and its most.
const ARM: usize = 16;

// The least and the most in sixteen bytes.
fn bounds_in(numbers: &[u8]) -> Bounds {
    Bounds {
        least: unsigned64_at(numbers, 0),
        most: unsigned64_at(numbers, 8),
    }
}

fn same_state(state: &State, line: &[u8; STATE]) -> bool {
    let sums = Sums {
        passed: bounds_in(&line[6..22]),
        visits: u64::from(unsigned32_at(line, 2)),
    };
    state.at == usize::from(unsigned16_at(line, 0))
        && state.sums == sums
        && state.opened.arms.kept() == usize::from(unsigned16_at(line, 22))
}

// What follows a state and its kept arms, in the order in which they were passed; nothing where the given numbers are others.
fn after_state<'a>(state: &State, given: &'a [u8]) -> Option<&'a [u8]> {
    let (line, given) = given.split_first_chunk::<STATE>()?;
    let arms = &state.opened.arms;
    let (stored, given) = given.split_at_checked(ARM * arms.kept())?;
    let (stored, _) = stored.as_chunks::<ARM>();
    let mut stored = stored.iter().enumerate();
    let same = stored.all(|(number, arm)| arms.at(number) == bounds_in(arm));
    (same && same_state(state, line)).then_some(given)
}

// What follows the states after so many stages.
fn after_stages<'a>(
    sheet: &[u8],
    parameters: Parameters,
    stages: usize,
    given: &'a [u8],
) -> Option<&'a [u8]> {
    let mut state = first();
    let mut given = given;
    for _ in 0..stages {
        state = stage(sheet, parameters, state);
        given = after_state(&state, given)?;
    }
    Some(given)
}

pub(crate) fn stages_agree(case: Case, sheet: &[u8], given: &[u8]) -> bool {
    let parameters = parameters_in(given);
    given
        .get(PARAMETERS..)
        .and_then(|states| after_stages(sheet, parameters, case.entries, states))
        .is_some_and(|rest| rest.is_empty())
}
