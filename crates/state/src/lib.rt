// The state of a stage, and the small steps that change it. What a remainder or a minimum cuts off stands in no state that a stage reaches.
#![tactic(auto)]

pub mod arms;
pub mod bounds;
pub mod frames;
pub mod kept;
pub mod open;
pub mod sums;

ghost use Rattle.std.specs.Prelude.{◌≡◌};
ghost use Rattle.state.specs.States.{first_state};

use crate::bounds::Bounds;
use crate::open::Open;
use crate::sums::Sums;

// Where it stands (the number of a record), its sums, and what is open.
#[derive(Clone, Copy)]
pub struct State {
    pub at: usize,
    pub sums: Sums,
    pub opened: Open,
}

// The first state stands at the sheet's start with sums and visits 0.
#[tactic(auto, unfolding(crate::specs::States::first_state, crate::specs::States::blank_state))]
pub fn first() -> State
    ensures { result ≡ first_state }
{
    State {
        at: 0,
        sums: Sums {
            passed: Bounds::exactly(0),
            visits: 0,
        },
        opened: Open::nothing(),
    }
}
