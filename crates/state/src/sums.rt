// What was passed in the innermost open trip or arm, or else in the sheet, and the visits.
ghost use Rattle.std.specs.Prelude.{◌≡◌};
ghost use Rattle.state.specs.Sums.{added, from_zero, visit_begins};

use crate::bounds::Bounds;

#[derive(Clone, Copy, PartialEq, Eq)]
pub struct Sums {
    pub passed: Bounds,
    pub visits: u64,
}

impl Sums {
    // A least and a most are added.
    #[tactic(auto, unfolding(crate::specs::Sums::added))]
    pub fn add(&mut self, more: Bounds)
        ensures { self.new ≡ added self.old more }
    {
        self.passed = self.passed.plus(more);
    }

    // A trip or an arm opens with sums 0.
    #[tactic(auto, unfolding(crate::specs::Sums::from_zero))]
    pub fn reset(&mut self)
        ensures { self.new ≡ from_zero self.old }
    {
        self.passed = Bounds::exactly(0);
    }

    // The same, and a visit begins.
    #[tactic(auto, unfolding(crate::specs::Sums::from_zero, crate::specs::Sums::visit_begins, crate::specs::Bounds::wrapped_sum))]
    pub fn begin_visit(&mut self)
        ensures { self.new ≡ visit_begins self.old }
    {
        self.reset();
        self.visits = self.visits.wrapping_add(1);
    }
}
