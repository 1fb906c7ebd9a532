// The arms kept of the open ranked loop.
ghost use Rattle.std.specs.Prelude.{◌≡◌, ◌≤◌};
ghost use Rattle.state.specs.Open.{kept_arms_limit};
ghost use Rattle.state.specs.Arms.{arm_count_in, arm_at, arm_kept, arms_dropped};

use crate::bounds::Bounds;
use crate::open::{Arms, MAX_KEPT_ARMS};

impl Arms {
    // How many arms are kept.
    #[tactic(auto, unfolding(crate::specs::Arms::arm_count_in))]
    pub fn kept(&self) -> usize
        ensures count { result ≡ arm_count_in self.now }
        ensures within { result ≤ kept_arms_limit }
    {
        self.count.min(MAX_KEPT_ARMS)
    }

    // One of them.
    #[tactic(auto, unfolding(crate::specs::Arms::arm_at))]
    pub fn at(&self, number: usize) -> Bounds
        ensures { result ≡ arm_at self.now number }
    {
        self.bounds[number % MAX_KEPT_ARMS]
    }

    // One more arm is kept, where there is room for it.
    #[tactic(auto, unfolding(crate::specs::Arms::arm_kept))]
    pub fn keep(&mut self, arm: Bounds)
        ensures { self.new ≡ arm_kept self.old arm }
    {
        let kept = self.kept();
        if kept < MAX_KEPT_ARMS {
            self.bounds[kept] = arm;
            self.count = kept + 1;
        }
    }

    // No arm is kept.
    pub fn clear(&mut self)
        ensures { self.new ≡ arms_dropped self.old }
    {
        let kept = self.kept();
        self.bounds[..kept].fill(Bounds::exactly(0));
        self.count = 0;
    }
}
