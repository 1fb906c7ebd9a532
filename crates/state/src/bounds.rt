// A least and a most, modulo 2^64.
ghost use Rattle.std.specs.Prelude.{◌≡◌};
ghost use Rattle.state.specs.Bounds.{bounds, plus, joined};

#[derive(Clone, Copy, PartialEq, Eq)]
pub struct Bounds {
    pub least: u64,
    pub most: u64,
}

impl Bounds {
    // Both are this number.
    pub fn exactly(cycles: u64) -> Bounds
        ensures { result ≡ bounds cycles cycles }
    {
        Bounds {
            least: cycles,
            most: cycles,
        }
    }

    // Both added.
    #[tactic(auto, unfolding(crate::specs::Bounds::wrapped_sum))]
    pub fn plus(self, other: Bounds) -> Bounds
        ensures { result ≡ plus self other }
    {
        Bounds {
            least: self.least.wrapping_add(other.least),
            most: self.most.wrapping_add(other.most),
        }
    }

    // The smaller least and the larger most.
    pub fn joined(self, other: Bounds) -> Bounds
        ensures { result ≡ joined self other }
    {
        Bounds {
            least: self.least.min(other.least),
            most: self.most.max(other.most),
        }
    }
}
