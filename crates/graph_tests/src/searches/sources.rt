//! Bounds of tests.
use level_search::BoundSource;

/// A bound that answers one value at first, and a lower one from then on.
#[derive(Drop)]
pub struct FallingBound {
    last: u32,
    then: u32,
    asked: bool,
}

impl FallingBound {
    pub fn new(first: u32, then: u32) -> FallingBound {
        FallingBound {
            last: first,
            then,
            asked: false,
        }
    }
}

impl BoundSource for FallingBound {
    ghost use Rattle.std.proofs.Common.{◌≡◌, refl, ◌∙◌};

    ghost last = { λ a. a.last };

    ghost reads = { λ a b. b.then ≡ a.then };

    ghost read_times = { λ a n b. b.then ≡ a.then };

    ghost reads_none = { λ a. refl };

    ghost reads_more = { λ a b c p q. q ∙ p };

    ghost times_none = { λ a. refl };

    ghost times_more = { λ a b c m n p q. q ∙ p };

    fn best(&mut self) -> u32 {
        if self.asked {
            self.last = self.last.min(self.then);
        }
        self.asked = true;
        self.last
    }
}
