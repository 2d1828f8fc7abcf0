//! The bound of a single thread.

ghost use Rattle.std.specs.Prelude.{◌≡◌};

use super::bound_source::BoundSource;

/// The least length so far, of one thread.
#[derive(Drop)]
pub struct PlainBound {
    pub least: u32,
}

impl BoundSource for PlainBound {
    ghost use Rattle.std.proofs.Common.{refl, ◌∙◌};

    ghost last = { λ a. a.least };

    ghost reads = { λ a b. b.least ≡ a.least };

    ghost read_times = { λ a n b. b.least ≡ a.least };

    ghost reads_none = { λ a. refl };

    ghost reads_more = { λ a b c p q. q ∙ p };

    ghost times_none = { λ a. refl };

    ghost times_more = { λ a b c m n p q. q ∙ p };

    fn best(&mut self) -> u32 {
        self.least
    }
}
