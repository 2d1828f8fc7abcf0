//! Why reading of a line stopped.

ghost use Rattle.std.specs.Prelude.{◌≡◌};
ghost use Rattle.format_words.specs.declared.stop.Stop.{Stop};

use events::Memory;
use std::alloc::{AllocError, AllocFailed};

/// The line says no such thing. What takes no memory stops for nothing else.
#[derive(Clone, Copy, Debug, PartialEq, Eq)]
pub struct Shape;

/// Why a line's reading stopped.
#[derive(Clone, Copy, Debug, PartialEq, Eq)]
pub enum Stop {
    /// The line says no such thing.
    Shape,
    /// An allocation failed.
    Memory,
}

impl From<Shape> for Stop {
    ghost from_gives = { λ _ stop. stop ≡ Stop.Shape };

    fn from(_unsaid: Shape) -> Stop {
        Stop::Shape
    }
}

impl From<AllocError> for Stop {
    ghost from_gives = { λ _ stop. stop ≡ Stop.Memory };

    fn from(_error: AllocError) -> Stop {
        Stop::Memory
    }
}

impl<T: Drop> From<AllocFailed<T>> for Stop {
    ghost from_gives = { λ _ stop. stop ≡ Stop.Memory };

    fn from(_error: AllocFailed<T>) -> Stop {
        Stop::Memory
    }
}

impl From<Memory> for Stop {
    ghost from_gives = { λ _ stop. stop ≡ Stop.Memory };

    fn from(_error: Memory) -> Stop {
        Stop::Memory
    }
}
