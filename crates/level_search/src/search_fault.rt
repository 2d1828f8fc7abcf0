//! Why there is no conflict number.

use events::Memory;
use thiserror::Error;

/// Why the conflict number was not found, or no verdict was made. The number of workers is tested first.
#[derive(Clone, Copy, Debug, PartialEq, Eq, Error)]
pub enum SearchFault {
    /// The number of workers is not 1 to 64.
    #[error("workers")]
    Workers,
    /// An allocation failed.
    #[error("memory")]
    Memory,
}

impl From<Memory> for SearchFault {
    ghost use Rattle.std.specs.Prelude.{◌≡◌};
    ghost use Rattle.level_search.specs.declared.search_fault.SearchFault.TheVariants as fault;

    ghost from_gives = { λ _ e. e ≡ fault.Memory };

    fn from(_error: Memory) -> SearchFault {
        SearchFault::Memory
    }
}
