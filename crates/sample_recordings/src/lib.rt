//! Sample recordings, for the tests of the crates above: worked ones as texts, and generated ones.
//!
//! Only `check_sound` and `Random::below` have a contract. What the other calls make, no clause says.
//!
//! A call that finds no memory is made once more, so tests with these hold too where one request is refused.
#![tactic(auto)]

mod entries;
mod growing;
mod random;
mod reading;
mod soundness;
mod standing;
mod texts;
mod views;

pub use entries::{add, place_of, push};
pub use growing::{MOST_ELEMENTS, generated, mostly_ordered};
pub use random::Random;
pub use reading::recording;
pub use soundness::check_sound;
pub use standing::stands_before;
pub use texts::{
    EMPTY, OPPOSITE_PAIR, PAST_A_NEIGHBOUR, READ_THE_OTHER_WAY, RING_OF_FOUR, THREE_WAY_CYCLE,
};
pub use views::views_of;
