//! The steps of a cycle.

use super::fixed_list::FixedList;
use events::{Name, OpName};
use std::marker::Model;

/// A step of a cycle: one element, the next, and an operation whose response shows the one before the
/// other.
#[derive(Clone, Copy, Debug, PartialEq, Eq)]
pub struct Step {
    /// The element that is shown first.
    pub from: Name,
    /// The element that is shown after it.
    pub to: Name,
    /// An operation that shows them so.
    pub shown: OpName,
}

impl Model for Step {
    ghost use Rattle.specification.specs.Conflict as conflicts;

    ghost Value = { conflicts.Step };

    ghost view = { λ s. record { from = s.from; to = s.to; shown = s.shown } };

    ghost inverse = { λ v. record { from = v.from; to = v.to; shown = v.shown } };
}

/// The steps of a cycle, round it from its first element: as many as it has elements.
pub type Steps = FixedList<Step>;
