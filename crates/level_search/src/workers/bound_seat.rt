//! A worker's seat at the shared bound.

ghost use Rattle.std.specs.Prelude.{◌≡◌, ◌<◌, ◌≤◌, min, true, [], ◌∷◌, ◌++◌, IfSome, IfNone, All};

use list_search::BoundSource;
use shared_bound::{Bound, NO_OFFER, Seat};
use std::marker::Model;

/// The bound that all workers share, and one worker's seat, through which it is read. Contracts see the
/// seat.
#[derive(Drop)]
pub struct BoundSeat<'a> {
    bound: &'a Bound,
    seat: Seat,
}

impl<'a> Model for BoundSeat<'a> {
    ghost use Rattle.std.specs.Prelude.{◌≡◌};
    ghost use Rattle.shared_bound.specs.Seats.{SeatView};

    ghost Value = { SeatView };

    ghost view = { λ a. a.seat };

    ghost invariant = { λ a. a.seat.bound ≡ a.bound.now };
}

impl<'a> BoundSource for BoundSeat<'a> {
    ghost use Rattle.std.proofs.Common.{◌≡◌, refl, ◌∙◌, ap};
    ghost use Rattle.shared_bound.specs.Seats.{SeatView};

    ghost last = { λ a. a.low };

    // Only the least length that the seat knows of changes.
    ghost reads = { λ a b. b ≡ record a { low = b.low } };

    ghost read_times = { λ a n b. b ≡ record a { low = b.low } };

    ghost reads_none = { λ a. refl };

    ghost reads_more = { λ a b c p q. q ∙ ap (λ (s : SeatView). record s { low = c.low }) p };

    ghost times_none = { λ a. refl };

    ghost times_more = { λ a b c m n p q. q ∙ ap (λ (s : SeatView). record s { low = c.low }) p };

    fn best(&mut self) -> u32 {
        self.bound.best(&mut self.seat)
    }
}

impl<'a> BoundSeat<'a> {
    /// The seat at this bound.
    pub fn new(bound: &'a Bound, seat: Seat) -> BoundSeat<'a>
        requires { seat.bound ≡ bound.now }
        ensures { result ≡ seat }
    {
        BoundSeat { bound, seat }
    }

    /// The next source that no worker was given, or `None` once all are given out.
    pub fn claim(&mut self) -> Option<u32>
        ensures some { IfSome result (λ source. (source < self.old.bound.sources)
            × (self.new ≡ record self.old { claimed = self.old.claimed ++ source ∷ [] })) }
        ensures rising { IfSome result (λ source. All (λ x. x < source) self.old.claimed) }
        ensures none { IfNone result (self.new ≡ record self.old { done = true }) }
    {
        self.bound.claim(&mut self.seat)
    }

    /// Offers a length to all workers.
    pub fn offer(&mut self, length: u32)
        requires { length < NO_OFFER }
        ensures low { self.new.low ≤ min self.old.low length }
        ensures seat { self.new ≡ record self.old {
          offered = self.old.offered ++ length ∷ [];
          low = self.new.low;
        } }
    {
        self.bound.offer(&mut self.seat, length);
    }

    /// The seat alone.
    pub fn into_seat(self) -> Seat
        ensures { result ≡ self.entry }
    {
        let BoundSeat { bound: _, seat } = self;
        seat
    }
}
