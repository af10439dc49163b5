ghost use Rattle.std.specs.Prelude.{◌≡◌, ◌-◌, ◌<◌, []};
ghost use Rattle.stamp_clock.specs.Steps.{first_view};
ghost use Rattle.stamp_clock.specs.Stamps.{seats_max};
ghost use Rattle.stamp_clock.specs.Seat.{new_seat};

use crate::rule::{Token, Word};
use crate::steps;
use std::marker::Model;

/// Draws numbers of its clock. It may be handed to another thread; no two threads draw by one seat at once.
#[derive(Drop)]
pub struct Seat {
    pub(crate) token: Token,
    /// Whether it, or a seat joined into it, was answered that the clock is spent.
    pub(crate) spent: bool,
}

impl Model for Seat {
    ghost use Rattle.std.specs.Prelude.{◌≡◌, []};
    ghost use Rattle.stamp_clock.specs.Seat.{SeatState, IsSeat, seat_state};

    ghost Value = { SeatState };

    ghost view = { λ seat. seat_state seat.token.table_id seat.token.me.0 seat.spent };

    ghost invariant = { λ seat. (seat.token.me.1 ≡ []) × IsSeat (seat_state seat.token.table_id seat.token.me.0 seat.spent) };
}

impl Seat {
    /// The first seat of a clock.
    pub(crate) fn of(first: Token) -> Seat
        requires { first.me ≡ (first_view, []) }
        ensures { result ≡ new_seat first.table_id seats_max }
    {
        Seat {
            token: first,
            spent: false,
        }
    }

    /// A further seat, which gets one of this one's room.
    pub(crate) fn split(&mut self, word: &Word) -> Seat
        requires table { self.old.clock ≡ word.now.table_id }
        requires words { word.now.table_id.words ≡ 1 }
        requires room { 1 < self.old.room }
        ensures left { self.new ≡ record self.old { room = self.old.room - 1 } }
        ensures seat { result ≡ record (new_seat self.old.clock 1) { seen = self.old.seen } }
    {
        Seat {
            token: steps::split_seat(word, &mut self.token),
            spent: false,
        }
    }
}
