//! A stamp on its way to a step that is to be above it.

ghost use Rattle.std.specs.Prelude.{◌≡◌, ◌<◌, ◌≤◌, true, [], All, IfOk, OnErr};
ghost use Rattle.live_cells.specs.Seats.{IsInformed, HasDrawn};

use stamp_clock::{Clock, ClockName, ClockSpent, Note, Seat};
use std::marker::{Model, PhantomData};

/// The stamp of a step, with a note of the seat that drew it, of the clock that N names. Whoever joins the note draws above the stamp.
/// Contracts see a carry as its stamp. No call takes memory.
#[derive(Drop)]
pub struct Carry<N: ClockName> {
    stamp: u64,
    note: Note,
    name: PhantomData<N>,
}

impl<N: ClockName> Model for Carry<N> {
    ghost use Rattle.std.specs.Prelude.{◌≡◌, ◌<◌, ℕ};

    ghost Value = { ℕ };

    ghost view = { λ carry. carry.stamp };

    ghost invariant = { λ carry. (carry.note.clock ≡ N.clock) × (carry.stamp < carry.note.seen) };
}

impl<N: ClockName> Carry<N> {
    /// A carry of a stamp that the seat has seen, as it has each that it drew.
    pub fn new(stamp: u64, clock: &Clock, seat: &mut Seat) -> Carry<N>
        requires clock { clock.now.id ≡ N.clock }
        requires seat { seat.old.clock ≡ clock.now.id }
        requires seen { stamp < seat.old.seen }
        ensures carry { result ≡ stamp }
        ensures seat { seat.new ≡ seat.old }
    {
        Carry {
            stamp,
            note: clock.note(seat),
            name: PhantomData,
        }
    }

    pub fn stamp(&self) -> u64
        ensures { result ≡ self.now }
    {
        self.stamp
    }

    /// A second carry of the same stamp.
    pub fn again(&mut self, clock: &Clock) -> Carry<N>
        requires { clock.now.id ≡ N.clock }
        ensures again { result ≡ self.old }
        ensures carry { self.new ≡ self.old }
    {
        Carry {
            stamp: self.stamp,
            note: clock.again(&mut self.note),
            name: PhantomData,
        }
    }

    /// Joins the note into a seat: from now on the seat draws above the stamp.
    fn join(self, clock: &Clock, seat: &mut Seat)
        requires clock { clock.now.id ≡ N.clock }
        requires seat { seat.old.clock ≡ clock.now.id }
        ensures above { self < seat.new.seen }
        ensures seat { IsInformed seat.old seat.new }
        ensures seen { seat.old.seen ≤ seat.new.seen }
        ensures clock { seat.new.clock ≡ seat.old.clock }
    {
        let Carry {
            stamp: _,
            note,
            name: _,
        } = self;
        clock.learn(seat, note);
    }
}

/// Joins all that was brought into a seat: from now on it draws above each of the stamps.
#[tactic(auto, using(crate::proofs::SeatLemmas::informed_of_nothing, crate::proofs::SeatLemmas::informed_twice))]
pub fn join_all<N: ClockName>(brought: &mut Vec<Carry<N>>, clock: &Clock, seat: &mut Seat)
    requires clock { clock.now.id ≡ N.clock }
    requires seat { seat.old.clock ≡ clock.now.id }
    ensures empty { brought.new.items ≡ [] }
    ensures above { All (λ stamp. stamp < seat.new.seen) brought.old.items }
    ensures seat { IsInformed seat.old seat.new }
    ensures clock { seat.new.clock ≡ seat.old.clock }
{
    while let Some(carry) = brought.pop() {
        carry.join(clock, seat);
    }
}

/// The seat's next stamp, drawn once all that was brought is joined into the seat: it is above each stamp that was brought.
pub fn draw_above<N: ClockName>(
    brought: &mut Vec<Carry<N>>,
    clock: &Clock,
    seat: &mut Seat,
) -> Result<u64, ClockSpent>
    requires clock { clock.now.id ≡ N.clock }
    requires seat { seat.old.clock ≡ clock.now.id }
    ensures empty { brought.new.items ≡ [] }
    ensures above { IfOk result (λ stamp. All (λ earlier. earlier < stamp) brought.old.items) }
    ensures drawn { IfOk result (λ stamp. HasDrawn clock.now.last stamp seat.old seat.new) }
    ensures below { IfOk result (λ stamp. stamp < seat.new.seen) }
    ensures spent { OnErr result (seat.new.spent ≡ true) }
    ensures clock { seat.new.clock ≡ seat.old.clock }
{
    join_all(brought, clock, seat);
    clock.draw(seat)
}
