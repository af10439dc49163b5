ghost use Rattle.std.specs.Prelude.{◌≡◌, ◌+◌, ◌<◌, ◌≤◌, max, [], ◌∷◌, true, false, All, IfOk, OnErr, IsErr};
ghost use Rattle.stamp_clock.specs.Stamps.{numbers_end, seats_max, HasNoneTwice};
ghost use Rattle.stamp_clock.specs.Steps.{first_view};
ghost use Rattle.stamp_clock.specs.Seat.{new_seats, joined_seat, IsSpentBy};

use crate::note::Note;
use crate::rule::{StampRule, Token, View, Word};
use crate::seat::Seat;
use crate::steps;
use atomic_table::Table;
use object_id::NoMemory;
use std::alloc::{AllocError, Global};
use std::marker::Model;

/// The numbers below the clock's last one are used up.
#[derive(Clone, Copy, Debug, PartialEq, Eq)]
pub struct ClockSpent;

type Numbers = Table<(), View, (), StampRule, Global>;

/// Numbers from 0 on, each of which is drawn once at the most.
#[derive(Drop)]
pub struct Clock {
    /// Numbers from here on are no answer.
    last: u64,
    numbers: Numbers,
}

impl Model for Clock {
    ghost use Rattle.std.specs.Prelude.{◌≡◌, ◌≤◌};
    ghost use Rattle.stamp_clock.specs.Clock.{ClockState};
    ghost use Rattle.stamp_clock.specs.Stamps.{numbers_end};

    ghost Value = { ClockState };

    ghost view = { λ clock. record { id = clock.numbers.shared.table_id; last = clock.last } };

    ghost invariant = { λ clock. (clock.numbers.shared.table_id.words ≡ 1) × (clock.last ≤ numbers_end) };
}

/// The word at 0, and the first view of it.
fn begin(alloc: Global) -> Result<(Numbers, Token), AllocError>
    ensures { IfOk result (λ begun. (begun.0.shared.table_id.words ≡ 1)
        × (begun.1.table_id ≡ begun.0.shared.table_id) × (begun.1.me ≡ (first_view, []))) }
{
    Table::of_words(alloc, &[0], &())
}

/// The seats of a new clock: the first one has all the room, and gives one to each other seat.
fn seats_from(alloc: Global, word: &Word, first: Token, count: u32) -> Result<Vec<Seat>, AllocError>
    requires table { first.table_id ≡ word.now.table_id }
    requires words { word.now.table_id.words ≡ 1 }
    requires first { first.me ≡ (first_view, []) }
    requires some { 1 ≤ count }
    requires most { count ≤ seats_max }
    ensures { IfOk result (λ seats. seats.items ≡ new_seats word.now.table_id count) }
{
    let mut seats = Vec::new(alloc);
    seats.push(Seat::of(first))?;
    for _ in 1..count {
        let seat = seats[0].split(word);
        seats.push(seat)?;
    }
    Ok(seats)
}

impl Clock {
    /// A clock that answers the numbers below `last`, with so many seats. Only this call takes memory.
    pub fn new(alloc: Global, last: u64, seats: u32) -> Result<(Clock, Vec<Seat>), NoMemory>
        requires last { last ≤ numbers_end }
        requires some { 1 ≤ seats }
        requires most { seats ≤ seats_max }
        ensures made { IfOk result (λ made. (made.0.last ≡ last) × (made.1.items ≡ new_seats made.0.id seats)) }
        ensures seats { IfOk result (λ made. All (λ seat. seat.clock ≡ made.0.id) made.1.items) }
    {
        let (numbers, first) = begin(alloc)?;
        let seats = seats_from(alloc, &numbers.shared, first, seats)?;
        Ok((Clock { last, numbers }, seats))
    }

    /// A note of what the seat has seen.
    pub fn note(&self, seat: &mut Seat) -> Note
        requires { seat.old.clock ≡ self.now.id }
        ensures note { result ≡ record { clock = seat.old.clock; seen = seat.old.seen } }
        ensures seat { seat.new ≡ seat.old }
    {
        Note {
            token: steps::split_note(&self.numbers.shared, &mut seat.token),
        }
    }

    /// A second note of what the note has seen.
    pub fn again(&self, note: &mut Note) -> Note
        requires { note.old.clock ≡ self.now.id }
        ensures again { result ≡ note.old }
        ensures note { note.new ≡ note.old }
    {
        Note {
            token: steps::split_note(&self.numbers.shared, &mut note.token),
        }
    }

    /// Joins a note into a seat: from now on it has seen what the note has.
    pub fn learn(&self, seat: &mut Seat, note: Note)
        requires seat { seat.old.clock ≡ self.now.id }
        requires note { note.clock ≡ self.now.id }
        ensures { seat.new ≡ record seat.old { seen = max seat.old.seen note.seen } }
    {
        let Note { token: brought } = note;
        steps::join(&self.numbers.shared, &mut seat.token, brought);
    }

    /// Joins a seat into a seat. Of the numbers that the two drew, none was drawn twice.
    pub fn join(&self, seat: &mut Seat, other: Seat)
        requires seat { seat.old.clock ≡ self.now.id }
        requires other { other.clock ≡ self.now.id }
        ensures joined { seat.new ≡ joined_seat seat.old other }
        ensures once { HasNoneTwice seat.new.mine }
    {
        let Seat { token, spent } = other;
        seat.spent |= spent;
        steps::join(&self.numbers.shared, &mut seat.token, token);
        let _ = steps::look(&self.numbers.shared, &mut seat.token);
    }

    /// The next number: no other draw gets it, and it isn't below what the seat has seen. Past the last number every draw is
    /// `ClockSpent`, and so is each further one of a seat that was answered so.
    pub fn draw(&self, seat: &mut Seat) -> Result<u64, ClockSpent>
        requires { seat.old.clock ≡ self.now.id }
        ensures ok { IfOk result (λ number. (seat.old.spent ≡ false) × (number < self.now.last)
            × (seat.new ≡ record seat.old { mine = number ∷ seat.old.mine; seen = number + 1 })) }
        ensures above { IfOk result (λ number. seat.old.seen ≤ number) }

        // A seat that was answered so before, or one joined into it, makes no step.
        ensures again { seat.old.spent ≡ true → IsErr result × (seat.new ≡ seat.old) }
        // Another one found a number, which is `last` or above it.
        ensures past { seat.old.spent ≡ false → OnErr result (IsSpentBy self.now.last seat.old seat.new) }
        ensures spent { OnErr result (seat.new.spent ≡ true) }

        ensures clock { seat.new.clock ≡ seat.old.clock }
    {
        if seat.spent {
            return Err(ClockSpent);
        }
        let _last = self.last;
        let found = steps::draw(&self.numbers.shared, &mut seat.token);
        if found < self.last {
            Ok(found)
        } else {
            seat.spent = true;
            Err(ClockSpent)
        }
    }
}
