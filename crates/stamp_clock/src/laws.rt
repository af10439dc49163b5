//! The promises on stamps: each is the contract of a call.
ghost use Rattle.std.specs.Prelude.{◌≡◌, ◌≢◌, ◌+◌, ◌<◌, ◌≤◌, ◌⊎◌, ℕ, true, false, List, [], ◌∷◌, ◌++◌};
ghost use Rattle.std.specs.Prelude.{All, Contains, Some, slice_get, slice_set, IfOk, OnErr};
ghost use Rattle.stamp_clock.specs.declared.rule.View.{View};
ghost use Rattle.stamp_clock.specs.Stamps.{AreStamps, HasNoneTwice, IsViewAt};
ghost use Rattle.stamp_clock.specs.Steps.{first_view, view_after_draw, view_of_note, view_of_seat, view_without_seat};
ghost use Rattle.stamp_clock.specs.Steps.{joined_view, empty_view};
ghost use Rattle.stamp_clock.specs.Seat.{joined_seat};

use crate::clock::{Clock, ClockSpent};
use crate::seat::Seat;

/// What holds of every seat at any time.
pub fn numbers_of_a_seat(seat: &Seat)
    // It has seen each number that it drew.
    ensures below { All (λ number. number < seat.now.seen) seat.now.mine }
    // It drew no number twice, and neither did two of the seats joined into it.
    ensures once { HasNoneTwice seat.now.mine }
    ensures room { seat.now.spent ≡ false → 0 < seat.now.room }
{
    let _spent = seat.spent;
}

/// A seat's next number is above each that it drew.
pub fn stamps_grow(clock: &Clock, seat: &mut Seat) -> Result<u64, ClockSpent>
    requires { seat.old.clock ≡ clock.now.id }
    ensures above { IfOk result (λ stamp. All (λ earlier. earlier < stamp) seat.old.mine) }
    ensures drawn { IfOk result (λ stamp. seat.new.mine ≡ stamp ∷ seat.old.mine) }
    ensures clock { seat.new.clock ≡ seat.old.clock }
    ensures spent { OnErr result (seat.new.spent ≡ true) }
{
    numbers_of_a_seat(seat);
    clock.draw(seat)
}

/// A number drawn after a note was learned is above the one that the note's maker drew before making the note.
pub fn a_stamp_is_above_what_was_brought(
    clock: &Clock,
    maker: &mut Seat,
    taker: &mut Seat,
) -> Result<(u64, u64), ClockSpent>
    requires maker { maker.old.clock ≡ clock.now.id }
    requires taker { taker.old.clock ≡ clock.now.id }
    ensures above { IfOk result (λ stamps. stamps.0 < stamps.1) }
    // The first is the maker's, the second the taker's.
    ensures made { IfOk result (λ stamps. maker.new.mine ≡ stamps.0 ∷ maker.old.mine) }
    ensures taken { IfOk result (λ stamps. taker.new.mine ≡ stamps.1 ∷ taker.old.mine) }
    ensures clock { (maker.new.clock ≡ maker.old.clock) × (taker.new.clock ≡ taker.old.clock) }
    ensures spent { OnErr result ((maker.new.spent ≡ true) ⊎ (taker.new.spent ≡ true)) }
{
    let sent = clock.draw(maker)?;
    let note = clock.note(maker);
    clock.learn(taker, note);
    let received = clock.draw(taker)?;
    Ok((sent, received))
}

/// No number was drawn by both of two seats. Joining them shows it.
pub fn no_stamp_twice(clock: &Clock, seat: &mut Seat, other: Seat)
    requires seat { seat.old.clock ≡ clock.now.id }
    requires other { other.clock ≡ clock.now.id }
    ensures joined { seat.new ≡ joined_seat seat.old other }
    ensures apart { (number : ℕ) → Contains seat.old.mine number → Contains other.mine number → ⊥ }
{
    clock.join(seat, other);
}

/// The rule holds of a new clock, and each kind of step keeps it, whichever view it is of.
pub fn steps_keep_the_rule()
    ensures opening { AreStamps 0 (first_view ∷ []) }
    ensures fetch_add { (word : ℕ) (views : List View) (place : ℕ) (view : View) → IsViewAt word views place view → 0 < view.room
        → AreStamps (word + 1) (slice_set views place (view_after_draw view word)) }
    ensures split_note { (word : ℕ) (views : List View) (place : ℕ) (view : View) → IsViewAt word views place view
        → AreStamps word (views ++ view_of_note view ∷ []) }
    ensures split_seat { (word : ℕ) (views : List View) (place : ℕ) (view : View) → IsViewAt word views place view → 1 < view.room
        → AreStamps word (slice_set views place (view_without_seat view) ++ view_of_seat view ∷ []) }
    ensures join { (word : ℕ) (views : List View) (place other_place : ℕ) (view other : View) → IsViewAt word views place view
        → IsViewAt word views other_place other → other_place ≢ place
        → AreStamps word (slice_set (slice_set views place (joined_view view other)) other_place empty_view) }
    ensures load { (word : ℕ) (views : List View) (place : ℕ) (view : View) → IsViewAt word views place view → view.seen ≤ word }
{}
