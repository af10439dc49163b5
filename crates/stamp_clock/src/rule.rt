//! The clock's table: one word, the next number, under the rule of stamps.
ghost use Rattle.std.specs.Prelude.{◌≡◌, ℕ, [], ◌∷◌};
ghost use Rattle.stamp_clock.specs.Stamps.{AreStamps};
ghost use Rattle.stamp_clock.specs.Steps.{first_view};

use atomic_table::{Shared, TableRule};
use std::collections::LinkedList;

/// What a seat or a note knows. Only contracts see it: no value of it is made.
pub struct View {
    /// The numbers that its draws found, and those of the seats joined into it.
    pub mine: LinkedList<u64>,
    /// It has seen each number below this one.
    pub seen: u64,
    /// How many draws it may still make past the last number.
    pub room: u64,
}

pub struct StampRule;

impl TableRule<(), View, ()> for StampRule {
    ghost holds = { λ _ state. (word : ℕ) × (state.words ≡ word ∷ []) × AreStamps word state.views };

    ghost first = { λ _. first_view };
}

/// The word as threads share it.
pub type Word = Shared<(), View, (), StampRule>;

/// A view of the word, with the right to make steps.
pub type Token = atomic_table::Seat<(), View>;
