//! The four kinds of step on a clock's word.
ghost use Rattle.std.specs.Prelude.{◌≡◌, ◌<◌, []};
ghost use Rattle.stamp_clock.specs.Steps.{view_of_note, view_of_seat, view_without_seat, joined_view, empty_view, IsDraw, IsLook};

use crate::rule::{Token, View, Word};
use atomic_table::{Join, Play, Split};

pub struct Drawing;

impl Play<(), View> for Drawing {
    ghost then = { λ _ before found after. IsDraw before.0 found after.0 × (after.1 ≡ before.1) };
}

/// The word grows by 1: the number before.
pub fn draw(word: &Word, token: &mut Token) -> u64
    requires table { token.old.table_id ≡ word.now.table_id }
    requires words { word.now.table_id.words ≡ 1 }
    requires room { 0 < token.old.me.0.room }
    ensures table { token.new.table_id ≡ token.old.table_id }
    ensures drawn { IsDraw token.old.me.0 result token.new.me.0 }
    ensures slots { token.new.me.1 ≡ token.old.me.1 }
{
    word.fetch_add::<Drawing>(token, 0, 1)
}

pub struct Noting;

impl Split<View> for Noting {
    ghost left = { λ view. view };

    ghost right = { view_of_note };
}

/// A note of what a seat or a note has seen.
pub fn split_note(word: &Word, token: &mut Token) -> Token
    requires table { token.old.table_id ≡ word.now.table_id }
    requires words { word.now.table_id.words ≡ 1 }
    ensures table { (token.new.table_id ≡ token.old.table_id) × (result.table_id ≡ token.old.table_id) }
    ensures same { token.new.me ≡ token.old.me }
    ensures note { result.me ≡ (view_of_note token.old.me.0, []) }
{
    word.split_seat::<Noting>(token)
}

pub struct Seating;

impl Split<View> for Seating {
    ghost left = { view_without_seat };

    ghost right = { view_of_seat };
}

/// A further seat, with one of the room.
pub fn split_seat(word: &Word, token: &mut Token) -> Token
    requires table { token.old.table_id ≡ word.now.table_id }
    requires words { word.now.table_id.words ≡ 1 }
    requires room { 1 < token.old.me.0.room }
    ensures table { (token.new.table_id ≡ token.old.table_id) × (result.table_id ≡ token.old.table_id) }
    ensures left { token.new.me ≡ (view_without_seat token.old.me.0, token.old.me.1) }
    ensures seat { result.me ≡ (view_of_seat token.old.me.0, []) }
{
    word.split_seat::<Seating>(token)
}

pub struct Joining;

impl Join<View> for Joining {
    ghost both = { joined_view };

    ghost spent = { empty_view };
}

/// A seat or a note is joined into a seat.
pub fn join(word: &Word, token: &mut Token, other: Token)
    requires table { token.old.table_id ≡ word.now.table_id }
    requires other { other.table_id ≡ word.now.table_id }
    requires words { word.now.table_id.words ≡ 1 }
    requires slots { other.me.1 ≡ [] }
    ensures table { token.new.table_id ≡ token.old.table_id }
    ensures joined { token.new.me ≡ (joined_view token.old.me.0 other.me.0, token.old.me.1) }
{
    word.join_seat::<Joining>(token, other)
}

pub struct Looking;

impl Play<(), View> for Looking {
    ghost then = { λ _ before word after. IsLook before.0 word after.0 × (after.1 ≡ before.1) };
}

/// The word as it is: what the rule says of the view is learned.
pub fn look(word: &Word, token: &mut Token) -> u64
    requires table { token.old.table_id ≡ word.now.table_id }
    requires words { word.now.table_id.words ≡ 1 }
    ensures table { token.new.table_id ≡ token.old.table_id }
    ensures looked { IsLook token.old.me.0 result token.new.me.0 }
    ensures slots { token.new.me.1 ≡ token.old.me.1 }
{
    word.load::<Looking>(token, 0)
}
