use crate::rule::Token;
use std::marker::Model;

/// Carries what its seat has seen, and can't draw.
#[derive(Drop)]
pub struct Note {
    pub(crate) token: Token,
}

impl Model for Note {
    ghost use Rattle.std.specs.Prelude.{◌≡◌, []};
    ghost use Rattle.stamp_clock.specs.Note.{NoteState};
    ghost use Rattle.stamp_clock.specs.Steps.{view_of_note};

    ghost Value = { NoteState };

    ghost view = { λ note. record { clock = note.token.table_id; seen = note.token.me.0.seen } };

    ghost invariant = { λ note. note.token.me ≡ (view_of_note note.token.me.0, []) };
}
