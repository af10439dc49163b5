//! The lines of a trace, one after another.

ghost use Rattle.std.specs.Prelude.{◌≡◌, ◌≤◌, [], ◌∷◌, length, MatchOption};
ghost use Rattle.trace_text.specs.Lines.{lines_in};

use crate::split::split_once;
use std::marker::Model;

/// The lines of a trace that are still to come.
#[derive(Debug, Drop)]
pub struct Lines<'a> {
    rest: &'a [u8],
}

impl<'a> Model for Lines<'a> {
    ghost use Rattle.std.specs.Prelude.{ℕ, List};
    ghost use Rattle.trace_text.specs.Lines.{lines_in};

    ghost Value = { List (List ℕ) };

    ghost view = { λ lines. lines_in lines.rest.now };
}

impl<'a> Lines<'a> {
    /// All lines of a trace.
    pub fn new(text: &'a [u8]) -> Lines<'a>
        ensures lines { result ≡ lines_in text.now }
        ensures bound { length result ≤ length text.now }
    {
        Lines { rest: text }
    }

    /// The next line, without its LF, and the lines behind it. The last one may lack it.
    pub fn split_first(&self) -> Option<(&'a [u8], Lines<'a>)>
        ensures { MatchOption result (self.now ≡ []) (λ split. self.now ≡ split.0.now ∷ split.1) }
    {
        if self.rest.is_empty() {
            return None;
        }
        match split_once(self.rest, b'\n') {
            Some((line, rest)) => Some((line, Lines { rest })),
            None => Some((self.rest, Lines { rest: &[] })),
        }
    }

    /// The next line, without its LF. The last one may lack it.
    pub fn next(&mut self) -> Option<&'a [u8]>
        ensures { MatchOption result ((self.old ≡ []) × (self.new ≡ [])) (λ line. self.old ≡ line.now ∷ self.new) }
    {
        let (line, rest) = self.split_first()?;
        *self = rest;
        Some(line)
    }
}
