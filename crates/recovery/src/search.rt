//! The search for an object's rows, level by level.

ghost use Rattle.std.specs.Prelude.{◌≡◌, take, OnOk, OnErr};
ghost use Rattle.std.specs.Option.{option_copied};
ghost use Rattle.recovery.specs.State.{search_at};
ghost use Rattle.recovery.specs.Steps.{search_after_answer, with_answer, search_asked_again};

use object_id::{Epoch, NoMemory, NodeId, Oid};
use object_store::RowCopy;
use peer_proto::PeerSay;
use std::alloc::Global;
use std::marker::Model;

/// What a node answered of a level: its row, or that it has none.
#[derive(Debug)]
pub struct RowAnswer {
    pub from: NodeId,
    pub row: Option<RowCopy>,
}

/// Written out, so that letting one go is one call wherever it is done, and no cases there.
impl Drop for RowAnswer {
    fn drop(self) {
        let RowAnswer { from: _, row } = self;
        drop(row);
    }
}

/// A search at one of its levels. Contracts see a record.
pub(crate) struct Search {
    oid: Oid,
    level: Epoch,
    /// What was answered since the level was asked.
    answers: Vec<RowAnswer>,
    /// Whether a message was refused or lost since.
    again: bool,
}

/// Written out, so that letting one go is one call wherever it is done, and no cases there.
impl Drop for Search {
    fn drop(self) {
        let Search {
            oid: _,
            level: _,
            answers,
            again: _,
        } = self;
        drop(answers);
    }
}

impl Model for Search {
    ghost use Rattle.recovery.specs.State.{Search as TheSearch};

    ghost Value = { TheSearch };

    ghost view = { λ search. record {
      oid = search.oid;
      level = search.level.0;
      answers = search.answers.items;
      again = search.again;
    } };
}

impl Search {
    /// Nothing was answered yet of the level. Takes no memory.
    pub fn at(alloc: Global, oid: Oid, level: Epoch) -> Search
        ensures { result ≡ search_at oid level.0 }
    {
        Search {
            oid,
            level,
            answers: Vec::new(alloc),
            again: false,
        }
    }

    pub fn oid(&self) -> Oid
        ensures { result ≡ self.now.oid }
    {
        self.oid
    }

    pub fn level(&self) -> Epoch
        ensures { result.0 ≡ self.now.level }
    {
        self.level
    }

    /// Whether the level is to be asked anew if it has too few rows.
    pub fn again(&self) -> bool
        ensures { result ≡ self.now.again }
    {
        self.again
    }

    pub fn answers(&self) -> &[RowAnswer]
        ensures { result.now ≡ self.now.answers }
    {
        self.answers.as_slice()
    }

    /// A node answered of the level.
    fn add(&mut self, from: NodeId, row: Option<RowCopy>) -> Result<(), NoMemory>
        ensures ok { OnOk result (self.new ≡ with_answer from row self.old) }
        ensures err { OnErr result (self.new ≡ self.old) }
    {
        self.answers.push(RowAnswer { from, row })?;
        Ok(())
    }

    /// A message of the level was refused or lost.
    fn ask_again(&mut self)
        ensures { self.new ≡ search_asked_again self.old }
    {
        self.again = true;
    }

    /// A message of the level has ended: with what its node said, or by a loss. Takes a copy of a row. Without memory nothing changes.
    pub fn note(
        &mut self,
        alloc: Global,
        from: NodeId,
        said: Option<&PeerSay>,
    ) -> Result<(), NoMemory>
        ensures ok { OnOk result (self.new ≡ search_after_answer from (option_copied said.entry) self.old) }
        ensures err { OnErr result (self.new ≡ self.old) }
    {
        match said {
            None => self.ask_again(),
            Some(PeerSay::Success) => {}
            Some(PeerSay::Piece(_)) => {}
            Some(PeerSay::Objects(_)) => {}
            Some(PeerSay::Row(row)) => self.add(from, Some(row.copy(alloc)?))?,
            Some(PeerSay::NoRow) => self.add(from, None)?,
            Some(PeerSay::Refused(_)) => self.ask_again(),
        }
        Ok(())
    }

    /// Takes back what was noted after the first `count` answers.
    pub fn restore(&mut self, count: usize, again: bool)
        ensures { self.new ≡ record self.old { answers = take count self.old.answers; again = again } }
    {
        self.answers.truncate(count);
        self.again = again;
    }
}
