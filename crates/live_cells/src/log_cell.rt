//! The log, with a carry of each entry's stamp.

ghost use Rattle.std.specs.Prelude.{◌≡◌, ◌<◌, [], ◌∷◌, ◌++◌, length, slice_index, IfOk, OnOk, OnErr};
ghost use Rattle.std.specs.Option.{option_map};
ghost use Rattle.epoch_log.specs.Appending.{MayAppend};
ghost use Rattle.live_cells.specs.LogState.{IsFormatAlone, log_after, entry_at};

use crate::carry::Carry;
use epoch_log::Log;
use object_id::{Entry, NoMemory};
use stamp_clock::{Clock, ClockName};
use std::alloc::Global;
use std::marker::Model;

/// The membership log, and for each entry a carry of the step that put it there, of the clock that N names. Contracts see the entries and
/// their stamps.
pub struct LogCell<N: ClockName> {
    log: Log,
    carries: Vec<Carry<N>>,
}

/// Written out, so that letting a cell go is one call wherever it is done.
impl<N: ClockName> Drop for LogCell<N> {
    fn drop(self) {
        let LogCell { log, carries } = self;
        drop(log);
        drop(carries);
    }
}

impl<N: ClockName> Model for LogCell<N> {
    ghost use Rattle.std.specs.Prelude.{◌≡◌, length};
    ghost use Rattle.live_cells.specs.LogState.{LogState};

    ghost Value = { LogState };

    ghost view = { λ cell. record { entries = cell.log; stamps = cell.carries.items } };

    ghost invariant = { λ cell. length cell.carries.items ≡ length cell.log };
}

impl<N: ClockName> LogCell<N> {
    /// The cell of a log of its first entry, with that entry's carry.
    pub fn new(alloc: Global, log: Log, carry: Carry<N>) -> Result<LogCell<N>, NoMemory>
        requires { IsFormatAlone log }
        ensures { IfOk result (λ cell. cell ≡ record { entries = log; stamps = carry ∷ [] }) }
    {
        let mut carries = Vec::new(alloc);
        carries.push(carry)?;
        Ok(LogCell { log, carries })
    }

    /// Adds an entry at the log's end, with its carry. Without memory the log stays, and the entry and the carry are dropped. Costs what
    /// [`Log::append`] costs.
    pub fn append(&mut self, entry: Entry, carry: Carry<N>) -> Result<(), NoMemory>
        requires { MayAppend self.old.entries entry }
        ensures ok { OnOk result (self.new ≡ log_after entry carry self.old) }
        ensures err { OnErr result (self.new ≡ self.old) }
    {
        self.carries.reserve(1)?;
        self.log.append(entry)?;
        self.carries.push_reserved(carry);
        Ok(())
    }

    /// The log. Takes no memory.
    pub fn log(&self) -> &Log
        ensures entries { result.now ≡ self.now.entries }
        // There is a carry for each entry.
        ensures stamps { length self.now.stamps ≡ length self.now.entries }
    {
        &self.log
    }

    /// The entry at a place, from 0, with its stamp; `None` past the end. Takes no memory.
    pub fn entry(&self, place: usize) -> Option<(&Entry, u64)>
        ensures { option_map (λ found. (found.0.now, found.1)) result ≡ entry_at place self.now }
    {
        let entry = self.log.entry(place)?;
        let carry = self.carries.as_slice().get(place)?;
        Some((entry, carry.stamp()))
    }

    /// A carry of the stamp of the entry at a place. Takes no memory.
    pub fn carry_at(&mut self, place: usize, clock: &Clock) -> Carry<N>
        requires clock { clock.now.id ≡ N.clock }
        requires place { place < length self.old.entries }
        ensures carry { result ≡ slice_index self.old.stamps place }
        ensures log { self.new ≡ self.old }
    {
        self.carries[place].again(clock)
    }
}
