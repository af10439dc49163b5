ghost use Rattle.std.specs.Prelude.{◌≡◌, ℕ, ◌+◌, ◌-◌, ◌^◌, ◌<◌, ◌≤◌, List, [], ◌++◌, min, length, take, drop, true, Some, Ok, IfOk, OnErr};
ghost use Rattle.std.specs.Prelude.{vec_len, vec_capacity};
ghost use Rattle.std.specs.Io.{WritesAtMost};
ghost use Rattle.sheep_base.specs.Fault.{Rose};
ghost use Rattle.sheep_base.specs.Sink.{PutGains};
ghost use Rattle.sheep_base.specs.Sure.{Keeping, told_bytes};

use crate::copying::fill;
use crate::fault::Fault;
use crate::sink::Sink;
use crate::source::Source;
use object_id::{Bytes, NoMemory};
use std::alloc::Global;
use std::marker::Model;

/// A source that never fails: its count of faults is 0 for good.
#[derive(Debug, Drop)]
pub struct SureSource {
    bytes: Bytes,
    at: usize,
}

impl Model for SureSource {
    ghost Value = { List ℕ };

    ghost view = { λ s. drop s.at s.bytes };

    ghost invariant = { λ s. s.at ≤ length s.bytes };
}

impl SureSource {
    pub fn new(bytes: Bytes) -> SureSource
        ensures value { result ≡ bytes }
        ensures left { ⟦<SureSource as Source>⟧.left result ≡ Some bytes }
        ensures faults { ⟦<SureSource as Source>⟧.faults result ≡ 0 }
    {
        SureSource { bytes, at: 0 }
    }
}

impl Source for SureSource {
    ghost left = { λ s. Some s };

    ghost faults = { λ _. 0 };

    fn take(&mut self, buf: &mut [u8]) -> Result<usize, Fault> {
        let taken = fill(&self.bytes.as_slice()[self.at..], buf.len(), buf);
        self.at += taken;
        Ok(taken)
    }
}

/// A sink that never fails: its count of faults is 0 for good. It keeps the first bytes that it is
/// given, as many as it has room for, and counts the rest.
#[derive(Debug, Drop)]
pub struct SureSink {
    kept: Vec<u8>,
    room: usize,
    more: u64,
}

impl Model for SureSink {
    ghost Value = { Keeping };

    ghost view = { λ s. record { kept = s.kept.items; room = s.room; more = s.more } };

    ghost invariant = { λ s. (vec_len s.kept ≤ s.room) × (s.room ≤ vec_capacity s.kept) };
}

impl SureSink {
    pub fn new(alloc: Global, room: usize) -> Result<SureSink, NoMemory>
        ensures value { IfOk result (λ sink. sink ≡ record { kept = []; room = room; more = 0 }) }
        ensures given { IfOk result (λ sink. ⟦<SureSink as Sink>⟧.given sink ≡ Some []) }
        ensures faults { IfOk result (λ sink. ⟦<SureSink as Sink>⟧.faults sink ≡ 0) }
    {
        Ok(SureSink {
            kept: Vec::with_capacity(alloc, room)?,
            room,
            more: 0,
        })
    }

    /// What it kept: all that it was given, unless there was more.
    pub fn given(&self) -> &[u8]
        ensures { result.now ≡ self.now.kept }
    {
        self.kept.as_slice()
    }

    /// How many bytes came after those that it kept. The count stands still at the last `u64`.
    pub fn more(&self) -> u64
        ensures { result ≡ self.now.more }
    {
        self.more
    }
}

impl Sink for SureSink {
    ghost given = { told_bytes };

    ghost stops = { true };

    ghost faults = { λ _. 0 };

    fn put(&mut self, piece: &[u8]) -> Result<usize, Fault>
        // As any sink.
        ensures bound { WritesAtMost result piece.now }
        ensures some { IfOk result (λ n. 0 < length piece.now → 0 < n) }
        ensures bytes { PutGains true (told_bytes self.old) (told_bytes self.new) result piece.now }
        ensures fault { OnErr result (Rose 0 0) }

        // It takes all, keeps what it has room for, and counts the rest.
        ensures taken { result ≡ Ok (length piece.now) }
        ensures kept { self.new.kept ≡ self.old.kept ++ take (self.old.room - length self.old.kept) piece.now }
        ensures more { self.new.more ≡ min (self.old.more + (length piece.now - (self.old.room - length self.old.kept))) (2 ^ 64 - 1) }
        ensures room { self.new.room ≡ self.old.room }
    {
        let fits = piece.len().min(self.room - self.kept.len());
        self.kept.extend_from_slice(&piece[..fits]).unwrap();
        self.more = self.more.saturating_add((piece.len() - fits) as u64);
        Ok(piece.len())
    }
}
