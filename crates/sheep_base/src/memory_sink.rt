ghost use Rattle.std.specs.Prelude.{◌≡◌, ◌↔◌, ◌⊎◌, ℕ, ◌+◌, ◌<◌, ◌≤◌, [], ◌++◌, min, length, take, false, Some, IfOk, OnOk, OnErr, IsErr};
ghost use Rattle.std.specs.Prelude.{MatchResult, vec_len, vec_capacity};
ghost use Rattle.std.specs.Io.{WritesAtMost};
ghost use Rattle.sheep_base.specs.Fault.{Rose};
ghost use Rattle.sheep_base.specs.Sink.{PutGains};
ghost use Rattle.sheep_base.specs.Memory.{Intake};
ghost use Rattle.sheep_base.specs.Plan.{IsDue, plan_after_call, plan_after_fault, opening_plan};

use crate::fault::Fault;
use crate::plan::FaultPlan;
use crate::sink::Sink;
use object_id::NoMemory;
use std::alloc::Global;
use std::marker::Model;

/// A sink in memory, for trying what writes to one: it takes small pieces, has only the room that was
/// reserved, and fails at chosen calls.
#[derive(Debug, Drop)]
pub struct MemSink {
    given: Vec<u8>,
    room: usize,
    piece: usize,
    plan: FaultPlan,
}

impl Model for MemSink {
    ghost Value = { Intake };

    ghost view = { λ s. record { given = s.given.items; room = s.room; piece = s.piece; plan = s.plan } };

    ghost invariant = { λ s. (vec_len s.given ≤ s.room) × (s.room ≤ vec_capacity s.given) × (0 < s.piece) };
}

impl MemSink {
    /// At most `piece` bytes a call; call number `k`, from 0, fails where `k` is listed. It has no room
    /// yet. Takes no memory.
    pub fn new(alloc: Global, fails: Vec<u64>, piece: usize) -> MemSink
        requires { 0 < piece }
        ensures value { result ≡ record { given = []; room = 0; piece = piece; plan = opening_plan fails.items } }
        ensures given { ⟦<MemSink as Sink>⟧.given result ≡ Some [] }
        ensures faults { ⟦<MemSink as Sink>⟧.faults result ≡ 0 }
    {
        MemSink {
            given: Vec::new(alloc),
            room: 0,
            piece,
            plan: FaultPlan::new(fails),
        }
    }

    /// Grows the room by `n` bytes.
    pub fn reserve(&mut self, n: usize) -> Result<(), NoMemory>
        ensures ok { OnOk result (self.new ≡ record self.old { room = self.old.room + n }) }
        ensures err { OnErr result (self.new ≡ self.old) }
    {
        let room = self.room.checked_add(n).ok_or(NoMemory)?;
        self.given.reserve(room - self.given.len())?;
        self.room = room;
        Ok(())
    }

    /// What it was given.
    pub fn given(&self) -> &[u8]
        ensures { result.now ≡ self.now.given }
    {
        self.given.as_slice()
    }
}

impl Sink for MemSink {
    ghost given = { λ s. Some s.given };

    ghost stops = { false };

    ghost faults = { λ s. s.plan.faults };

    fn put(&mut self, piece: &[u8]) -> Result<usize, Fault>
        // As any sink.
        ensures bound { WritesAtMost result piece.now }
        ensures some { IfOk result (λ n. 0 < length piece.now → 0 < n) }
        ensures bytes { PutGains false (Some self.old.given) (Some self.new.given) result piece.now }
        ensures count { self.old.plan.faults ≤ self.new.plan.faults }
        ensures fault { OnErr result (Rose self.old.plan.faults self.new.plan.faults) }

        // It fails at the calls that are listed, and where what it would take is more than it has room for:
        // none of that is taken then.
        ensures fails { IsErr result ↔ (IsDue self.old.plan
            ⊎ (self.old.room < length self.old.given + min self.old.piece (length piece.now))) }
        ensures taken { IfOk result (λ n. n ≡ min self.old.piece (length piece.now)) }
        ensures plan { MatchResult result (λ _. self.new.plan ≡ plan_after_call self.old.plan) (λ _. self.new.plan
            ≡ plan_after_fault (plan_after_call self.old.plan)) }
        ensures settings { (self.new.room ≡ self.old.room) × (self.new.piece ≡ self.old.piece) }
    {
        self.plan.call()?;
        let taken = self.piece.min(piece.len());
        if self.room - self.given.len() < taken {
            return Err(self.plan.fail());
        }
        self.given.extend_from_slice(&piece[..taken]).unwrap();
        Ok(taken)
    }
}
