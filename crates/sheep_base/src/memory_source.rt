ghost use Rattle.std.specs.Prelude.{◌≡◌, ◌↔◌, ℕ, ◌<◌, ◌≤◌, ◌++◌, min, length, drop, Some, IfOk, OnOk, OnErr, IsErr, MatchResult};
ghost use Rattle.std.specs.Io.{ReadsAtMost};
ghost use Rattle.std.specs.Io.KnownBytes.{ReadConsumes};
ghost use Rattle.sheep_base.specs.Fault.{Rose};
ghost use Rattle.sheep_base.specs.Memory.{Supply};
ghost use Rattle.sheep_base.specs.Plan.{IsDue, plan_after_call, plan_after_fault, opening_plan};

use crate::copying::fill;
use crate::fault::Fault;
use crate::plan::FaultPlan;
use crate::source::Source;
use object_id::Bytes;
use std::marker::Model;

/// A source in memory, for trying what reads from one: it gives its bytes in small pieces, and fails
/// at chosen calls.
#[derive(Debug, Drop)]
pub struct MemSource {
    bytes: Bytes,
    at: usize,
    piece: usize,
    plan: FaultPlan,
}

impl Model for MemSource {
    ghost Value = { Supply };

    ghost view = { λ s. record { left = drop s.at s.bytes; piece = s.piece; plan = s.plan } };

    ghost invariant = { λ s. (s.at ≤ length s.bytes) × (0 < s.piece) };
}

impl MemSource {
    /// At most `piece` bytes a call; call number `k`, from 0, fails where `k` is listed.
    pub fn new(bytes: Bytes, fails: Vec<u64>, piece: usize) -> MemSource
        requires { 0 < piece }
        ensures value { result ≡ record { left = bytes; piece = piece; plan = opening_plan fails.items } }
        ensures left { ⟦<MemSource as Source>⟧.left result ≡ Some bytes }
        ensures faults { ⟦<MemSource as Source>⟧.faults result ≡ 0 }
    {
        MemSource {
            bytes,
            at: 0,
            piece,
            plan: FaultPlan::new(fails),
        }
    }
}

impl Source for MemSource {
    ghost left = { λ s. Some s.left };

    ghost faults = { λ s. s.plan.faults };

    fn take(&mut self, buf: &mut [u8]) -> Result<usize, Fault>
        // As any source.
        ensures bound { ReadsAtMost result buf.new }
        ensures bytes { ReadConsumes (Some self.old.left) (Some self.new.left) result buf.new }
        ensures count { self.old.plan.faults ≤ self.new.plan.faults }
        ensures calm { OnOk result (self.new.plan.faults ≡ self.old.plan.faults) }
        ensures fault { OnErr result (Rose self.old.plan.faults self.new.plan.faults) }

        // It fails at the calls that are listed, and else gives as much as it may.
        ensures fails { IsErr result ↔ IsDue self.old.plan }
        ensures taken { IfOk result (λ n. n ≡ min self.old.piece (min (length buf.old) (length self.old.left))) }
        ensures plan { MatchResult result (λ _. self.new.plan ≡ plan_after_call self.old.plan) (λ _. self.new.plan
            ≡ plan_after_fault (plan_after_call self.old.plan)) }
        ensures piece { self.new.piece ≡ self.old.piece }
    {
        self.plan.call()?;
        let taken = fill(&self.bytes.as_slice()[self.at..], self.piece, buf);
        self.at += taken;
        Ok(taken)
    }
}
