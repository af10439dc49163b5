ghost use Rattle.std.specs.Prelude.{◌≡◌, ◌↔◌, ℕ, ◌≤◌, IsTrue, IsErr, MatchResult, Contains};
ghost use Rattle.sheep_base.specs.Plan.{Plan, opening_plan, IsDue, plan_after_call, plan_after_fault};

use crate::fault::{Fault, raised};
use std::marker::Model;

/// Faults at chosen calls: call number `k`, from 0, fails where `k` is listed.
#[derive(Debug, Drop)]
pub(crate) struct FaultPlan {
    fails: Vec<u64>,
    calls: u64,
    faults: u64,
}

impl Model for FaultPlan {
    ghost Value = { Plan };

    ghost view = { λ p. record { fails = p.fails.items; calls = p.calls; faults = p.faults } };
}

impl FaultPlan {
    pub(crate) fn new(fails: Vec<u64>) -> Self
        ensures { result ≡ opening_plan fails.items }
    {
        FaultPlan {
            fails,
            calls: 0,
            faults: 0,
        }
    }

    /// Counts a call, and its fault where one is planned.
    pub(crate) fn call(&mut self) -> Result<(), Fault>
        ensures due { IsErr result ↔ IsDue self.old }
        ensures after { MatchResult result (λ _. self.new ≡ plan_after_call self.old) (λ _. self.new
            ≡ plan_after_fault (plan_after_call self.old)) }
        ensures count { self.old.faults ≤ self.new.faults }
    {
        let due = is_listed(self.fails.as_slice(), self.calls);
        self.calls = self.calls.saturating_add(1);
        if due { Err(self.fail()) } else { Ok(()) }
    }

    /// Counts a fault that was not planned.
    pub(crate) fn fail(&mut self) -> Fault
        ensures after { self.new ≡ plan_after_fault self.old }
        ensures count { self.old.faults ≤ self.new.faults }
    {
        raised(&mut self.faults)
    }
}

fn is_listed(calls: &[u64], call: u64) -> bool
    ensures { IsTrue result ↔ Contains calls.now call }
{
    calls.contains(&call)
}
