//! The checker.
ghost use Rattle.std.specs.Prelude.{◌≡◌, ℕ, Err, IfOk};
ghost use Rattle.disk_history.specs.Legal.{IsFirstIllegal, IsLegal};
ghost use Rattle.disk_history.specs.declared.checker.HistoryFault.TheVariants as faults;

use crate::checker_state::CheckerState;
use crate::event::HistEvent;
use object_id::NoMemory;
use std::alloc::Global;

/// Why a history wasn't taken.
#[derive(Clone, Copy, Debug, PartialEq, Eq)]
pub enum HistoryFault {
    /// The first event, from 0, up to which the history isn't legal.
    Illegal { place: usize },
    NoMemory,
}

impl From<NoMemory> for HistoryFault {
    ghost use Rattle.disk_history.specs.declared.checker.HistoryFault.TheVariants as faults;

    ghost from_gives = { λ _ fault. fault ≡ faults.NoMemory };

    fn from(_fault: NoMemory) -> HistoryFault {
        HistoryFault::NoMemory
    }
}

/// Whether a history is legal, and else where it first isn't. An answer of `NoMemory` says nothing of the history.
pub fn check(alloc: Global, events: &[HistEvent]) -> Result<(), HistoryFault>
    ensures legal { IfOk result (λ _. IsLegal events.now) }
    ensures illegal { (place : ℕ) → result ≡ Err (faults.Illegal place) → IsFirstIllegal events.now place }
{
    let mut checker_state = CheckerState::new(alloc);
    for (place, event) in events.iter().enumerate() {
        if !checker_state.enter(alloc, event)? {
            return Err(HistoryFault::Illegal { place });
        }
    }
    Ok(())
}
