ghost use Rattle.std.specs.Prelude.{◌≡◌};

use object_id::NoMemory;
use std::alloc::AllocError;

/// Why nothing is told of a case.
#[derive(Debug, Drop, thiserror::Error)]
pub enum CaseFault {
    #[error("out of memory")]
    NoMemory,
    /// What stands before the trace is no script, or is longer than one may be.
    #[error("bad script")]
    Script,
    /// A line of the trace is no event.
    #[error("bad event")]
    Event,
}

impl From<NoMemory> for CaseFault {
    ghost use Rattle.step_text.specs.declared.case_fault.CaseFault.TheVariants as faults;

    ghost from_gives = { λ _ e. e ≡ faults.NoMemory };

    fn from(_: NoMemory) -> CaseFault {
        CaseFault::NoMemory
    }
}

impl From<AllocError> for CaseFault {
    ghost use Rattle.step_text.specs.declared.case_fault.CaseFault.TheVariants as faults;

    ghost from_gives = { λ _ e. e ≡ faults.NoMemory };

    fn from(_: AllocError) -> CaseFault {
        CaseFault::NoMemory
    }
}
