//! Why a worker makes no further event.

ghost use Rattle.std.specs.Prelude.{◌≡◌};

use object_id::NoMemory;
use stamp_clock::ClockSpent;
use std::alloc::AllocError;

/// Why a worker makes no further event.
#[derive(Clone, Copy)]
pub enum WorkFault {
    /// The clock has no stamp left.
    NoStamp,
    NoMemory,
}

impl From<NoMemory> for WorkFault {
    ghost use Rattle.live_workers.specs.declared.work_fault.WorkFault.TheVariants as faults;

    ghost from_gives = { λ _ e. e ≡ faults.NoMemory };

    fn from(_error: NoMemory) -> WorkFault {
        WorkFault::NoMemory
    }
}

impl From<AllocError> for WorkFault {
    ghost use Rattle.live_workers.specs.declared.work_fault.WorkFault.TheVariants as faults;

    ghost from_gives = { λ _ e. e ≡ faults.NoMemory };

    fn from(_error: AllocError) -> WorkFault {
        WorkFault::NoMemory
    }
}

impl From<ClockSpent> for WorkFault {
    ghost use Rattle.live_workers.specs.declared.work_fault.WorkFault.TheVariants as faults;

    ghost from_gives = { λ _ e. e ≡ faults.NoStamp };

    fn from(_error: ClockSpent) -> WorkFault {
        WorkFault::NoStamp
    }
}
