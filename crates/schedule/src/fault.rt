ghost use Rattle.std.specs.Prelude.{◌≡◌};

use object_id::NoMemory;

/// Why a run of given events was not made.
#[derive(Clone, Copy, Debug, PartialEq, Eq)]
pub enum RunFault {
    /// The event at this place, from 0, isn't enabled after those before it.
    NotEnabled { place: u32 },
    NoMemory,
}

impl From<NoMemory> for RunFault {
    ghost use Rattle.schedule.specs.declared.fault.RunFault.TheVariants as faults;

    ghost from_gives = { λ _ e. e ≡ faults.NoMemory };

    fn from(_error: NoMemory) -> RunFault {
        RunFault::NoMemory
    }
}
