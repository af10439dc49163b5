//! Why a trace wasn't replayed.

ghost use Rattle.std.specs.Prelude.{◌≡◌};

use object_id::NoMemory;

/// The place, from 1, of the first line that isn't an event that may be made after those before it; one past the last
/// line where a phase of the script isn't ended.
#[derive(Clone, Copy, Debug, PartialEq, Eq)]
pub struct BadEvent {
    pub place: u32,
}

/// Why a trace wasn't replayed.
#[derive(Clone, Copy, Debug, PartialEq, Eq)]
pub enum TraceFault {
    Bad(BadEvent),
    NoMemory,
}

impl From<BadEvent> for TraceFault {
    ghost use Rattle.trace_text.specs.declared.fault.TraceFault.TheVariants as faults;

    ghost from_gives = { λ bad e. e ≡ faults.Bad bad };

    fn from(bad: BadEvent) -> TraceFault {
        TraceFault::Bad(bad)
    }
}

impl From<NoMemory> for TraceFault {
    ghost use Rattle.trace_text.specs.declared.fault.TraceFault.TheVariants as faults;

    ghost from_gives = { λ _ e. e ≡ faults.NoMemory };

    fn from(_error: NoMemory) -> TraceFault {
        TraceFault::NoMemory
    }
}
