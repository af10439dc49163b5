ghost use Rattle.std.specs.Prelude.{◌≡◌};

use object_id::NoMemory;
use thiserror::Error;

/// Why an event wasn't made.
#[derive(Clone, Copy, Debug, PartialEq, Eq, Error)]
pub enum ApplyFault {
    /// The event's condition is false. The world is unchanged.
    #[error("the event may not happen")]
    NotEnabled,
    /// The world is spent.
    #[error("no memory")]
    NoMemory,
}

impl From<NoMemory> for ApplyFault {
    ghost use Rattle.sheep_world.specs.declared.fault.ApplyFault.TheVariants as faults;

    ghost from_gives = { λ _ e. e ≡ faults.NoMemory };

    fn from(_error: NoMemory) -> ApplyFault {
        ApplyFault::NoMemory
    }
}
