//! Why steps weren't merged.

ghost use Rattle.std.specs.Prelude.{◌≡◌};

use object_id::NoMemory;

/// Why steps weren't merged.
#[derive(Clone, Copy, Debug, PartialEq, Eq)]
pub enum MergeFault {
    /// The step at this place, from 0, isn't enabled in its turn, or makes something else than it keeps.
    Clash { place: usize },
    NoMemory,
}

impl From<NoMemory> for MergeFault {
    ghost use Rattle.live_merge.specs.declared.fault.MergeFault.TheVariants as faults;

    ghost from_gives = { λ _ e. e ≡ faults.NoMemory };

    fn from(_error: NoMemory) -> MergeFault {
        MergeFault::NoMemory
    }
}
