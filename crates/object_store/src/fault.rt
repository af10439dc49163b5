ghost use Rattle.std.specs.Prelude.{◌≡◌};

use object_id::NoMemory;
use std::alloc::{AllocError, AllocFailed};
use thiserror::Error;

/// Why a store refused a call, or could not make it. Where several stand together, the one listed first is given.
#[derive(Clone, Copy, Debug, PartialEq, Eq, Error)]
pub enum StoreFault {
    /// The object has no open row of this index.
    #[error("no such object")]
    NoObj,
    /// The piece ends behind the object's last byte.
    #[error("the piece ends outside the object")]
    OutOfObject,
    #[error("no memory")]
    NoMemory,
}

impl From<NoMemory> for StoreFault {
    ghost use Rattle.object_store.specs.declared.fault.StoreFault.TheVariants as faults;

    ghost from_gives = { λ _ e. e ≡ faults.NoMemory };

    fn from(_error: NoMemory) -> StoreFault {
        StoreFault::NoMemory
    }
}
