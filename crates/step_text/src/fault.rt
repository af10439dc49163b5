ghost use Rattle.std.specs.Prelude.{◌≡◌};

use object_id::NoMemory;
use peer_proto::PeerFault;
use std::alloc::{AllocError, AllocFailed};

/// Why a line of the list gave nothing.
#[derive(Debug, Drop, thiserror::Error)]
pub enum Fault {
    #[error("out of memory")]
    NoMemory,
    /// A word is missing, or isn't one that may stand in its place.
    #[error("bad word")]
    Word,
    /// The node ran out of memory in an earlier step.
    #[error("spent")]
    Spent,
    /// The node may not step on this input.
    #[error("may not step")]
    MayNot,
}

impl From<NoMemory> for Fault {
    ghost use Rattle.step_text.specs.declared.fault.Fault.TheVariants as faults;

    ghost from_gives = { λ _ e. e ≡ faults.NoMemory };

    fn from(_: NoMemory) -> Fault {
        Fault::NoMemory
    }
}

impl From<PeerFault> for Fault {
    fn from(fault: PeerFault) -> Fault {
        match fault {
            PeerFault::NoMemory => Fault::NoMemory,
            _ => Fault::Word,
        }
    }
}

impl From<AllocError> for Fault {
    fn from(_: AllocError) -> Fault {
        Fault::NoMemory
    }
}

impl<T: Drop> From<AllocFailed<T>> for Fault {
    fn from(_: AllocFailed<T>) -> Fault {
        Fault::NoMemory
    }
}
