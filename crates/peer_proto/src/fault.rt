ghost use Rattle.std.specs.Prelude.{◌≡◌};

use object_id::NoMemory;
use sheep_proto::HeaderFault;
use thiserror::Error;

/// Why bytes were not read as a peer message. Where several stand together, the one listed first is given.
#[derive(Clone, Copy, Debug, PartialEq, Eq, Error)]
pub enum PeerFault {
    #[error("less than a header")]
    ShortHeader,
    #[error("not this version")]
    VerMismatch,
    #[error("no opcode of peer messages")]
    UnknownOpcode,
    /// A field is outside what its place allows, or the fields don't go together.
    #[error("a field that no message has")]
    BadField,
    #[error("no memory")]
    NoMemory,
}

impl From<NoMemory> for PeerFault {
    ghost use Rattle.peer_proto.specs.declared.fault.PeerFault.TheVariants as faults;

    ghost from_gives = { λ _ e. e ≡ faults.NoMemory };

    fn from(_error: NoMemory) -> PeerFault {
        PeerFault::NoMemory
    }
}

impl From<HeaderFault> for PeerFault {
    ghost use Rattle.peer_proto.specs.Header.{peer_fault};

    ghost from_gives = { λ fault e. e ≡ peer_fault fault };

    fn from(fault: HeaderFault) -> PeerFault {
        match fault {
            HeaderFault::ShortHeader => PeerFault::ShortHeader,
            HeaderFault::VerMismatch => PeerFault::VerMismatch,
            HeaderFault::UnknownOpcode => PeerFault::UnknownOpcode,
        }
    }
}
