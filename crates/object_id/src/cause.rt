use crate::node::{Epoch, NodeId};
use crate::oid::Oid;

/// Why a guest request was refused.
#[derive(Clone, Copy, Debug, PartialEq, Eq)]
pub enum Cause {
    /// The disk is held by this session.
    VdiLocked {
        session: u32,
    },
    NoVdi,
    NoTag,
    NoBaseVdi,
    VdiExist,
    /// A write on an opened snapshot.
    Readonly,
    /// No disk is open.
    VdiNotLocked,
    FullVdi,
    /// An end past the disk, or a second open disk.
    InvalidParms,
    /// The epoch has fewer zones than the object wants, for a read fewer than it needs.
    Halt {
        members: u32,
        wanted: u32,
    },
    /// A node answered that the attempt's epoch `own` is below its own, `peer`.
    OldEpoch {
        node: NodeId,
        own: Epoch,
        peer: Epoch,
    },
    /// A node answered that the attempt's epoch `own` is above its own, `peer`.
    NewEpoch {
        node: NodeId,
        own: Epoch,
        peer: Epoch,
    },
    /// The object isn't recovered yet on this node.
    Recovery {
        node: NodeId,
        epoch: Epoch,
    },
    /// The message to this node was lost.
    Link {
        node: NodeId,
    },
    /// This node has no open row of the object.
    NoObj {
        node: NodeId,
        oid: Oid,
    },
}
