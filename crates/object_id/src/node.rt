ghost use Rattle.std.specs.Prelude.{◌↔◌, IsTrue};
ghost use Rattle.object_id.specs.Node.{IsNode, IsZone, IsSession, IsWeight};

use crate::limits::{NODES_MAX, SESSIONS_MAX, VNODES_MAX, ZONES_MAX};

/// The number of a node, below [`NODES_MAX`]. A number is never given to a second node.
#[derive(Clone, Copy, Debug, PartialEq, Eq, PartialOrd, Ord)]
pub struct NodeId(pub u32);

/// A membership epoch, counted from 1. Each change of the members begins the next one.
#[derive(Clone, Copy, Debug, PartialEq, Eq, PartialOrd, Ord)]
pub struct Epoch(pub u32);

impl NodeId {
    /// Whether a node may have this number.
    pub fn is_valid(self) -> bool
        ensures { IsTrue result ↔ IsNode self.0 }
    {
        self.0 < NODES_MAX
    }
}

/// Whether a zone may have this number.
pub fn is_zone(zone: u32) -> bool
    ensures { IsTrue result ↔ IsZone zone }
{
    zone < ZONES_MAX
}

/// Whether a session may have this number.
pub fn is_session(session: u32) -> bool
    ensures { IsTrue result ↔ IsSession session }
{
    1 <= session && session <= SESSIONS_MAX
}

/// Whether a member may have this weight, its number of virtual nodes.
pub fn is_weight(vnodes: u16) -> bool
    ensures { IsTrue result ↔ IsWeight vnodes }
{
    1 <= vnodes && vnodes <= VNODES_MAX
}
