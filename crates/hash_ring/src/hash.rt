ghost use Rattle.std.specs.Prelude.{◌≡◌};
ghost use Rattle.hash_ring.specs.Circle.{hash_of_object, hash_of_virtual};

use object_id::{NodeId, Oid, fnv1a};

/// Where an object lies on the circle: the FNV-1a hash of the 8 bytes of its id, little-endian. Costs these bytes.
#[tactic(auto, unfolding(crate::specs::Circle::hash_of_object))]
pub fn object_hash(oid: Oid) -> u64
    ensures { result ≡ hash_of_object oid }
{
    fnv1a(&oid.as_u64().to_le_bytes())
}

/// Where a virtual node lies: the hash of its node's number and its own, 4 bytes each, little-endian.
#[tactic(auto, unfolding(crate::specs::Circle::hash_of_virtual))]
pub fn virtual_hash(node: NodeId, number: u32) -> u64
    ensures { result ≡ hash_of_virtual node.0 number }
{
    let mut bytes = [0u8; 8];
    bytes[..4].copy_from_slice(&node.0.to_le_bytes());
    bytes[4..].copy_from_slice(&number.to_le_bytes());
    fnv1a(&bytes)
}
