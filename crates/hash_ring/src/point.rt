ghost use Rattle.std.specs.Prelude.{◌≡◌, ◌↔◌, ◌≤◌, ◌++◌, length, take, All, Any, IfOk, IsTrue};
ghost use Rattle.object_id.specs.declared.entry.Member.{Member};
ghost use Rattle.hash_ring.specs.Placement.{AreWeighted};
ghost use Rattle.hash_ring.specs.Points.{NodesHaveOneZone, points_of_member};

use crate::hash::virtual_hash;
use object_id::{Member, NoMemory, NodeId, is_weight};

/// A virtual node on the circle, with the zone of its node. Points are ordered by hash, then by number.
#[derive(Clone, Copy, Debug, PartialEq, Eq, PartialOrd, Ord)]
pub struct Point {
    pub hash: u64,
    pub node: NodeId,
    pub zone: u32,
}

/// Whether no node stands twice in the members and each has a weight that there may be: what [`crate::Ring::build`] asks. Costs a look
/// at each pair of members.
pub fn are_weighted(members: &[Member]) -> bool
    ensures { IsTrue result ↔ AreWeighted members.now }
{
    for k in 0..members.len() {
        let member = members[k];
        if !is_weight(member.vnodes) {
            return false;
        }
        if stands_before(members, k, member.node) {
            return false;
        }
    }
    true
}

/// Whether a node is one of the first `end` members.
fn stands_before(members: &[Member], end: usize, node: NodeId) -> bool
    requires { end ≤ length members.now }
    ensures { IsTrue result ↔ Any (λ (m : Member). m.node.0 ≡ node.0) (take end members.now) }
{
    members[..end].iter().any(|member| member.node == node)
}

/// Whether the points of each node have one zone: what [`crate::Ring::from_points`] asks. Costs a look at each pair of points.
pub fn nodes_have_one_zone(points: &[Point]) -> bool
    ensures { IsTrue result ↔ NodesHaveOneZone points.now }
{
    for point in points {
        if !has_one_zone(points, *point) {
            return false;
        }
    }
    true
}

/// Whether all points of a point's node have its zone.
fn has_one_zone(points: &[Point], of: Point) -> bool
    ensures { IsTrue result ↔ All (λ (p : Point). p.node.0 ≡ of.node.0 → p.zone ≡ of.zone) points.now }
{
    points
        .iter()
        .all(|point| point.node != of.node || point.zone == of.zone)
}

/// Adds a member's points at the end. Without memory some of them may stand there.
pub fn add_points(points: &mut Vec<Point>, member: &Member) -> Result<(), NoMemory>
    ensures { IfOk result (λ _. points.new.items ≡ points.old.items ++ points_of_member member.now) }
{
    for number in 0..u32::from(member.vnodes) {
        points.push(Point {
            hash: virtual_hash(member.node, number),
            node: member.node,
            zone: member.zone,
        })?;
    }
    Ok(())
}
