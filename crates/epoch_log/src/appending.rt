//! What an entry must meet to stand next, as a test.
ghost use Rattle.std.specs.Prelude.{◌≡◌, ◌↔◌, ◌<◌, false, length, slice_index, IsTrue};
ghost use Rattle.epoch_log.specs.Members.{is_member as has_node, node_numbers, HaveWeights, AreMembers};
ghost use Rattle.epoch_log.specs.Appending.{is_format, IsReservable, FitsMembers, MayOpen};

use object_id::{Entry, Member, NodeId, is_name, is_weight};

fn is_member(members: &[Member], node: NodeId) -> bool
    ensures { result ≡ has_node node.0 members.now }
{
    for member in members {
        if member.node == node {
            return true;
        }
    }
    false
}

/// Whether an entry may follow, where these are the members.
pub fn may_follow(members: &[Member], entry: &Entry) -> bool
    ensures { IsTrue result
        ↔ ((is_format entry.now ≡ false) × IsReservable entry.now × FitsMembers members.now entry.now) }
{
    match entry {
        Entry::Format { members: _ } => false,
        Entry::Join { node, vnodes, .. } => {
            node.is_valid() && is_weight(*vnodes) && !is_member(members, *node)
        }
        Entry::Leave { node } => is_member(members, *node),
        Entry::Reweight { node, vnodes } => is_weight(*vnodes) && is_member(members, *node),
        Entry::Reserve { name, origin, .. } => is_name(name.as_slice()) && origin.is_valid(),
        _ => true,
    }
}

fn node_at(members: &[Member], place: usize) -> NodeId
    requires { place < length members.now }
    ensures { result.0 ≡ slice_index (node_numbers members.now) place }
{
    members[place].node
}

/// Whether the numbers ascend, and nodes may have them.
fn are_members(members: &[Member]) -> bool
    ensures { IsTrue result ↔ AreMembers members.now }
{
    for place in 0..members.len() {
        if !node_at(members, place).is_valid() {
            return false;
        }
        if 0 < place && node_at(members, place) <= node_at(members, place - 1) {
            return false;
        }
    }
    true
}

fn have_weights(members: &[Member]) -> bool
    ensures { IsTrue result ↔ HaveWeights members.now }
{
    members.iter().all(|member| is_weight(member.vnodes))
}

/// Whether these members may open a log.
pub fn may_open(members: &[Member]) -> bool
    ensures { IsTrue result ↔ MayOpen members.now }
{
    !members.is_empty() && are_members(members) && have_weights(members)
}
