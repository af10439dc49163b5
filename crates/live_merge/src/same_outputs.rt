//! Whether two steps gave the same.

ghost use Rattle.std.specs.Prelude.{◌≡◌, ◌↔◌, IsTrue};

use crate::same_guest::same_answer;
use crate::same_message::{same_reply, same_request};
use object_id::{Entry, NodeId};
use peer_proto::{GuestRsp, PeerReq, PeerRsp};
use sheep_node::Outputs;

/// Whether both lists send the same requests to the same nodes, in the same order.
fn same_sends(one: &[(NodeId, PeerReq)], other: &[(NodeId, PeerReq)]) -> bool
    ensures { IsTrue result ↔ (one.now ≡ other.now) }
{
    if one.len() != other.len() {
        return false;
    }
    for place in 0..one.len() {
        if one[place].0 != other[place].0 || !same_request(&one[place].1, &other[place].1) {
            return false;
        }
    }
    true
}

/// Whether both lists reply the same to the same requests, in the same order.
fn same_replies(one: &[(u32, GuestRsp)], other: &[(u32, GuestRsp)]) -> bool
    ensures { IsTrue result ↔ (one.now ≡ other.now) }
{
    if one.len() != other.len() {
        return false;
    }
    for place in 0..one.len() {
        if one[place].0 != other[place].0 || !same_answer(&one[place].1, &other[place].1) {
            return false;
        }
    }
    true
}

fn same_say_option(one: &Option<PeerRsp>, other: &Option<PeerRsp>) -> bool
    ensures { IsTrue result ↔ (one.now ≡ other.now) }
{
    match (one, other) {
        (Some(reply), Some(said)) => same_reply(reply, said),
        (None, None) => true,
        _ => false,
    }
}

fn same_put(one: &Option<Entry>, other: &Option<Entry>) -> bool
    ensures { IsTrue result ↔ (one.now ≡ other.now) }
{
    match (one, other) {
        (Some(entry), Some(put)) => entry.same(put),
        (None, None) => true,
        _ => false,
    }
}

/// Whether both steps gave the same.
pub(crate) fn same_outputs(one: &Outputs, other: &Outputs) -> bool
    ensures { IsTrue result ↔ (one.now ≡ other.now) }
{
    same_sends(one.sends.as_slice(), other.sends.as_slice())
        && same_say_option(&one.say, &other.say)
        && same_replies(one.replies.as_slice(), other.replies.as_slice())
        && same_put(&one.put, &other.put)
}
