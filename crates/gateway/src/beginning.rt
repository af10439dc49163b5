//! How an attempt begins.

ghost use Rattle.std.specs.Prelude.{◌≡◌, ◌-◌, ◌^◌, ◌<◌, ◌≤◌, length, nat_lt, true, IfOk, IsOk, IsTrue};
ghost use Rattle.object_id.specs.declared.limits.TheConstants.{NODES_MAX};
ghost use Rattle.hash_ring.specs.Placement.{zone_count};
ghost use Rattle.vnode_table.specs.Epochs.{is_entered, members_at};
ghost use Rattle.peer_proto.specs.Work.{IsWork};
ghost use Rattle.object_id.specs.declared.cause.Cause.TheVariants.{Halt};
ghost use Rattle.gateway.specs.Work.{zones_for};
ghost use Rattle.gateway.specs.Attempt.{messages_of};
ghost use Rattle.gateway.specs.Kept.{halt_beginning, sends_beginning, beginning_of};

use crate::act::Sends;
use crate::asking::{messages_of, sends_of, zones_for};
use crate::messages::Messages;
use object_id::{Cause, Epoch, NoMemory, NodeId, TARGETS_MAX};
use peer_proto::ObjWork;
use std::alloc::Global;
use vnode_table::Placement;

/// How the next attempt of a work begins.
#[derive(Debug, Drop)]
pub(crate) enum Beginning {
    /// It is open, and its messages are sent.
    Sends { messages: Messages, sends: Sends },
    /// The work waits for a later epoch, for want of members.
    Waits,
    /// The request is refused, for want of members.
    Refused(Cause),
}

/// An attempt that is to begin in an epoch with too few zones.
fn halted(touched: bool, zones: u32, wanted: u32) -> Beginning
    ensures { result ≡ halt_beginning touched (Halt zones wanted) }
{
    if touched {
        Beginning::Waits
    } else {
        Beginning::Refused(Cause::Halt {
            members: zones,
            wanted,
        })
    }
}

/// An attempt that begins with a message to each of these targets, or to one of them.
fn sent(
    alloc: Global,
    me: NodeId,
    work: &ObjWork,
    ended: u64,
    first: u32,
    epoch: Epoch,
    targets: &[NodeId],
) -> Result<Beginning, NoMemory>
    requires work { IsWork work.now }
    requires some { 0 < length targets.now }
    requires few { length targets.now ≤ TARGETS_MAX }
    requires room { first ≤ 2 ^ 32 - NODES_MAX }
    ensures { IfOk result (λ beginning. beginning ≡ sends_beginning me epoch work.now (messages_of work.now ended first targets.now)) }
{
    let messages = messages_of(alloc, work, ended, first, targets)?;
    let list = sends_of(alloc, me, epoch, work, messages.as_slice())?;
    Ok(Beginning::Sends {
        messages,
        sends: Sends { list },
    })
}

/// Begins an attempt of a work in an epoch. Costs a look-up of the object's targets, and takes the messages and the bytes that
/// they send; in too few zones it takes nothing.
pub(crate) fn begin_attempt(
    alloc: Global,
    me: NodeId,
    work: &ObjWork,
    ended: u64,
    touched: bool,
    first: u32,
    epoch: Epoch,
    place: &Placement,
) -> Result<Beginning, NoMemory>
    requires work { IsWork work.now }
    requires entered { IsTrue (is_entered place.now epoch.0) }
    requires room { first ≤ 2 ^ 32 - NODES_MAX }
    ensures beginning { IfOk result (λ beginning. beginning ≡ beginning_of place.now me work.now ended touched first epoch) }
    ensures memory { nat_lt (zone_count (members_at place.now epoch.0)) (zones_for work.now) ≡ true → IsOk result }
{
    let mut targets = [NodeId(0); TARGETS_MAX];
    let count = place.targets_at(epoch, work.oid(), work.policy(), &mut targets);
    let zones = zones_for(work);
    if count < zones as usize {
        Ok(halted(touched, count as u32, zones as u32))
    } else {
        sent(alloc, me, work, ended, first, epoch, &targets[..count])
    }
}
