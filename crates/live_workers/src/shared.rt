//! What the workers of a live cluster share.

ghost use Rattle.std.specs.Prelude.{◌≡◌, ◌≤◌, false, None, length, All, IfOk};
ghost use Rattle.std.specs.Option.{is_some};
ghost use Rattle.object_id.specs.declared.limits.TheConstants.{NODES_MAX};
ghost use Rattle.live_workers.specs.OtherSteps.{IsOther};

use crate::members::{Members, Others};
use crate::slot::Slot;
use cluster_script::Script;
use crossbeam_channel::{Receiver, Sender, unbounded};
use live_cells::{Carry, Letter, LogCell};
use object_id::{NODES_MAX, NoMemory, NodeId};
use stamp_clock::{Clock, ClockName};
use std::alloc::{AllocError, Global};
use std::sync::{Mutex, Wait};

/// A request that is lost with both its ends, with a mark of the receiver's loss.
#[derive(Drop)]
pub(crate) struct LostRequest<N: ClockName> {
    pub node: NodeId,
    pub number: u32,
    pub carry: Carry<N>,
    pub mark: Carry<N>,
}

/// Both ends of a node's channel.
#[derive(Drop)]
pub(crate) struct Inbox<N: ClockName> {
    pub sender: Sender<Letter<N>, Global>,
    pub receiver: Receiver<Letter<N>, Global>,
}

/// The cluster as its workers share it: each node and the log behind a lock, a channel for each node, and what worker 256 keeps.
#[derive(Drop)]
pub struct Shared<'a, N: ClockName> {
    pub alloc: Global,
    pub script: &'a Script,
    pub(crate) clock: Clock,
    pub(crate) slots: Vec<Mutex<Slot<N>>>,
    pub(crate) log: Mutex<LogCell<N>>,
    pub(crate) inboxes: Vec<Inbox<N>>,
    pub(crate) lost: Sender<LostRequest<N>, Global>,
    pub(crate) losses: Receiver<LostRequest<N>, Global>,
    pub(crate) members: Mutex<Members>,
    ghost of: { clock.id ≡ N.clock },
    // There is a lock and a channel for each node that there may be.
    ghost locks: { length slots.items ≡ NODES_MAX },
    ghost channels: { length inboxes.items ≡ NODES_MAX },
}

/// The channels of all nodes.
fn inboxes<N: ClockName>(alloc: Global) -> Result<Vec<Inbox<N>>, AllocError>
    ensures { IfOk result (λ inboxes. length inboxes.items ≡ NODES_MAX) }
{
    let mut inboxes = Vec::new(alloc);
    for _ in 0..NODES_MAX {
        let (sender, receiver) = unbounded(alloc)?;
        inboxes.push(Inbox { sender, receiver })?;
    }
    Ok(inboxes)
}

/// A lock for each node.
fn slots<N: ClockName>(alloc: Global) -> Result<Vec<Mutex<Slot<N>>>, AllocError>
    ensures { IfOk result (λ slots. length slots.items ≡ NODES_MAX) }
{
    let mut slots = Vec::new(alloc);
    for number in 0..NODES_MAX {
        slots.push(Mutex::new(Slot::empty(number)))?;
    }
    Ok(slots)
}

impl<'a, N: ClockName> Shared<'a, N> {
    /// A cluster without nodes, with its log.
    pub(crate) fn new(
        alloc: Global,
        script: &'a Script,
        clock: Clock,
        log: LogCell<N>,
    ) -> Result<Shared<'a, N>, NoMemory>
        requires { clock.id ≡ N.clock }
        ensures script { IfOk result (λ shared. shared.script.now ≡ script.now) }
        ensures alloc { IfOk result (λ shared. shared.alloc ≡ alloc) }
    {
        let slots = slots(alloc)?;
        let inboxes = inboxes(alloc)?;
        let (lost, losses) = unbounded(alloc)?;
        Ok(Shared {
            alloc,
            script,
            clock,
            slots,
            log: Mutex::new(log),
            inboxes,
            lost,
            losses,
            members: Mutex::new(Members::new(alloc)),
        })
    }

    /// The lock of a node; none where there may be no such node.
    pub(crate) fn slot(&self, node: NodeId) -> Option<&Mutex<Slot<N>>>
        ensures far { NODES_MAX ≤ node.0 → result ≡ None }
        ensures near { result ≡ None → NODES_MAX ≤ node.0 }
    {
        self.slots.get(node.0 as usize)
    }

    /// Whether a node exists, lost or not.
    pub fn has_node<R: Wait>(&self, rt: &R, node: NodeId) -> bool
        ensures { NODES_MAX ≤ node.0 → result ≡ false }
    {
        match self.slot(node) {
            Some(slot) => slot.lock(rt).cell.is_some(),
            None => false,
        }
    }

    /// What the cluster keeps: the nodes with their cells, by ascending number, and the steps at which no node stepped. Costs nothing.
    pub fn into_slots(self) -> (Vec<Mutex<Slot<N>>>, Others)
        ensures slots { length result.0.items ≡ NODES_MAX }
        ensures others { All IsOther result.1 }
    {
        let Shared {
            alloc: _,
            script: _,
            clock: _,
            slots,
            log: _,
            inboxes: _,
            lost: _,
            losses: _,
            members,
        } = self;
        let Members {
            controls: _,
            others,
        } = members.into_inner();
        (slots, others)
    }

    /// Sends letters on their way.
    pub(crate) fn post<R: Wait>(&self, rt: &R, letters: Vec<Letter<N>>) -> Result<(), NoMemory> {
        for letter in letters {
            if let Some(inbox) = self.inboxes.get(letter.to.0 as usize) {
                if inbox.sender.send(rt, letter).is_err() {
                    return Err(NoMemory);
                }
            }
        }
        Ok(())
    }

    /// Sends what a step gave: whether there was a step.
    pub(crate) fn post_sent<R: Wait>(
        &self,
        rt: &R,
        sent: Option<Vec<Letter<N>>>,
    ) -> Result<bool, NoMemory>
        ensures { IfOk result (λ made. made ≡ is_some sent) }
    {
        match sent {
            Some(letters) => {
                self.post(rt, letters)?;
                Ok(true)
            }
            None => Ok(false),
        }
    }
}
