//! A recovery over a node, in which each step is made only where it may be.

ghost use Rattle.std.specs.Prelude.{◌≡◌, ◌≤◌, map, All};
ghost use Rattle.std.specs.List.Sorted.{IsStrictlyIncreasing};
ghost use Rattle.object_id.specs.declared.node.NodeId.{NodeId};
ghost use Rattle.object_id.specs.Node.{IsNode};
ghost use Rattle.object_list.specs.Gathered.{has_node};

use super::node::Node;
use object_id::{Epoch, NoMemory, NodeId, Oid};
use object_store::Key;
use peer_proto::{PeerRsp, PeerSay};
use recovery::{RecoverSends, Recovery, Rows};
use std::alloc::Global;
use std::marker::Model;

/// What a recovery waits for.
#[derive(Clone, Copy, PartialEq, Eq)]
pub enum Waits {
    /// For the next tick.
    Tick,
    /// For an answer or a loss.
    Answers,
    /// For nothing: it is finished.
    Nothing,
}

/// The recovery of node 2.
#[derive(Drop)]
pub struct Trial {
    recovery: Recovery,
    node: Node,
}

impl Model for Trial {
    ghost use Rattle.std.specs.Prelude.{◌≡◌, ℕ};
    ghost use Rattle.recovery.specs.Kept.{recovery_state};
    ghost use Rattle.recovery.specs.Step.{MayStep};

    ghost Value = { ℕ };

    ghost view = { λ trial. trial.node.kept.0 };

    ghost invariant = { λ trial.
        (trial.recovery.me ≡ record { 0 = 2 }) × MayStep (recovery_state trial.recovery (⟦<Node as Rows>⟧.shown trial.node)) };
}

/// Whether a node is one of the members.
fn is_member(members: &[NodeId], node: NodeId) -> bool
    ensures { result ≡ has_node node members.now }
{
    members.contains(&node)
}

impl Trial {
    /// Before the first recovery. `None` if the node has no settled epoch, or has one above its own.
    pub fn new(alloc: Global, node: Node) -> Option<Trial> {
        // Its policy is valid, and its rows are parts of whole blocks.
        let _policy = node.layout.policy();
        let _length = node.layout.length();
        let settled = node.settled.0;
        if 1 <= settled && settled <= node.kept.epoch().0 {
            let recovery = Recovery::new(alloc, NodeId(2));
            Some(Trial { recovery, node })
        } else {
            None
        }
    }

    /// The node enters the next epoch, of the first nine. Whether there is one.
    fn enter(&mut self) -> bool {
        if self.node.kept.epoch().0 < 9 {
            self.node.kept.advance();
            true
        } else {
            false
        }
    }

    /// The recovery of the node's epoch begins. Whether it may.
    fn recover(&mut self, members: &[NodeId]) -> Result<bool, NoMemory>
        requires ascend { IsStrictlyIncreasing (map (λ (node : NodeId). node.0) members.now) }
        requires nodes { All (λ (node : NodeId). IsNode node.0) members.now }
    {
        let epoch = self.node.kept.epoch();
        if 1 < epoch.0 && is_member(members, NodeId(2)) {
            self.recovery.begin(epoch, members, &mut self.node)?;
            Ok(true)
        } else {
            Ok(false)
        }
    }

    /// The node enters the next epoch, and its recovery begins. Whether it may.
    pub fn begin(&mut self, members: &[NodeId]) -> Result<bool, NoMemory>
        requires ascend { IsStrictlyIncreasing (map (λ (node : NodeId). node.0) members.now) }
        requires nodes { All (λ (node : NodeId). IsNode node.0) members.now }
    {
        if self.enter() {
            self.recover(members)
        } else {
            Ok(false)
        }
    }

    /// What a tick asks, with messages from a number on; `None` if it may not come.
    pub fn tick(&mut self, first: u32) -> Result<Option<RecoverSends>, NoMemory> {
        if first <= 99 && self.recovery.can_tick(&self.node) {
            Ok(Some(self.recovery.tick(first, &mut self.node)?))
        } else {
            Ok(None)
        }
    }

    /// A reply comes. Whether it fits.
    fn hear(&mut self, rsp: &PeerRsp) -> Result<bool, NoMemory> {
        if self.recovery.fits(rsp, &self.node) {
            self.recovery.on_reply(rsp, &mut self.node)?;
            Ok(true)
        } else {
            Ok(false)
        }
    }

    /// A message is answered. Whether the answer fits.
    pub fn answer(&mut self, number: u32, say: PeerSay) -> Result<bool, NoMemory> {
        let epoch = self.node.kept.epoch();
        let rsp = PeerRsp { number, epoch, say };
        self.hear(&rsp)
    }

    /// A message is lost. Whether it was awaited.
    pub fn lose(&mut self, number: u32) -> Result<bool, NoMemory> {
        if self.recovery.waits_for(number) {
            self.recovery.on_lost(number, &mut self.node)?;
            Ok(true)
        } else {
            Ok(false)
        }
    }

    /// The node serves a Create of an object. Whether the row is long enough.
    pub fn create(&mut self, key: Key, bytes: &[u8]) -> Result<bool, NoMemory> {
        if bytes.len() <= 512 {
            self.node.put_row(key, 512, bytes)?;
            Ok(true)
        } else {
            Ok(false)
        }
    }

    pub fn waits(&self) -> Waits {
        if self.recovery.finished(&self.node) {
            Waits::Nothing
        } else if self.recovery.can_tick(&self.node) {
            Waits::Tick
        } else {
            Waits::Answers
        }
    }

    pub fn waits_for(&self, number: u32) -> bool {
        self.recovery.waits_for(number)
    }

    pub fn is_missing(&self, oid: Oid) -> bool {
        self.recovery.missing(oid)
    }

    /// The first byte of the open row of a key; `None` if there is none.
    pub fn first_byte(&self, key: Key) -> Result<Option<u8>, NoMemory> {
        let row = self
            .node
            .row_at(key.oid, self.node.kept.epoch())?
            .and_then(|row| row.bytes.as_slice().first().copied());
        Ok(if self.node.has_open(key) { row } else { None })
    }
}
