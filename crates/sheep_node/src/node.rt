//! A node of the cluster, and that it is spent at want of memory.

ghost use Rattle.std.specs.Prelude.{◌≡◌, false, true, length, IfOk, IsOk, OnErr, OnOk};
ghost use Rattle.std.specs.Option.{option_copied};
ghost use Rattle.std.specs.FinMap as tree;
ghost use Rattle.sheep_node.specs.declared.input.Input.TheVariants as inputs;
ghost use Rattle.sheep_node.specs.State.{initial_node};
ghost use Rattle.sheep_node.specs.CheckWrites.{check_write_on, is_message_comparing};
ghost use Rattle.sheep_node.specs.Step.{node_step};
ghost use Rattle.sheep_node.specs.May.{May, has_numbers};
ghost use Rattle.sheep_node.specs.LogReading.{is_epoch_member};
ghost use Rattle.sheep_node.specs.MayTests.{may};

use crate::asks::objects_have_ids;
use crate::check_write::CheckWrite;
use crate::course::Request;
use crate::input::Input;
use crate::limits::SENDS_MAX;
use crate::outputs::Outputs;
use crate::session::Session;
use crate::state::{NodeState, NodeStore};
use crate::step_state::StepState;
use object_id::{NoMemory, NodeId};
use peer_proto::PeerRsp;
use peer_service::PeerState;
use std::alloc::Global;
use std::marker::Model;

/// A node of the cluster. A call of `step` that answers out of memory spends it; no other call does, and a spent node makes no other call.
/// Contracts see whether it is spent, and the record `Node` of `specs/State.antt`; a node that isn't spent is sound, as
/// `specs/NodeInvariant.antt` has it.
pub struct Node {
    spent: bool,
    step: StepState,
}

/// Written out, so that letting a node go is one call wherever it is done, and not a case for each of its parts there.
impl Drop for Node {
    fn drop(self) {
        let Node { spent: _, step } = self;
        drop(step);
    }
}

impl Model for Node {
    ghost use Rattle.std.specs.Prelude.{◌≡◌, false, List};
    ghost use Rattle.std.specs.Coded.{codes, coded_ℕ};
    ghost use Rattle.std.specs.FinMap as tree;
    ghost use Rattle.std.specs.FinSet as set;
    ghost use Rattle.std.specs.Ordering.{nat_cmp};
    ghost use Rattle.object_store.specs.Store.{SeenRow};
    ghost use Rattle.gateway.specs.State.{Work};
    ghost use Rattle.sheep_node.specs.declared.course.Request.{Request};
    ghost use Rattle.sheep_node.specs.declared.session.Session.{Session};
    ghost use Rattle.sheep_node.specs.StepState.{at_first};
    ghost use Rattle.sheep_node.specs.NodeInvariant.{IsSoundNode};
    ghost use Rattle.sheep_node.specs.SpentNode.{NodeOrSpent};

    ghost Value = { NodeOrSpent };

    ghost coded = { Prim.hlevel (
      codes,
      tree.code {X = List SeenRow} {R = nat_cmp} coded_ℕ (Prim.hlevel codes),
      tree.code {X = Work} {R = nat_cmp} coded_ℕ (Prim.hlevel codes),
      set.code {R = nat_cmp} coded_ℕ,
      tree.code {X = Session} {R = nat_cmp} coded_ℕ (Prim.hlevel codes),
      tree.code {X = Request} {R = nat_cmp} coded_ℕ (Prim.hlevel codes),
    ) };

    ghost view = { λ node. record { spent = node.spent; node = node.step.node } };

    ghost invariant = { λ node. node.spent ≡ false → (node.step ≡ at_first node.step.node) × IsSoundNode node.step.node };
}

impl Node {
    /// A node that has read nothing. Takes no memory.
    pub fn new(alloc: Global, me: NodeId, tries: u32) -> Node
        ensures { result ≡ record { spent = false; node = initial_node me tries } }
    {
        Node {
            spent: false,
            step: StepState::new(NodeState::new(alloc, me, tries)),
        }
    }

    /// Whether the node answered that it is out of memory. Takes no memory.
    pub fn spent(&self) -> bool
        ensures { result ≡ self.now.spent }
    {
        self.spent
    }

    /// Whether the node may step on an input: it has numbers left for what it may send, and the input meets its condition. Takes no memory.
    pub fn may(&self, input: &Input) -> bool
        requires { self.now.spent ≡ false }
        ensures { result ≡ may input.now self.now.node }
    {
        self.step.node.may(input)
    }

    /// What its peers reach of it.
    pub fn peer(&self) -> &PeerState<NodeStore>
        requires { self.now.spent ≡ false }
        ensures { result.now ≡ self.now.node.peer }
    {
        &self.step.node.rows.peer
    }

    /// How many entries of the log it has read.
    pub fn read_len(&self) -> usize
        requires { self.now.spent ≡ false }
        ensures { result ≡ length self.now.node.peer.entries }
    {
        self.peer().directory().entries().len()
    }

    /// Whether the node has numbers left for what a step may send. Takes no memory.
    pub fn has_numbers(&self) -> bool
        requires { self.now.spent ≡ false }
        ensures { result ≡ has_numbers self.now.node }
    {
        self.step.node.sends <= SENDS_MAX
    }

    /// Whether the node is a member of the newest epoch that it has read. Takes no memory; looks through the epoch's members.
    pub fn is_member(&self) -> bool
        requires { self.now.spent ≡ false }
        ensures { result ≡ is_epoch_member self.now.node }
    {
        self.step.node.is_member()
    }

    /// The session of a number; `None` if it has asked the node nothing. Takes no memory; costs a look-up.
    pub fn session(&self, number: u32) -> Option<&Session>
        requires { self.now.spent ≡ false }
        ensures { option_copied result ≡ tree.get self.now.node.sessions number }
    {
        self.step.node.sessions.get(number)
    }

    /// The request of a number; `None` if the node has none that is without reply. Takes no memory; costs a look-up.
    pub fn request(&self, req: u32) -> Option<&Request>
        requires { self.now.spent ≡ false }
        ensures { option_copied result ≡ tree.get self.now.node.requests req }
    {
        self.step.node.requests.get(req)
    }

    /// The write that a check of the node comes to by a reply, before the node steps on that; `None` if none does, or the reply fits no
    /// message of its gateway. The node stays as it is. Takes memory only for the last reply to a check that compares: a copy of the
    /// pieces that came, these one behind the other, and the value.
    pub fn check_write_on(&self, rsp: &PeerRsp) -> Result<Option<CheckWrite>, NoMemory>
        requires { self.now.spent ≡ false }
        ensures write { IfOk result (λ write. write ≡ check_write_on (inputs.Reply rsp.now) self.now.node) }
        ensures memory { is_message_comparing self.now.node rsp.now.number ≡ false → IsOk result }
    {
        self.step.node.check_write_on(rsp)
    }

    /// A step on an input: exactly the step of the definition, with what it gives. Without memory the node is spent.
    pub fn step(&mut self, input: Input) -> Result<Outputs, NoMemory>
        requires live { self.old.spent ≡ false }
        requires may { May input self.old.node }
        ensures node { OnOk result (self.new ≡ record { spent = false; node = (node_step input self.old.node).node }) }
        ensures outputs { IfOk result (λ outputs. outputs ≡ (node_step input self.old.node).outputs) }
        ensures spent { OnErr result (self.new.spent ≡ true) }
    {
        objects_have_ids(&input);
        match self.step.step(input) {
            Ok(()) => Ok(self.step.take_outputs()),
            Err(NoMemory) => {
                self.spent = true;
                Err(NoMemory)
            }
        }
    }
}
