//! The cluster as it is as long as it isn't spent.

ghost use Rattle.std.specs.Prelude.{◌≡◌};
ghost use Rattle.sheep_world.specs.NodeSteps.{at_rest};
ghost use Rattle.sheep_world.specs.Opening.{no_outputs};

use crate::cluster_log::ClusterLog;
use crate::control::Control;
use crate::guests::Guests;
use crate::hosts::Hosts;
use crate::progress::ClientAsk;
use message_wire::Wire;
use peer_proto::SendList;
use sheep_node::{Input, Outputs, ReplyList};
use std::alloc::Global;
use std::collections::VecDeque;
use std::marker::Model;

/// The nodes, the log, the wire, the sessions and the phase. Contracts see the record `World` of `specs/World.antt`. Each event takes it
/// and gives it back, so that none is left that is out of memory in the middle of one.
#[derive(Drop)]
pub(crate) struct WorldState {
    pub alloc: Global,
    pub hosts: Hosts,
    pub log: ClusterLog,
    pub wire: Wire,
    pub guests: Guests,
    /// The place of the present phase.
    pub phase: usize,
    /// The controls that aren't taken, the next one first.
    pub controls: VecDeque<Control>,
    /// How many messages may still be lost in this phase.
    pub losses: u32,
    pub asked: Option<ClientAsk>,
    /// The input and the outputs of the last step, if a node stepped in the last event.
    pub input: Option<Input>,
    pub outputs: Outputs,
}

impl Model for WorldState {
    ghost use Rattle.std.specs.Prelude.{List, map};
    ghost use Rattle.std.specs.Coded.{codes, coded_ℕ};
    ghost use Rattle.std.specs.FinMap as tree;
    ghost use Rattle.std.specs.FinSet as set;
    ghost use Rattle.std.specs.Ordering.{nat_cmp};
    ghost use Rattle.object_store.specs.Store.{SeenRow};
    ghost use Rattle.gateway.specs.State.{Work};
    ghost use Rattle.message_wire.specs.declared.packet.Packet.{Packet};
    ghost use Rattle.message_wire.specs.Message.{name_cmp};
    ghost use Rattle.sheep_node.specs.declared.course.Request.{Request};
    ghost use Rattle.sheep_node.specs.declared.session.Session.{Session};
    ghost use Rattle.sheep_world.specs.declared.progress.SessionProgress.{SessionProgress};
    ghost use Rattle.sheep_world.specs.Controls.{control_statement};
    ghost use Rattle.sheep_world.specs.World.{Host, World};

    ghost Value = { World };

    ghost coded = { Prim.hlevel (
      codes,
      tree.code {X = Packet} {R = name_cmp} (Prim.hlevel codes) (Prim.hlevel codes),
      tree.code {X = SessionProgress} {R = nat_cmp} coded_ℕ (Prim.hlevel codes),
      tree.code {X = Host} {R = nat_cmp} coded_ℕ (Prim.hlevel (
        codes,
        tree.code {X = List SeenRow} {R = nat_cmp} coded_ℕ (Prim.hlevel codes),
        tree.code {X = Work} {R = nat_cmp} coded_ℕ (Prim.hlevel codes),
        set.code {R = nat_cmp} coded_ℕ,
        tree.code {X = Session} {R = nat_cmp} coded_ℕ (Prim.hlevel codes),
        tree.code {X = Request} {R = nat_cmp} coded_ℕ (Prim.hlevel codes),
      )),
    ) };

    ghost view = { λ state. record {
      hosts = state.hosts;
      log = state.log;
      wire = state.wire;
      guests = state.guests;
      phase = state.phase;
      controls = map control_statement state.controls.items;
      losses = state.losses;
      asked = state.asked;
      input = state.input;
      outputs = state.outputs;
    } };
}

/// The outputs of no step. Takes no memory.
pub(crate) fn no_outputs(alloc: Global) -> Outputs
    ensures { result ≡ no_outputs }
{
    Outputs {
        sends: SendList::new(alloc),
        say: None,
        replies: ReplyList::new(alloc),
        put: None,
    }
}

impl WorldState {
    /// No node steps. Takes no memory.
    pub fn at_rest(self) -> WorldState
        ensures { result ≡ at_rest self }
    {
        WorldState {
            input: None,
            outputs: no_outputs(self.alloc),
            ..self
        }
    }
}
