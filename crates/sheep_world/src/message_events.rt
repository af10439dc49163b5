//! What becomes of the messages in the wire: they are delivered or lost.

ghost use Rattle.std.specs.Prelude.{◌≡◌, None, IfOk};
ghost use Rattle.std.specs.Option.{option_copied, option_and_then};
ghost use Rattle.sheep_node.specs.declared.input.Input.TheVariants as inputs;
ghost use Rattle.sheep_node.specs.CheckWrites.{check_write_on};
ghost use Rattle.sheep_world.specs.World.{node_at, message_at};
ghost use Rattle.sheep_world.specs.NodeSteps.{node_stepped, at_rest};
ghost use Rattle.sheep_world.specs.HistoryAdditions.{replies_grown, delivery_grown};
ghost use Rattle.sheep_world.specs.Messages.{without_message, wire_with_reply, reply_sent, message_delivered, loss_used, message_lost};

use crate::check_history::{check_write_grown, request_of};
use crate::delivery::{Delivery, delivery_of};
use crate::world_state::WorldState;
use cluster_script::Script;
use disk_history::HistList;
use message_wire::{MessageName, Packet, Wire};
use object_id::{NoMemory, NodeId};
use peer_proto::{PeerReq, PeerRsp, encode_say};
use sheep_node::{CheckWrite, Input};
use std::alloc::Global;

/// The wire once a request was served: what was said takes the place of the request, on its way back, if the sender is up; else the
/// message goes.
fn wire_with_reply(
    alloc: Global,
    wire: Wire,
    name: MessageName,
    from: NodeId,
    is_up: bool,
    say: Option<&PeerRsp>,
) -> Result<Wire, NoMemory>
    ensures { IfOk result (λ after. after ≡ wire_with_reply name from is_up (option_copied say.entry) wire) }
{
    let mut wire = wire;
    if !is_up {
        drop(wire.take(name));
        return Ok(wire);
    }
    match say {
        None => Ok(wire),
        Some(rsp) => {
            let bytes = encode_say(alloc, rsp)?;
            wire.put(name, Packet::Reply { from, bytes })?;
            Ok(wire)
        }
    }
}

impl WorldState {
    /// A message isn't in the wire. Takes no memory.
    fn without_message(mut self, name: MessageName) -> WorldState
        ensures { result ≡ without_message name self }
    {
        drop(self.wire.take(name));
        self
    }

    /// A request was served: what was said takes its place in the wire, on its way back, if the sender is up; else the message goes.
    fn reply_sent(self, name: MessageName, from: NodeId) -> Result<WorldState, NoMemory>
        ensures { IfOk result (λ after. after ≡ reply_sent name from self) }
    {
        let is_up = self.is_up(name.sender.0);
        let WorldState {
            alloc,
            wire,
            outputs,
            ..
        } = self;
        let wire = wire_with_reply(alloc, wire, name, from, is_up, outputs.say.as_ref())?;
        Ok(WorldState {
            wire,
            outputs,
            ..self
        })
    }

    /// The receiver of a request serves it, and what it says is on its way back.
    fn request_served(
        self,
        script: &Script,
        name: MessageName,
        to: NodeId,
        request: PeerReq,
    ) -> Result<(WorldState, HistList), NoMemory>
        ensures world { IfOk result (λ made. made.0
            ≡ reply_sent name to (node_stepped script.now to.0 (inputs.Request request) (at_rest self))) }
        ensures grown { IfOk result (λ made. made.1 ≡ delivery_grown script.now name self made.0) }
    {
        let none = HistList::new(self.alloc);
        let input = Input::Request(request);
        let (served, grown) = self.at_rest().replied(script, to.0, input, none)?;
        let world = served.reply_sent(name, to)?;
        Ok((world, grown))
    }

    /// The write that a check of a node comes to by a reply.
    fn check_write_on(&self, node: u32, rsp: &PeerRsp) -> Result<Option<CheckWrite>, NoMemory>
        ensures { IfOk result (λ write. write ≡ option_and_then (check_write_on (inputs.Reply rsp.now)) (node_at node self.now)) }
    {
        match self.hosts.get(node) {
            Some(host) => host.node().check_write_on(rsp),
            None => Ok(None),
        }
    }

    /// The sender of a request steps on the reply, which leaves the wire.
    fn reply_brought(
        self,
        script: &Script,
        name: MessageName,
        rsp: PeerRsp,
    ) -> Result<(WorldState, HistList), NoMemory>
        ensures world { IfOk result (λ made. made.0
            ≡ node_stepped script.now name.sender.0 (inputs.Reply rsp) (without_message name (at_rest self))) }
        ensures grown { IfOk result (λ made. made.1 ≡ delivery_grown script.now name self made.0) }
    {
        let node = name.sender.0;
        let write = self.check_write_on(node, &rsp)?;
        let begun = check_write_grown(self.alloc, script, &write)?;
        let (world, grown) = self
            .at_rest()
            .without_message(name)
            .stepped(script, node, Input::Reply(rsp), request_of(&write), begun)?;
        Ok((world, grown))
    }

    /// Deliver: the receiver steps on the message; with the write that a check comes to by it, and behind that what the replies of the
    /// step add to the history. Bytes that are no message's change nothing. A message that isn't there is told as want of memory: it
    /// can't be delivered.
    #[tactic(auto, unfolding(crate::specs::Messages::request_delivered, crate::specs::Messages::reply_delivered))]
    pub fn message_delivered(
        self,
        script: &Script,
        name: MessageName,
    ) -> Result<(WorldState, HistList), NoMemory>
        ensures world { IfOk result (λ made. made.0 ≡ message_delivered script.now name self) }
        ensures grown { IfOk result (λ made. made.1 ≡ delivery_grown script.now name self made.0) }
    {
        match delivery_of(self.alloc, self.wire.get(name))? {
            Delivery::NoMessage => Err(NoMemory),
            Delivery::Unreadable => {
                let none = HistList::new(self.alloc);
                Ok((self.at_rest(), none))
            }
            Delivery::Request { to, request } => self.request_served(script, name, to, request),
            Delivery::Reply(rsp) => self.reply_brought(script, name, rsp),
        }
    }

    /// So many messages may still be lost. Takes no memory.
    fn with_losses(self, losses: u32) -> WorldState
        ensures { result ≡ record self { losses = losses } }
    {
        WorldState { losses, ..self }
    }

    /// How many losses are left once a message is lost: one less if both its ends are up. Takes no memory.
    fn losses_after(&self, name: MessageName) -> u32
        ensures { result ≡ (loss_used name (message_at name self.now) self.now).losses }
    {
        match self.wire.get(name) {
            Some(packet) if self.are_ends_up(name, packet) => self.losses.saturating_sub(1),
            _ => self.losses,
        }
    }

    /// LoseRequest and LoseReply: the message leaves the wire, and the sender of the request steps on the loss, if it is up; with what the
    /// replies of the step add to the history.
    #[tactic(auto, unfolding(crate::specs::Messages::message_lost))]
    pub fn message_lost(
        self,
        script: &Script,
        name: MessageName,
    ) -> Result<(WorldState, HistList), NoMemory>
        ensures world { IfOk result (λ made. made.0 ≡ message_lost script.now name self) }
        ensures grown { IfOk result (λ made. made.1 ≡ replies_grown script.now self None made.0) }
    {
        let none = HistList::new(self.alloc);
        let MessageName { sender, number } = name;
        let losses = self.losses_after(name);
        let world = self.at_rest().with_losses(losses).without_message(name);
        if !world.is_up(sender.0) {
            return Ok((world, none));
        }
        world.replied(script, sender.0, Input::Lost { number }, none)
    }
}
