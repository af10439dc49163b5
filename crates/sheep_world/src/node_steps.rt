//! One node's step in the world: what it sends enters the wire, and what it replied to is answered.

ghost use Rattle.std.specs.Prelude.{◌≡◌, ◌++◌, fold, None, IfOk};
ghost use Rattle.sheep_world.specs.StepsInParts.{with_client_outputs, with_outputs};
ghost use Rattle.sheep_world.specs.HistoryAdditions.{replies_grown};
ghost use Rattle.sheep_world.specs.RepliesInParts.{AreRepliesAdded};
ghost use Rattle.sheep_world.specs.NodeSteps.{request_name, wire_with_request, node_stepped};

use crate::reply_history::with_replies;
use crate::world_state::WorldState;
use cluster_script::Script;
use disk_history::HistList;
use message_wire::{MessageName, Packet, Wire};
use object_id::{NoMemory, NodeId};
use peer_proto::{PeerReq, SendList, encode_ask};
use sheep_node::{Input, Outputs};
use std::alloc::Global;

/// The name of a request.
fn request_name(request: &PeerReq) -> MessageName
    ensures { result ≡ request_name request.now }
{
    MessageName {
        sender: request.from,
        number: request.number,
    }
}

/// A request enters the wire, on its way to a node.
fn wire_with_request(
    alloc: Global,
    wire: Wire,
    to: NodeId,
    request: &PeerReq,
) -> Result<Wire, NoMemory>
    ensures { IfOk result (λ after. after ≡ wire_with_request wire (to, request.now)) }
{
    let mut wire = wire;
    let bytes = encode_ask(alloc, request)?;
    wire.put(request_name(request), Packet::Request { to, bytes })?;
    Ok(wire)
}

/// The requests of a step enter the wire, each on its way to a node.
fn wire_with_sends(alloc: Global, wire: Wire, sends: &SendList) -> Result<Wire, NoMemory>
    ensures { IfOk result (λ after. after ≡ fold wire_with_request wire sends.now) }
{
    let mut wire = wire;
    for (to, request) in sends.as_slice() {
        wire = wire_with_request(alloc, wire, *to, request)?;
    }
    Ok(wire)
}

impl WorldState {
    /// What a step has given is told to all but the sessions: its requests enter the wire, and a client's ask is answered, if it was
    /// replied to.
    pub fn with_client_outputs(self, input: Input, outputs: Outputs) -> Result<WorldState, NoMemory>
        ensures { IfOk result (λ after. after ≡ with_client_outputs input outputs self) }
    {
        let WorldState {
            alloc,
            wire,
            asked,
            ..
        } = self;
        let asked = match asked {
            Some(ask) => Some(ask.after_replies(alloc, &outputs.replies)?),
            None => None,
        };
        let wire = wire_with_sends(alloc, wire, &outputs.sends)?;
        Ok(WorldState {
            wire,
            asked,
            input: Some(input),
            outputs,
            ..self
        })
    }

    /// What a step has given is told: its requests enter the wire, and what it replied to is answered.
    fn with_outputs(
        self,
        script: &Script,
        input: Input,
        outputs: Outputs,
    ) -> Result<WorldState, NoMemory>
        ensures { IfOk result (λ after. after ≡ with_outputs script.now input outputs self) }
    {
        let WorldState {
            alloc,
            mut guests,
            ..
        } = self;
        guests.after_replies(alloc, script, &outputs.replies)?;
        let world = WorldState { guests, ..self };
        world.with_client_outputs(input, outputs)
    }

    /// A node steps on an input; behind the earlier events of the history stands what its replies add, where the check of this request
    /// comes to a write by the step. Costs the step, a look at each request without reply, and a look-up for each message and reply that
    /// it gives. An input on which the node may not step is told as want of memory.
    #[tactic(auto, unfolding(crate::specs::NodeSteps::node_stepped))]
    pub fn stepped(
        mut self,
        script: &Script,
        node: u32,
        input: Input,
        write: Option<u32>,
        earlier: HistList,
    ) -> Result<(WorldState, HistList), NoMemory>
        ensures world { IfOk result (λ made. made.0 ≡ node_stepped script.now node input self) }
        ensures grown { IfOk result (λ made. AreRepliesAdded script.now self write made.0 earlier made.1) }
    {
        let alloc = self.alloc;
        let written = self.written_checks(script)?;
        let Some(host) = self.hosts.take(node) else {
            // Where the node doesn't exist the world stays, with the replies of the step before.
            let replies = &self.outputs.replies;
            let events = with_replies(
                alloc,
                earlier,
                script,
                &self.guests,
                &written,
                write,
                replies,
            )?;
            return Ok((self, events));
        };
        let kept = input.copy(alloc)?;
        let (host, outputs) = host.step(input)?;
        let replies = &outputs.replies;
        let grown = with_replies(
            alloc,
            earlier,
            script,
            &self.guests,
            &written,
            write,
            replies,
        )?;
        self.hosts.put(node, host)?;
        let world = self.with_outputs(script, kept, outputs)?;
        Ok((world, grown))
    }

    /// A node steps on an input by which no check comes to a write; what its replies add stands behind the earlier events.
    pub fn replied(
        self,
        script: &Script,
        node: u32,
        input: Input,
        earlier: HistList,
    ) -> Result<(WorldState, HistList), NoMemory>
        ensures world { IfOk result (λ made. made.0 ≡ node_stepped script.now node input self) }
        ensures grown { IfOk result (λ made. made.1 ≡ earlier ++ replies_grown script.now self None made.0) }
    {
        let (world, grown) = self.stepped(script, node, input, None, earlier)?;
        Ok((world, grown))
    }

    /// A node steps on an input, as by `stepped`; what its replies add to the history isn't told.
    pub fn node_stepped(
        self,
        script: &Script,
        node: u32,
        input: Input,
    ) -> Result<WorldState, NoMemory>
        ensures { IfOk result (λ after. after ≡ node_stepped script.now node input self) }
    {
        let none = HistList::new(self.alloc);
        let (world, _) = self.stepped(script, node, input, None, none)?;
        Ok(world)
    }
}
