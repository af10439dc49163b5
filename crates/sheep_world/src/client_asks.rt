//! What a client without a script asks of a node.

ghost use Rattle.std.specs.Prelude.{◌≡◌, ◌&&◌, [], is_some, IfOk, Some, None};
ghost use Rattle.sheep_world.specs.NodeSteps.{node_stepped, at_rest};
ghost use Rattle.sheep_world.specs.ClientAsks.{next_ask_number, answer_of, is_answered, may_client_ask};
ghost use Rattle.sheep_world.specs.ClientSteps.{ask_effect};

use crate::host_summary::HostSummary;
use crate::progress::ClientAsk;
use crate::world_state::WorldState;
use object_id::{NoMemory, REQUESTS_MAX};
use sheep_node::{Ask, Input};

/// Whether the node in a host takes asks, where the last one is answered or not: it is up, and a member.
fn takes_asks(summary: HostSummary, answered: bool) -> bool
    ensures { result ≡ (summary.is_up && summary.is_member && answered) }
{
    summary.is_up && summary.is_member && answered
}

impl WorldState {
    /// Whether there is a reply to the client's last ask.
    pub fn has_answer(&self) -> bool
        ensures { result ≡ is_some (answer_of self.now) }
    {
        match &self.asked {
            Some(ask) => ask.reply.is_some(),
            None => false,
        }
    }

    /// Whether the client's last ask, if it made one, has its reply.
    fn is_answered(&self) -> bool
        ensures { result ≡ is_answered self.now }
    {
        match &self.asked {
            Some(ask) => ask.reply.is_some(),
            None => true,
        }
    }

    /// Whether a client's ask is taken at a node. Costs nothing; looks into no node.
    pub fn may_client_ask(&self, node: u32) -> bool
        ensures { result ≡ may_client_ask node self.now }
    {
        let answered = self.is_answered();
        takes_asks(self.hosts.summary(node), answered)
    }

    /// The number of the client's next ask. One that doesn't fit is told as want of memory: nobody asks so often.
    fn next_ask_number(&self) -> Result<u32, NoMemory>
        ensures { IfOk result (λ req. req ≡ next_ask_number self.now) }
    {
        let last = match &self.asked {
            Some(ask) => ask.req,
            None => REQUESTS_MAX,
        };
        match last.checked_add(1) {
            Some(req) => Ok(req),
            None => Err(NoMemory),
        }
    }

    /// An ask of this number is the client's last one, and no node has stepped yet. Takes no memory.
    fn ask_begun(self, req: u32) -> WorldState
        ensures { result ≡ record (at_rest self) { asked = Some (record { req = req; reply = None }) } }
    {
        let world = self.at_rest();
        let asked = ClientAsk { req, reply: None };
        WorldState {
            asked: Some(asked),
            ..world
        }
    }

    /// A node steps on what the client asks. An input on which the node may not step is told as want of memory.
    #[tactic(auto, unfolding(crate::specs::NodeSteps::node_stepped))]
    fn stepped_for_client(mut self, node: u32, input: Input) -> Result<WorldState, NoMemory>
        ensures { IfOk result (λ after. after ≡ node_stepped [] node input self) }
    {
        let Some(host) = self.hosts.take(node) else {
            return Ok(self);
        };
        let kept = input.copy(self.alloc)?;
        let (host, outputs) = host.step(input)?;
        self.hosts.put(node, host)?;
        let world = self.with_client_outputs(kept, outputs)?;
        Ok(world)
    }

    /// The client asks something of a node, which steps on it. Costs the step, and a look-up for each message that it gives.
    #[tactic(auto, unfolding(crate::specs::ClientSteps::ask_effect))]
    pub fn client_asked(self, node: u32, ask: Ask) -> Result<WorldState, NoMemory>
        ensures { IfOk result (λ after. after ≡ ask_effect node ask self) }
    {
        let req = self.next_ask_number()?;
        let input = Input::Guest {
            req,
            session: 0,
            ask,
        };
        let world = self.ask_begun(req).stepped_for_client(node, input)?;
        Ok(world)
    }
}
