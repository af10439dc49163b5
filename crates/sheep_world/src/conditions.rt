//! When each event may happen.

ghost use Rattle.std.specs.Prelude.{◌≡◌};
ghost use Rattle.sheep_world.specs.World.{is_up, is_lost, has_lost_end, are_ends_up};
ghost use Rattle.sheep_world.specs.Conditions.{has_gateway, may_ask, may_guest, may_deliver, may_go, may_lose_request};
ghost use Rattle.sheep_world.specs.Conditions.{may_lose_reply, may_log_next, may_put, may_recover, may_retry, may_lose_node, may_leave};
ghost use Rattle.sheep_world.specs.Conditions.{may_join, may_reweight, may_come_back, may_end_phase};
ghost use Rattle.sheep_world.specs.Enabled.{is_enabled};
ghost use Rattle.cluster_script.specs.Index.{session_seen};

use crate::control::Control;
use crate::request_conditions::{may_begin_request, next_request};
use crate::world_state::WorldState;
use cluster_script::{Script, SessionOfScript};
use message_wire::{MessageName, Packet};
use object_id::NodeId;
use sheep_node::Event;

/// The name of a message.
pub(crate) fn name_of(sender: NodeId, number: u32) -> MessageName
    ensures { result ≡ record { sender = sender; number = number } }
{
    MessageName { sender, number }
}

impl WorldState {
    /// Whether a node is up.
    pub fn is_up(&self, node: u32) -> bool
        ensures { result ≡ is_up node self.now }
    {
        self.hosts.summary(node).is_up
    }

    /// Whether a node is lost.
    pub fn is_lost(&self, node: u32) -> bool
        ensures { result ≡ is_lost node self.now }
    {
        self.hosts.summary(node).is_lost
    }

    /// Whether both ends of a message are up.
    pub fn are_ends_up(&self, name: MessageName, packet: &Packet) -> bool
        ensures { result ≡ are_ends_up name packet.now self.now }
    {
        self.is_up(name.sender.0) && self.is_up(packet.asked_node().0)
    }

    /// Whether an end of a message is lost.
    fn has_lost_end(&self, name: MessageName, packet: &Packet) -> bool
        ensures { result ≡ has_lost_end name packet.now self.now }
    {
        self.is_lost(name.sender.0) || self.is_lost(packet.asked_node().0)
    }

    /// Whether a session's gateway is up in its incarnation, and a member.
    fn has_gateway(&self, session: SessionOfScript) -> bool
        ensures { result ≡ has_gateway (session_seen session) self.now }
    {
        self.hosts.summary(session.node).serves(session)
    }

    /// Whether a session's next request may begin.
    fn may_ask(&self, script: &Script, session: SessionOfScript) -> bool
        ensures { result ≡ may_ask script.now (session_seen session) self.now }
    {
        if !self.has_gateway(session) {
            return false;
        }
        match next_request(script, session.number, &self.guests) {
            Some(req) => {
                may_begin_request(script, self.phase, self.guests.get(session.number), req)
            }
            None => false,
        }
    }

    fn may_guest(&self, script: &Script, session: u32) -> bool
        ensures { result ≡ may_guest script.now session self.now }
    {
        match script.session(session) {
            Some(session) => self.may_ask(script, session),
            None => false,
        }
    }

    fn may_deliver(&self, name: MessageName) -> bool
        ensures { result ≡ may_deliver name self.now }
    {
        match self.wire.get(name) {
            Some(packet) => self.is_up(packet.receiver(name).0),
            None => false,
        }
    }

    /// Whether a message may go: an end of it is lost, or losses are left.
    fn may_go(&self, name: MessageName, packet: &Packet) -> bool
        ensures { result ≡ may_go name packet.now self.now }
    {
        self.has_lost_end(name, packet) || 0 < self.losses
    }

    fn may_lose_request(&self, name: MessageName) -> bool
        ensures { result ≡ may_lose_request name self.now }
    {
        match self.wire.get(name) {
            Some(packet) => !packet.is_reply() && self.may_go(name, packet),
            None => false,
        }
    }

    fn may_lose_reply(&self, name: MessageName) -> bool
        ensures { result ≡ may_lose_reply name self.now }
    {
        match self.wire.get(name) {
            Some(packet) => packet.is_reply() && self.may_go(name, packet),
            None => false,
        }
    }

    pub fn may_log_next(&self, node: u32) -> bool
        ensures { result ≡ may_log_next node self.now }
    {
        self.hosts.summary(node).is_behind(self.log.len())
    }

    pub fn may_put(&self, node: u32) -> bool
        ensures { result ≡ may_put node self.now }
    {
        self.hosts.summary(node).may_put
    }

    pub fn may_recover(&self, node: u32) -> bool
        ensures { result ≡ may_recover node self.now }
    {
        self.hosts.summary(node).may_recover
    }

    pub fn may_retry(&self, node: u32) -> bool
        ensures { result ≡ may_retry node self.now }
    {
        self.hosts.summary(node).may_retry
    }

    fn may_lose_node(&self, node: u32) -> bool
        ensures { result ≡ may_lose_node node self.now }
    {
        matches!(self.controls.front(), Some(Control::Fail(number)) if *number == node)
            && self.is_up(node)
    }

    fn may_leave(&self, node: u32) -> bool
        ensures { result ≡ may_leave node self.now }
    {
        self.is_lost(node) && self.log.is_newest_member(node)
    }

    fn may_join(&self, node: u32) -> bool
        ensures { result ≡ may_join node self.now }
    {
        matches!(self.controls.front(), Some(Control::Join(number)) if *number == node)
    }

    fn may_reweight(&self, node: u32) -> bool
        ensures { result ≡ may_reweight node self.now }
    {
        matches!(self.controls.front(), Some(Control::Reweight(number, _)) if *number == node)
    }

    fn may_come_back(&self, node: u32) -> bool
        ensures { result ≡ may_come_back node self.now }
    {
        matches!(self.controls.front(), Some(Control::Back(number)) if *number == node)
            && self.is_lost(node)
            && !self.log.is_newest_member(node)
            && !self.wire.has_end(NodeId(node))
    }

    /// Whether a phase isn't ended.
    pub fn may_end_phase(&self, script: &Script) -> bool
        ensures { result ≡ may_end_phase script.now self.now }
    {
        self.phase < script.phase_count()
    }

    /// Whether an event may happen. Takes no memory. Costs look-ups and a look at the log's members, but for Back, which passes over the
    /// wire. Looks into no node.
    #[tactic(auto, unfolding(crate::specs::Enabled::is_enabled))]
    pub fn is_enabled(&self, script: &Script, event: Event) -> bool
        ensures { result ≡ is_enabled script.now self.now event }
    {
        match event {
            Event::Guest { session } => self.may_guest(script, session),
            Event::Deliver { node, number } => self.may_deliver(name_of(node, number)),
            Event::LoseRequest { node, number } => self.may_lose_request(name_of(node, number)),
            Event::LoseReply { node, number } => self.may_lose_reply(name_of(node, number)),
            Event::LogNext { node } => self.may_log_next(node.0),
            Event::Put { node } => self.may_put(node.0),
            Event::RecoverTick { node } => self.may_recover(node.0),
            Event::RetryTick { node } => self.may_retry(node.0),
            Event::Lost { node } => self.may_lose_node(node.0),
            Event::Leave { node } => self.may_leave(node.0),
            Event::Join { node } => self.may_join(node.0),
            Event::Reweight { node } => self.may_reweight(node.0),
            Event::Back { node } => self.may_come_back(node.0),
            Event::Phase => self.may_end_phase(script),
        }
    }
}
