//! The list of what may happen, without building it: how many events it has, and the one at a place.
//!
//! The list's parts are passed one after another: the sessions, each sender's messages, each node, the next control. To pass events is to
//! take off a place as many as may happen of them; where a place isn't left, the event at it is one of theirs, and ends the way. A sender
//! is passed without a look at its messages where all their ends are up: each may be delivered then, and each or none lost. Nothing here
//! takes memory.

ghost use Rattle.std.specs.Prelude.{◌≡◌, ◌&&◌, ◌||◌, ◌≤◌, ◌^◌, true, [], ◌∷◌, ◌++◌, length, map, flat_map, slice_get, if◌then◌else◌};
ghost use Rattle.std.specs.Prelude.{IfOk, IfErr};
ghost use Rattle.std.specs.List.{list_all};
ghost use Rattle.std.specs.Option.{option_map, option_map_or};
ghost use Rattle.std.specs.FinMap as tree;
ghost use Rattle.message_wire.specs.declared.name.MessageName.{MessageName as TheName};
ghost use Rattle.message_wire.specs.declared.packet.Packet.{Packet as ThePacket};
ghost use Rattle.message_wire.specs.Message.{asked_node};
ghost use Rattle.message_wire.specs.NodeSet.{contains_node};
ghost use Rattle.sheep_world.specs.Controls.{control_statement};
ghost use Rattle.sheep_world.specs.World.{is_lost, next_control};
ghost use Rattle.sheep_world.specs.Conditions.{may_log_next, may_put, may_recover, may_retry};
ghost use Rattle.sheep_world.specs.Enabled.{guest_events, loss_of, message_events, node_events, control_event};
ghost use Rattle.sheep_world.specs.Enabled.{enabled_events, enabled_count, enabled_at};
ghost use Rattle.sheep_world.specs.EnabledPlaces.{place_behind, place_behind_enabled, messages_of_sender};
ghost use Rattle.sheep_world.specs.EnabledPlaces.{are_all_ends_up, delivery_event, events_between_up};

use crate::control::Control;
use crate::world_state::WorldState;
use cluster_script::Script;
use message_wire::{MessageName, NodeSet, Packet};
use object_id::{NoMemory, NodeId, SESSIONS_MAX};
use sheep_node::Event;
use std::ops::ControlFlow;

/// The loss of a message, by what it is.
fn loss_of(name: MessageName, packet: &Packet) -> Event
    ensures { result ≡ loss_of name packet.now }
{
    let MessageName {
        sender: node,
        number,
    } = name;
    match packet {
        Packet::Request { to: _, bytes: _ } => Event::LoseRequest { node, number },
        Packet::Reply { from: _, bytes: _ } => Event::LoseReply { node, number },
    }
}

/// The delivery of a message.
fn delivery_event(name: MessageName) -> Event
    ensures { result ≡ delivery_event name }
{
    Event::Deliver {
        node: name.sender,
        number: name.number,
    }
}

/// The loss of a message, or its delivery.
fn event_of(name: MessageName, packet: &Packet, is_loss: bool) -> Event
    ensures { result ≡ (if is_loss then loss_of name packet.now else delivery_event name) }
{
    if is_loss {
        loss_of(name, packet)
    } else {
        delivery_event(name)
    }
}

/// The event that a control makes.
fn control_event(control: Control) -> Event
    ensures { result ∷ [] ≡ control_event (control_statement control) }
{
    match control {
        Control::Fail(node) => Event::Lost { node: NodeId(node) },
        Control::Join(node) => Event::Join { node: NodeId(node) },
        Control::Reweight(node, _) => Event::Reweight { node: NodeId(node) },
        Control::Back(node) => Event::Back { node: NodeId(node) },
    }
}

impl WorldState {
    /// Passes an event. Costs what it costs to see whether it may happen.
    fn pass_event(&self, script: &Script, event: Event, place: usize) -> ControlFlow<Event, usize>
        ensures { result ≡ place_behind_enabled script.now self.now (event ∷ []) place }
    {
        if !self.is_enabled(script, event) {
            return ControlFlow::Continue(place);
        }
        if place == 0 {
            return ControlFlow::Break(event);
        }
        ControlFlow::Continue(place - 1)
    }

    /// Passes events one after another.
    fn pass_events(
        &self,
        script: &Script,
        events: &[Event],
        place: usize,
    ) -> ControlFlow<Event, usize>
        ensures { result ≡ place_behind_enabled script.now self.now events.now place }
    {
        let mut left = place;
        for event in events {
            match self.pass_event(script, *event, left) {
                ControlFlow::Continue(behind) => left = behind,
                ControlFlow::Break(found) => return ControlFlow::Break(found),
            }
        }
        ControlFlow::Continue(left)
    }

    /// Whether a node may do something, or is lost, and so may leave. Looks into no node.
    fn may_act(&self, node: u32) -> bool
        ensures { result ≡ (may_log_next node self.now || may_put node self.now || may_recover node self.now || may_retry node self.now
            || is_lost node self.now) }
    {
        self.may_log_next(node)
            || self.may_put(node)
            || self.may_recover(node)
            || self.may_retry(node)
            || self.is_lost(node)
    }

    /// Passes what a node may do, and that it leaves, event by event.
    fn pass_acts(&self, script: &Script, node: NodeId, place: usize) -> ControlFlow<Event, usize>
        ensures { result ≡ place_behind_enabled script.now self.now (node_events node.0) place }
    {
        let events = [
            Event::LogNext { node },
            Event::Put { node },
            Event::RecoverTick { node },
            Event::RetryTick { node },
            Event::Leave { node },
        ];
        self.pass_events(script, &events, place)
    }

    /// Passes what a node may do, and that it leaves. Looks into no node; for a node that may do nothing it costs a look at its summary.
    fn pass_node(&self, script: &Script, node: NodeId, place: usize) -> ControlFlow<Event, usize>
        ensures { result ≡ place_behind_enabled script.now self.now (node_events node.0) place }
    {
        if !self.may_act(node.0) {
            return ControlFlow::Continue(place);
        }
        self.pass_acts(script, node, place)
    }

    /// Passes what each node may do. Costs a few steps for each node.
    pub fn pass_nodes(&self, script: &Script, place: usize) -> ControlFlow<Event, usize>
        ensures { result ≡ place_behind_enabled script.now self.now (flat_map node_events (tree.keys self.now.hosts)) place }
    {
        let mut left = place;
        for node in self.hosts.numbers() {
            match self.pass_node(script, NodeId(*node), left) {
                ControlFlow::Continue(behind) => left = behind,
                ControlFlow::Break(event) => return ControlFlow::Break(event),
            }
        }
        ControlFlow::Continue(left)
    }

    /// Passes the event that the next control makes.
    fn pass_next_control(&self, script: &Script, place: usize) -> ControlFlow<Event, usize>
        ensures { result ≡ place_behind_enabled script.now self.now (option_map_or control_event (next_control self.now) []) place }
    {
        match self.controls.front() {
            Some(control) => self.pass_event(script, control_event(*control), place),
            None => ControlFlow::Continue(place),
        }
    }

    /// Passes each session's next request, by session. Costs a look-up for each number that a session may have.
    fn pass_guests(&self, script: &Script, place: usize) -> ControlFlow<Event, usize>
        ensures { result ≡ place_behind_enabled script.now self.now (guest_events script.now) place }
    {
        let _statements = script.statements();
        let mut left = place;
        for session in 0..SESSIONS_MAX + 1 {
            match self.pass_event(script, Event::Guest { session }, left) {
                ControlFlow::Continue(behind) => left = behind,
                ControlFlow::Break(event) => return ControlFlow::Break(event),
            }
        }
        ControlFlow::Continue(left)
    }

    /// Passes the delivery of a message, and its loss.
    fn pass_message(
        &self,
        script: &Script,
        name: MessageName,
        packet: &Packet,
        place: usize,
    ) -> ControlFlow<Event, usize>
        ensures { result ≡ place_behind_enabled script.now self.now (message_events (name, packet.now)) place }
    {
        let delivery = delivery_event(name);
        let loss = loss_of(name, packet);
        self.pass_events(script, &[delivery, loss], place)
    }

    /// How many messages the sender at a place has. Costs nothing.
    fn count_of_sender(&self, sender: usize) -> usize
        ensures { result ≡ length (messages_of_sender sender self.now) }
    {
        self.wire.count_at(sender)
    }

    /// The message at a place among those of the sender at a place, with its name. Costs nothing.
    fn message_of_sender(&self, sender: usize, place: usize) -> Option<(MessageName, &Packet)>
        ensures { option_map (λ found. (found.0, found.1.now)) result ≡ slice_get (messages_of_sender sender self.now) place }
    {
        self.wire.message_at(sender, place)
    }

    /// Passes a message's events, by the places of its sender and of it.
    fn pass_message_at(
        &self,
        script: &Script,
        sender: usize,
        message: usize,
        place: usize,
    ) -> ControlFlow<Event, usize>
        ensures { result ≡ place_behind_enabled script.now self.now
            (option_map_or message_events (slice_get (messages_of_sender sender self.now) message) []) place }
    {
        match self.message_of_sender(sender, message) {
            Some((name, packet)) => self.pass_message(script, name, packet, place),
            None => ControlFlow::Continue(place),
        }
    }

    /// Passes the events of a sender's messages one after another. Costs all of these.
    fn pass_each_message(
        &self,
        script: &Script,
        sender: usize,
        place: usize,
    ) -> ControlFlow<Event, usize>
        ensures { result ≡ place_behind_enabled script.now self.now (flat_map message_events (messages_of_sender sender self.now)) place }
    {
        let mut left = place;
        let count = self.count_of_sender(sender);
        for message in 0..count {
            match self.pass_message_at(script, sender, message, left) {
                ControlFlow::Continue(behind) => left = behind,
                ControlFlow::Break(event) => return ControlFlow::Break(event),
            }
        }
        ControlFlow::Continue(left)
    }

    /// Passes the deliveries of a sender's messages, each of which may happen. Costs nothing.
    fn pass_deliveries(&self, sender: usize, place: usize) -> ControlFlow<Event, usize>
        ensures { result ≡ place_behind (map (λ (found : TheName × ThePacket). delivery_event found.0)
            (messages_of_sender sender self.now)) place }
    {
        match self.message_of_sender(sender, place) {
            Some(found) => ControlFlow::Break(delivery_event(found.0)),
            None => {
                let count = self.count_of_sender(sender);
                let left = place - count;
                ControlFlow::Continue(left)
            }
        }
    }

    /// Passes the deliveries and losses of a sender's messages, each of which may happen. Costs nothing.
    fn pass_deliveries_and_losses(&self, sender: usize, place: usize) -> ControlFlow<Event, usize>
        ensures { result ≡ place_behind (flat_map message_events (messages_of_sender sender self.now)) place }
    {
        match self.message_of_sender(sender, place / 2) {
            Some(found) => ControlFlow::Break(event_of(found.0, found.1, place % 2 == 1)),
            None => {
                let count = self.count_of_sender(sender);
                let events = count * 2;
                let left = place - events;
                ControlFlow::Continue(left)
            }
        }
    }

    /// Passes the events of a sender's messages, whose ends are all up. Costs nothing.
    fn pass_between_up(&self, sender: usize, place: usize) -> ControlFlow<Event, usize>
        ensures { result ≡ place_behind (flat_map (events_between_up self.now.losses) (messages_of_sender sender self.now)) place }
    {
        let losses = self.losses;
        if losses == 0 {
            return self.pass_deliveries(sender, place);
        }
        self.pass_deliveries_and_losses(sender, place)
    }

    /// Whether a sender and all nodes that its messages ask are in a set of nodes.
    fn are_all_ends_within(&self, sender: usize, node: NodeId, nodes: NodeSet) -> bool
        ensures { result ≡ (contains_node node.0 nodes
            && list_all (λ (found : TheName × ThePacket). contains_node (asked_node found.1).0 nodes)
            (messages_of_sender sender self.now)) }
    {
        nodes.contains(node) && self.wire.are_ends_within(sender, nodes)
    }

    /// Whether the sender at a place and all nodes that its messages ask are among the nodes below 64 that are up. Costs nothing.
    fn are_ends_up_at(&self, sender: usize) -> bool
        ensures { result ≡ true → are_all_ends_up sender self.now ≡ true }
    {
        let up = self.hosts.up_nodes();
        match self.wire.sender_at(sender) {
            Some(node) => self.are_all_ends_within(sender, node, up),
            None => false,
        }
    }

    /// Passes the events of a sender's messages. Costs all of these where an end of one isn't up, and nothing otherwise.
    fn pass_sender(&self, script: &Script, sender: usize, place: usize) -> ControlFlow<Event, usize>
        ensures { result ≡ place_behind_enabled script.now self.now (flat_map message_events (messages_of_sender sender self.now)) place }
    {
        if self.are_ends_up_at(sender) {
            return self.pass_between_up(sender, place);
        }
        self.pass_each_message(script, sender, place)
    }

    /// Passes the events of all messages. Costs what their senders cost.
    pub fn pass_messages(&self, script: &Script, place: usize) -> ControlFlow<Event, usize>
        ensures { result ≡ place_behind_enabled script.now self.now (flat_map message_events (tree.entries self.now.wire)) place }
    {
        let mut left = place;
        let count = self.wire.sender_count();
        for sender in 0..count {
            match self.pass_sender(script, sender, left) {
                ControlFlow::Continue(behind) => left = behind,
                ControlFlow::Break(event) => return ControlFlow::Break(event),
            }
        }
        ControlFlow::Continue(left)
    }

    /// Passes the nodes, and the next control behind them.
    fn pass_behind_messages(&self, script: &Script, place: usize) -> ControlFlow<Event, usize>
        ensures { result ≡ place_behind_enabled script.now self.now
            (flat_map node_events (tree.keys self.now.hosts) ++ option_map_or control_event (next_control self.now) []) place }
    {
        match self.pass_nodes(script, place) {
            ControlFlow::Continue(left) => self.pass_next_control(script, left),
            ControlFlow::Break(event) => ControlFlow::Break(event),
        }
    }

    /// Passes the messages, and what comes behind them.
    fn pass_behind_guests(&self, script: &Script, place: usize) -> ControlFlow<Event, usize>
        ensures { result ≡ place_behind_enabled script.now self.now (flat_map message_events (tree.entries self.now.wire)
            ++ (flat_map node_events (tree.keys self.now.hosts) ++ option_map_or control_event (next_control self.now) [])) place }
    {
        match self.pass_messages(script, place) {
            ControlFlow::Continue(left) => self.pass_behind_messages(script, left),
            ControlFlow::Break(event) => ControlFlow::Break(event),
        }
    }

    /// Passes the whole list.
    fn pass_all(&self, script: &Script, place: usize) -> ControlFlow<Event, usize>
        ensures { result ≡ place_behind (enabled_events script.now self.now) place }
    {
        match self.pass_guests(script, place) {
            ControlFlow::Continue(left) => self.pass_behind_guests(script, left),
            ControlFlow::Break(event) => ControlFlow::Break(event),
        }
    }

    /// How many events may happen, but for Phase. A count that doesn't fit is told as want of memory: so many messages aren't in a wire.
    /// Costs a few steps for each session, each sender with messages and each node, and the messages of a sender where an end of one isn't
    /// up. Looks into no node.
    pub fn enabled_count(&self, script: &Script) -> Result<usize, NoMemory>
        ensures ok { IfOk result (λ count. count ≡ enabled_count script.now self.now) }
        ensures err { IfErr result (λ error. 2 ^ 64 ≤ enabled_count script.now self.now) }
    {
        match self.pass_all(script, usize::MAX) {
            ControlFlow::Continue(left) => Ok(usize::MAX - left),
            ControlFlow::Break(_) => Err(NoMemory),
        }
    }

    /// The event at a place among those that may happen, in the order of `enabled_events` of `specs/Enabled.antt`; none past the last.
    /// Costs what `enabled_count` costs, up to it.
    pub fn enabled_at(&self, script: &Script, place: usize) -> Option<Event>
        ensures { result ≡ enabled_at script.now self.now place }
    {
        match self.pass_all(script, place) {
            ControlFlow::Continue(_) => None,
            ControlFlow::Break(event) => Some(event),
        }
    }
}
