//! What can be read of the cluster.

ghost use Rattle.std.specs.Prelude.{◌≡◌, ℕ, ◌≤◌, ◌^◌, false, slice_get, IfOk, IfErr};
ghost use Rattle.std.specs.FinMap as tree;
ghost use Rattle.std.specs.Option.{option_map, option_copied};
ghost use Rattle.epoch_log.specs.Appending.{IsLog};
ghost use Rattle.epoch_log.specs.Epochs.{members_in};
ghost use Rattle.vdi_directory.specs.Decisions.{log_effects};
ghost use Rattle.vdi_directory.specs.DirectoryState.{AreLocks};
ghost use Rattle.cluster_script.specs.Index.{session_seen};
ghost use Rattle.sheep_world.specs.World.{node_at, is_up, is_lost, message_at, progress_at, newest_epoch, settled_epoch};
ghost use Rattle.sheep_world.specs.ClientAsks.{answer_of};
ghost use Rattle.sheep_world.specs.Enabled.{is_enabled, enabled_count, enabled_at};
ghost use Rattle.sheep_world.specs.Incarnations.{is_incarnation_gone, is_session_gone};
ghost use Rattle.sheep_world.specs.Run.{is_whole};
ghost use Rattle.sheep_world.specs.SpentWorld.{unspent_node, packet_bytes};

use crate::conditions::name_of;
use crate::host::Host;
use crate::world::World;
use cluster_script::{Script, SessionOfScript};
use disk_lock::Locks;
use message_wire::Packet;
use object_id::{Bytes, Entry, Epoch, Member, NoMemory, NodeId};
use peer_proto::GuestRsp;
use sheep_node::{Event, Input, Node, Outputs};
use vdi_directory::Directory;

/// The bytes of a message.
fn packet_bytes(packet: &Packet) -> &Bytes
    ensures { result.now ≡ packet_bytes packet.now }
{
    match packet {
        Packet::Request { to: _, bytes } => bytes,
        Packet::Reply { from: _, bytes } => bytes,
    }
}

/// Whether the incarnation of its node that a session belongs to is gone.
fn is_incarnation_gone(session: SessionOfScript, host: &Host) -> bool
    ensures { result ≡ is_incarnation_gone (session_seen session) host.now }
{
    session.incarnation < host.incarnation()
        || (session.incarnation == host.incarnation() && host.is_lost())
}

impl World {
    /// The node of a number; none where it never existed. Costs a look-up.
    pub fn node(&self, node: NodeId) -> Option<&Node>
        requires { self.now.spent ≡ false }
        ensures { option_copied result ≡ option_map unspent_node (node_at node.0 self.now.world) }
    {
        match self.state().hosts.get(node.0) {
            Some(host) => Some(host.node()),
            None => None,
        }
    }

    /// Whether a node is lost. Costs a look-up.
    pub fn lost(&self, node: NodeId) -> bool
        requires { self.now.spent ≡ false }
        ensures { result ≡ is_lost node.0 self.now.world }
    {
        self.state().is_lost(node.0)
    }

    /// The whole log.
    pub fn log(&self) -> &[Entry]
        requires { self.now.spent ≡ false }
        ensures value { result.now ≡ self.now.world.log }
        ensures log { IsLog result.now }
    {
        self.state().log.entries()
    }

    /// The bytes of the message of a name; none where it isn't in the wire. Costs a look-up.
    pub fn wire(&self, from: NodeId, number: u32) -> Option<&Bytes>
        requires { self.now.spent ≡ false }
        ensures { option_copied result ≡ option_map packet_bytes (message_at (record { sender = from; number = number }) self.now.world) }
    {
        match self.state().wire.get(name_of(from, number)) {
            Some(packet) => Some(packet_bytes(packet)),
            None => None,
        }
    }

    /// The disks that the whole log has made.
    pub fn directory(&self) -> &Directory
        requires { self.now.spent ≡ false }
        ensures { result.now ≡ self.now.world.log }
    {
        self.state().log.directory()
    }

    /// Who holds which disk, by the whole log.
    pub fn locks(&self) -> &Locks
        requires { self.now.spent ≡ false }
        ensures { AreLocks (log_effects self.now.world.log) result.now }
    {
        self.state().log.locks()
    }

    /// The input of the node's step in the last event; none where no node stepped.
    pub fn input(&self) -> Option<&Input>
        requires { self.now.spent ≡ false }
        ensures { option_copied result ≡ self.now.world.input }
    {
        self.state().input.as_ref()
    }

    /// The outputs of that step; empty where no node stepped.
    pub fn outputs(&self) -> &Outputs
        requires { self.now.spent ≡ false }
        ensures { result.now ≡ self.now.world.outputs }
    {
        &self.state().outputs
    }

    /// The reply to a client's last ask; none if it made none, or that has no reply.
    pub fn answer(&self) -> Option<&GuestRsp>
        requires { self.now.spent ≡ false }
        ensures { option_copied result ≡ answer_of self.now.world }
    {
        match &self.state().asked {
            Some(ask) => ask.reply.as_ref(),
            None => None,
        }
    }

    /// Whether every phase is ended.
    pub fn ended(&self, script: &Script) -> bool
        requires { self.now.spent ≡ false }
        ensures { result ≡ is_whole script.now self.now.world }
    {
        !self.state().may_end_phase(script)
    }

    /// Whether an event may happen. Costs look-ups, but for Back, which passes over the wire, and for events of a node whose gateway is
    /// asked for a work to try again.
    pub fn is_enabled(&self, script: &Script, event: Event) -> bool
        requires { self.now.spent ≡ false }
        ensures { result ≡ is_enabled script.now self.now.world event }
    {
        self.state().is_enabled(script, event)
    }

    /// The place of the present phase, from 0.
    pub fn phase(&self) -> usize
        requires { self.now.spent ≡ false }
        ensures { result ≡ self.now.world.phase }
    {
        self.state().phase
    }

    /// Whether a node is up: it exists, isn't lost, and has numbers left for the sends of a step. Costs a look-up.
    pub fn up(&self, node: NodeId) -> bool
        requires { self.now.spent ≡ false }
        ensures { result ≡ is_up node.0 self.now.world }
    {
        self.state().is_up(node.0)
    }

    /// The node at a place, from 0, of those that exist, ascending; none past the last. Passes over those before it.
    pub fn node_at(&self, place: usize) -> Option<NodeId>
        requires { self.now.spent ≡ false }
        ensures { result ≡ option_map (λ (number : ℕ). record { 0 = number }) (slice_get (tree.keys self.now.world.hosts) place) }
    {
        match self.state().hosts.number_at(place) {
            Some(number) => Some(NodeId(number)),
            None => None,
        }
    }

    /// The newest epoch, by the whole log. Costs nothing.
    pub fn newest_epoch(&self) -> Epoch
        requires { self.now.spent ≡ false }
        ensures { result.0 ≡ newest_epoch self.now.world }
    {
        self.state().log.newest_epoch()
    }

    /// The settled epoch, by the whole log. Costs nothing.
    pub fn settled_epoch(&self) -> Epoch
        requires { self.now.spent ≡ false }
        ensures { result.0 ≡ settled_epoch self.now.world }
    {
        self.state().log.settled_epoch()
    }

    /// The members of the newest epoch, ascending. Costs nothing.
    pub fn newest_members(&self) -> &[Member]
        requires { self.now.spent ≡ false }
        ensures { result.now ≡ members_in self.now.world.log (newest_epoch self.now.world) }
    {
        self.state().log.newest_members()
    }

    /// How many requests of a session were started. Costs a look-up.
    pub fn begun(&self, session: u32) -> u32
        requires { self.now.spent ≡ false }
        ensures { result ≡ (progress_at session self.now.world).begun }
    {
        self.state().guests.begun(session)
    }

    /// Whether the incarnation of its node that a session belongs to is gone. Costs a look-up.
    pub fn has_gone(&self, session: SessionOfScript) -> bool
        requires { self.now.spent ≡ false }
        ensures { result ≡ is_session_gone (session_seen session) self.now.world }
    {
        match self.state().hosts.get(session.node) {
            Some(host) => is_incarnation_gone(session, host),
            None => false,
        }
    }

    /// How many events may happen, but for Phase. A count that doesn't fit is told as want of memory: so many messages aren't in a wire.
    /// Takes no memory. Costs a few steps for each session, each sender with messages and each node, and the messages of a sender where an
    /// end of one isn't up; no look into a node.
    pub fn enabled_count(&self, script: &Script) -> Result<usize, NoMemory>
        requires { self.now.spent ≡ false }
        ensures ok { IfOk result (λ count. count ≡ enabled_count script.now self.now.world) }
        ensures err { IfErr result (λ error. 2 ^ 64 ≤ enabled_count script.now self.now.world) }
    {
        self.state().enabled_count(script)
    }
}

/// The event at a place, from 0, among those that may happen, in their order: the sessions' requests, the deliveries and losses by
/// message, what each node may do, the next control; none past the last. Phase isn't among them. Takes no memory. Costs what
/// [`World::enabled_count`] costs.
pub fn enabled(script: &Script, world: &World, place: usize) -> Option<Event>
    requires { world.now.spent ≡ false }
    ensures { result ≡ enabled_at script.now world.now.world place }
{
    world.state().enabled_at(script, place)
}
