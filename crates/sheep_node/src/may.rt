//! When a node may step on an input.

ghost use Rattle.std.specs.Prelude.{◌≡◌, ◌↔◌, false, IsTrue};
ghost use Rattle.std.specs.Option.{option_map_or};
ghost use Rattle.epoch_log.specs.Members.{is_member};
ghost use Rattle.vnode_table.specs.Epochs.{members_at};
ghost use Rattle.sheep_node.specs.LogReading.{is_epoch_member};
ghost use Rattle.sheep_node.specs.State.{session_at};
ghost use Rattle.sheep_node.specs.StepFacts.{FollowsLog, IsLogSoFar, HasReadLog, IsByTheLog};
ghost use Rattle.sheep_node.specs.May.{MayRead, has_room_for, queued_at_most, has_work_to_retry};
ghost use Rattle.sheep_node.specs.MayTests.{is_guest_ask, may_take_ask, may_read_entry, may_read_entries, rest_behind};
ghost use Rattle.sheep_node.specs.MayTests.{may_come_back_with, meets, may};

use crate::ask::Ask;
use crate::asks::{is_entry_ask, is_object_ask, is_vdi_ask};
use crate::entry_tests::{
    begins_with, begun_by, is_member, is_newest_member, may_be_first, may_be_read_from,
};
use crate::input::Input;
use crate::limits::SENDS_MAX;
use crate::node_rows::NodeRows;
use crate::session::Session;
use crate::state::NodeState;
use guest_driver::is_ask;
use object_id::{Entry, NodeId, REQUESTS_AT_ONCE};
use object_store::ObjStore;

/// How many reads and writes of a session may be without reply where a request comes.
fn queued_at_most(ask: &Ask) -> usize
    ensures { result ≡ queued_at_most ask.now }
{
    match ask {
        Ask::Disk(_) => REQUESTS_AT_ONCE - 1,
        Ask::Vdi(_) => 0,
        Ask::Object(_) => 0,
        Ask::Entry(_) => 0,
    }
}

/// Whether a session has room for a request: none that is alone in it is without reply.
fn has_room_for(ask: &Ask, session: &Session) -> bool
    ensures { result ≡ has_room_for ask.now session.now }
{
    session.command.is_none() && session.queue.as_slice().len() <= queued_at_most(ask)
}

impl<O: ObjStore> NodeRows<O> {
    /// Whether a node is a member of the newest epoch that was read.
    fn has_member(&self, node: NodeId) -> bool
        requires log { IsLogSoFar self.now.peer.entries }
        requires by_the_log { FollowsLog self.now.peer.epoch self.now.peer.settled self.now.epochs self.now.peer.entries }
        ensures { result ≡ is_member node.0 (members_at self.now.epochs self.now.peer.epoch) }
    {
        let Some(tally) = &self.tally else {
            return false;
        };
        let entries = self.peer.directory().entries();
        is_member(node, tally.members(entries, tally.epoch(entries)))
    }

    /// Whether an entry may be read next.
    fn may_read(&self, entry: &Entry) -> bool
        requires { IsLogSoFar self.now.peer.entries }
        ensures { IsTrue result ↔ MayRead self.now.peer.entries entry.now }
    {
        match &self.tally {
            Some(tally) => tally.may_count(self.peer.directory().entries(), entry),
            None => may_be_first(entry),
        }
    }

    /// Whether these entries go on behind those that were read, each where it may stand. Looks at each, and at those before it where it
    /// joins a node, lets one go, or gives one another weight.
    fn may_go_on_to(&self, entries: &[Entry]) -> bool
        ensures { result ≡ option_map_or (may_read_entries self.now.peer.entries) (rest_behind self.now.peer.entries entries.now) false }
    {
        let own = self.peer.directory().entries();
        if begins_with(entries, own) {
            may_be_read_from(entries, own.len())
        } else {
            false
        }
    }
}

impl NodeState {
    /// Whether the session of a number has room for a request.
    fn has_room_for(&self, number: u32, ask: &Ask) -> bool
        ensures { result ≡ has_room_for ask.now (session_at number self.now) }
    {
        match self.sessions.get(number) {
            Some(session) => has_room_for(ask, session),
            None => true,
        }
    }

    /// Whether what is asked is as it may be.
    fn is_guest_ask(&self, ask: &Ask) -> bool
        ensures { result ≡ is_guest_ask self.now ask.now }
    {
        match ask {
            Ask::Disk(ask) => is_ask(ask),
            Ask::Vdi(ask) => is_vdi_ask(ask),
            Ask::Object(work) => is_object_ask(&self.rows.peer, work),
            Ask::Entry(entry) => is_entry_ask(self.me, entry),
        }
    }

    /// Whether the node is a member of the newest epoch that it has read.
    pub fn is_member(&self) -> bool
        requires log { HasReadLog self.now }
        requires by_the_log { IsByTheLog self.now }
        ensures { result ≡ is_epoch_member self.now }
    {
        self.rows.has_member(self.me)
    }

    /// Whether a guest's request may begin.
    fn may_take_ask(&self, req: u32, session: u32, ask: &Ask) -> bool
        requires log { HasReadLog self.now }
        requires by_the_log { IsByTheLog self.now }
        ensures { result ≡ may_take_ask req session ask.now self.now }
    {
        self.has_room_for(session, ask)
            && !self.requests.has(req)
            && self.is_member()
            && self.is_guest_ask(ask)
    }

    /// Whether an entry may be read next.
    fn may_read(&self, entry: &Entry) -> bool
        requires { HasReadLog self.now }
        ensures { result ≡ may_read_entry self.now.peer.entries entry.now }
    {
        self.rows.may_read(entry)
    }

    /// Whether a lost node may come back with these entries.
    fn may_come_back_with(&self, entries: &[Entry]) -> bool
        ensures { result ≡ may_come_back_with entries.now self.now }
    {
        let begun = begun_by(entries);
        self.rows.may_go_on_to(entries)
            && 0 < begun
            && self.rows.peer.epoch().0 as usize <= begun
            && is_newest_member(self.me, entries)
    }

    /// Whether a work of the gateway may be tried again.
    fn can_retry(&self) -> bool
        ensures { result ≡ has_work_to_retry self.now }
    {
        self.gateway.can_retry(self.rows.peer.epoch())
    }

    /// Whether an input meets what it must.
    fn meets(&self, input: &Input) -> bool
        requires log { HasReadLog self.now }
        requires by_the_log { IsByTheLog self.now }
        ensures { result ≡ meets input.now self.now }
    {
        match input {
            Input::Guest { req, session, ask } => self.may_take_ask(*req, *session, ask),
            Input::Request(request) => self.rows.peer.may_serve(&request.ask),
            Input::Reply(rsp) => self.gateway.fits(rsp) || self.recovery.fits(rsp, &self.rows),
            Input::Lost { number } => {
                self.gateway.waits_for(*number) || self.recovery.waits_for(*number)
            }
            Input::LogEntry(entry) => self.may_read(entry),
            Input::Put => !self.outbox.is_empty(),
            Input::RecoverTick => self.recovery.can_tick(&self.rows),
            Input::RetryTick => self.can_retry(),
            Input::Back { entries } => self.may_come_back_with(entries.as_slice()),
        }
    }

    /// Whether the node may step on an input: it has numbers left, and the input meets its condition. Takes no memory.
    pub fn may(&self, input: &Input) -> bool
        requires log { HasReadLog self.now }
        requires by_the_log { IsByTheLog self.now }
        ensures { result ≡ may input.now self.now }
    {
        self.sends <= SENDS_MAX && self.meets(input)
    }
}
