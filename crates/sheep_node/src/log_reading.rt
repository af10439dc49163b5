//! A node reads the next entry of the log; and a lost node comes back, and reads the log whole.

ghost use Rattle.std.specs.Prelude.{◌≡◌, ◌+◌, false, map, ◌∷◌, ◌++◌, [], IfOk, OnOk, IsTrue};
ghost use Rattle.object_id.specs.declared.entry.Member.{Member as TheMember};
ghost use Rattle.epoch_log.specs.Members.{is_member};
ghost use Rattle.epoch_log.specs.Epochs.{epoch_of, members_in, settled_of};
ghost use Rattle.epoch_log.specs.Appending.{IsLog};
ghost use Rattle.epoch_log.specs.Tally.{IsTally};
ghost use Rattle.vnode_table.specs.Epochs.{is_entered};
ghost use Rattle.peer_service.specs.LogReading.{read_entry, decision_on};
ghost use Rattle.peer_service.specs.Back.{come_back};
ghost use Rattle.recovery.specs.State.{MayBegin};
ghost use Rattle.sheep_node.specs.RecoveryView.{recovery_state_of, placed_peer_of};
ghost use Rattle.sheep_node.specs.May.{MayBeFirst, MayRead, MayComeBack};
ghost use Rattle.sheep_node.specs.KeptLog.{IsTallySoFar, with_newest_entered, in_next_epoch, in_newest_epoch, with_placed};
ghost use Rattle.sheep_node.specs.KeptLog.{in_recovery_with};
ghost use Rattle.sheep_node.specs.KeptLog.{in_recovery, in_recovery_if_member, with_epoch_of_entry, with_entries_settled};
ghost use Rattle.sheep_node.specs.KeptLog.{IsBeforeNewEpoch, IsInNewestEpoch, HasReadEntry};
ghost use Rattle.sheep_node.specs.StepFacts.{IsLogSoFar, HasReadLog, IsByTheLog};
ghost use Rattle.sheep_node.specs.LogReading.{epochs_up_to, with_peer, with_settled, epoch_members, is_epoch_member};
ghost use Rattle.sheep_node.specs.LogReading.{entry_read, come_back_with, on_back};

use crate::entry_tests::{begins_epoch, is_format, is_member};
use crate::node_rows::NodeRows;
use crate::requests::Requests;
use crate::sessions::Sessions;
use crate::state::NodeState;
use epoch_log::Tally;
use gateway::Gateway;
use object_id::{Entry, Epoch, Member, NoMemory, NodeId};
use object_store::ObjStore;
use recovery::Recovery;
use std::alloc::Global;
use std::collections::VecDeque;
use std::mem;
use vdi_directory::Decision;
use vnode_table::Placement;

/// The tally of a log's first entry.
fn first_tally(alloc: Global, entry: &Entry) -> Result<Option<Tally>, NoMemory>
    requires { MayBeFirst entry.now }
    ensures { IfOk result (λ tally. IsTallySoFar (entry.now ∷ []) tally) }
{
    match entry {
        Entry::Format { members } => Ok(Some(Tally::new(alloc, members.as_slice())?)),
        _ => Ok(None),
    }
}

/// The tally of a log that has one entry more.
fn count_entry(
    alloc: Global,
    tally: &mut Option<Tally>,
    before: &[Entry],
    entry: &Entry,
) -> Result<(), NoMemory>
    requires log { IsLogSoFar before.now }
    requires tally { IsTallySoFar before.now tally.old }
    requires may { MayRead before.now entry.now }
    ensures { OnOk result (IsTallySoFar (before.now ++ entry.now ∷ []) tally.new) }
{
    match tally {
        Some(tally) => tally.count(alloc, before, entry),
        None => {
            *tally = first_tally(alloc, entry)?;
            Ok(())
        }
    }
}

/// The nodes among members.
fn nodes_of(alloc: Global, members: &[Member]) -> Result<Vec<NodeId>, NoMemory>
    ensures { IfOk result (λ nodes. nodes.items ≡ map (λ (member : TheMember). member.node) members.now) }
{
    let mut nodes = Vec::new(alloc);
    for member in members {
        nodes.push(member.node)?;
    }
    Ok(nodes)
}

/// The tally of a whole log.
fn tally_of(alloc: Global, entries: &[Entry]) -> Result<Option<Tally>, NoMemory>
    requires { IsLog entries.now }
    ensures { IfOk result (λ tally. IsTallySoFar entries.now tally) }
{
    let mut tally = None;
    for place in 0..entries.len() {
        count_entry(alloc, &mut tally, &entries[..place], &entries[place])?;
    }
    Ok(tally)
}

/// The epochs that have begun by these entries are entered, each with its members.
fn placement_of(alloc: Global, tally: &Tally, entries: &[Entry]) -> Result<Placement, NoMemory>
    requires log { IsLog entries.now }
    requires tally { IsTally entries.now tally.now }
    ensures { IfOk result (λ place. place ≡ epochs_up_to entries.now (epoch_of entries.now)) }
{
    let mut place = Placement::new(alloc);
    for begun in 0..tally.epoch(entries).0 {
        let epoch = Epoch(begun + 1);
        place.enter(epoch, tally.members(entries, epoch))?;
    }
    Ok(place)
}

impl<O: ObjStore> NodeRows<O> {
    /// The rows once an entry was counted and read, and the decision on it.
    fn with_entry(self, alloc: Global, entry: &Entry) -> Result<(NodeRows<O>, Decision), NoMemory>
        requires log { IsLogSoFar self.peer.entries }
        requires may { MayRead self.peer.entries entry.now }
        ensures rows { IfOk result (λ read. read.0 ≡ record self { peer = read_entry entry.now self.peer }) }
        ensures decision { IfOk result (λ read. read.1 ≡ decision_on entry.now self.peer) }
    {
        let NodeRows {
            mut peer,
            place,
            mut tally,
            mut locks,
        } = self;
        count_entry(alloc, &mut tally, peer.directory().entries(), entry)?;
        let decision = peer.read_entry(entry, &mut locks)?;
        let rows = NodeRows {
            peer,
            place,
            tally,
            locks,
        };
        Ok((rows, decision))
    }

    /// The newest epoch that was read is entered by placement, with its members.
    fn enter_newest(&mut self) -> Result<(), NoMemory>
        requires log { IsLog self.old.peer.entries }
        requires new { is_entered self.old.epochs (epoch_of self.old.peer.entries) ≡ false }
        ensures { OnOk result (self.new ≡ with_newest_entered self.old) }
    {
        let Some(tally) = &self.tally else {
            return Ok(());
        };
        let entries = self.peer.directory().entries();
        let epoch = tally.epoch(entries);
        self.place.enter(epoch, tally.members(entries, epoch))?;
        Ok(())
    }

    /// The epoch in which the peer is.
    fn epoch(&self) -> Epoch
        ensures { result.0 ≡ self.now.peer.epoch }
    {
        self.peer.epoch()
    }

    /// The peer goes to the next epoch, which was entered.
    fn go_to_next(&mut self, me: NodeId) -> Result<(), NoMemory>
        requires { IsTrue (is_entered self.old.epochs (self.old.peer.epoch + 1)) }
        ensures { OnOk result (self.new ≡ in_next_epoch me self.old) }
    {
        self.peer.enter(me, &self.place)?;
        Ok(())
    }

    /// The newest epoch that was read is entered, and the peer goes to it.
    fn go_to_newest(&mut self, me: NodeId) -> Result<(), NoMemory>
        requires { IsBeforeNewEpoch self.old }
        ensures { OnOk result (self.new ≡ in_newest_epoch me self.old) }
    {
        self.enter_newest()?;
        self.go_to_next(me)?;
        Ok(())
    }

    /// The nodes of the newest epoch that was read.
    fn newest_nodes(&self, alloc: Global) -> Result<Vec<NodeId>, NoMemory>
        requires { IsLog self.now.peer.entries }
        ensures { IfOk result (λ nodes. nodes.items
            ≡ map (λ (member : TheMember). member.node) (members_in self.now.peer.entries (epoch_of self.now.peer.entries))) }
    {
        let Some(tally) = &self.tally else {
            return Ok(Vec::new(alloc));
        };
        let entries = self.peer.directory().entries();
        nodes_of(alloc, tally.members(entries, tally.epoch(entries)))
    }

    /// Whether a node is one of them.
    fn is_newest_node(&self, node: NodeId) -> bool
        requires { IsLog self.now.peer.entries }
        ensures { result ≡ is_member node.0 (members_in self.now.peer.entries (epoch_of self.now.peer.entries)) }
    {
        let Some(tally) = &self.tally else {
            return false;
        };
        let entries = self.peer.directory().entries();
        is_member(node, tally.members(entries, tally.epoch(entries)))
    }

    /// What the entries settle is settled.
    fn settle(&mut self)
        requires { IsLog self.old.peer.entries }
        ensures { self.new ≡ record self.old { peer = with_settled (settled_of self.old.peer.entries) self.old.peer } }
    {
        let Some(tally) = &self.tally else {
            return;
        };
        let settled = tally.settled(self.peer.directory().entries());
        if self.peer.settled() < settled {
            self.peer.settle(settled);
        }
    }
}

impl NodeState {
    /// The peer reads the next entry, and the entry is counted. The rows are taken out and put back: without memory none are left.
    fn read_next(&mut self, entry: &Entry) -> Result<Decision, NoMemory>
        requires log { HasReadLog self.old }
        requires may { MayRead self.old.peer.entries entry.now }
        ensures decision { IfOk result (λ decision. decision ≡ decision_on entry.now self.old.peer) }
        ensures node { OnOk result (self.new ≡ with_peer (read_entry entry.now self.old.peer) self.old) }
    {
        let rows = mem::replace(&mut self.rows, NodeRows::new(self.alloc));
        let (rows, decision) = rows.with_entry(self.alloc, entry)?;
        self.rows = rows;
        Ok(decision)
    }

    /// The newest epoch that was read is entered, and the peer goes to it.
    fn go_to_newest(&mut self) -> Result<(), NoMemory>
        requires { IsBeforeNewEpoch (placed_peer_of self.old) }
        ensures { OnOk result (self.new ≡ with_placed (in_newest_epoch self.old.me (placed_peer_of self.old)) self.old) }
    {
        self.rows.go_to_newest(self.me)
    }

    /// The recovery of the node's epoch begins, with these members.
    fn recover_with(&mut self, nodes: &[NodeId]) -> Result<(), NoMemory>
        requires { MayBegin self.old.peer.epoch nodes.now (recovery_state_of self.old) }
        ensures { OnOk result (self.new ≡ in_recovery_with nodes.now self.old) }
    {
        let mut rows = mem::replace(&mut self.rows, NodeRows::new(self.alloc));
        self.recovery.begin(rows.epoch(), nodes, &mut rows)?;
        self.rows = rows;
        self.recovered = false;
        Ok(())
    }

    /// The nodes of the newest epoch, in which the node is.
    fn epoch_nodes(&self) -> Result<Vec<NodeId>, NoMemory>
        requires { IsInNewestEpoch self.now }
        ensures { IfOk result (λ nodes. nodes.items ≡ map (λ (member : TheMember). member.node) (epoch_members self.now)) }
    {
        self.rows.newest_nodes(self.alloc)
    }

    /// The recovery of the node's epoch begins.
    fn begin_recovery(&mut self) -> Result<(), NoMemory>
        requires newest { IsInNewestEpoch self.old }
        requires member { IsTrue (is_epoch_member self.old) }
        ensures { OnOk result (self.new ≡ in_recovery self.old) }
    {
        let nodes = self.epoch_nodes()?;
        self.recover_with(nodes.as_slice())?;
        Ok(())
    }

    /// Whether the node is a member of the newest epoch, in which it is.
    fn is_newest_member(&self) -> bool
        requires { IsInNewestEpoch self.now }
        ensures { result ≡ is_epoch_member self.now }
    {
        self.rows.is_newest_node(self.me)
    }

    /// The recovery of the node's epoch begins, if it is a member.
    fn begin_recovery_if_member(&mut self) -> Result<(), NoMemory>
        requires { IsInNewestEpoch self.old }
        ensures { OnOk result (self.new ≡ in_recovery_if_member self.old) }
    {
        if self.is_newest_member() {
            self.begin_recovery()
        } else {
            Ok(())
        }
    }

    /// The node goes to the epoch that an entry has begun, and its recovery begins.
    fn enter_and_recover(&mut self) -> Result<(), NoMemory>
        requires before { IsBeforeNewEpoch (placed_peer_of self.old) }
        requires own { self.old.recovery.me ≡ self.old.me }
        ensures { OnOk result (self.new
            ≡ in_recovery_if_member (with_placed (in_newest_epoch self.old.me (placed_peer_of self.old)) self.old)) }
    {
        self.go_to_newest()?;
        self.begin_recovery_if_member()?;
        Ok(())
    }

    /// The epoch that an entry begins which was read is entered, and its recovery begins.
    fn enter_epoch_of(&mut self, entry: &Entry) -> Result<(), NoMemory>
        requires { HasReadEntry entry.now self.old }
        ensures { OnOk result (self.new ≡ with_epoch_of_entry entry.now self.old) }
    {
        if begins_epoch(entry) {
            self.enter_and_recover()
        } else if is_format(entry) {
            self.rows.enter_newest()
        } else {
            Ok(())
        }
    }

    /// What the entries settle is settled.
    fn settle(&mut self)
        requires { IsLog self.old.peer.entries }
        ensures { self.new ≡ with_entries_settled self.old }
    {
        self.rows.settle();
    }

    /// The node reads an entry: the peer reads it, then the epoch that it begins is entered and its recovery begins, then the epoch that
    /// it settles is settled.
    pub fn read(&mut self, entry: &Entry) -> Result<Decision, NoMemory>
        requires log { HasReadLog self.old }
        requires by_the_log { IsByTheLog self.old }
        requires own { self.old.recovery.me ≡ self.old.me }
        requires may { MayRead self.old.peer.entries entry.now }
        ensures decision { IfOk result (λ decision. decision ≡ decision_on entry.now self.old.peer) }
        ensures node { OnOk result (self.new ≡ entry_read entry.now self.old) }
    {
        let decision = self.read_next(entry)?;
        self.enter_epoch_of(entry)?;
        self.settle();
        Ok(decision)
    }
}

impl<O: ObjStore> NodeRows<O> {
    /// The rows of a lost node that comes back: its rows, closed. Its peer has read this log, and is in its last epoch.
    fn come_back(&mut self, alloc: Global, entries: &[Entry]) -> Result<(), NoMemory>
        requires { IsLog entries.now }
        ensures { OnOk result (self.new
            ≡ record { peer = come_back entries.now self.old.peer; epochs = epochs_up_to entries.now (epoch_of entries.now) }) }
    {
        let Some(tally) = tally_of(alloc, entries)? else {
            return Ok(());
        };
        let place = placement_of(alloc, &tally, entries)?;
        self.peer.come_back(entries, &tally, &mut self.locks)?;
        self.place = place;
        self.tally = Some(tally);
        Ok(())
    }
}

impl NodeState {
    /// What is left of a lost node: its rows, closed, and its count of sends. It has read this log, and is in its last epoch.
    fn come_back_with(&mut self, entries: &[Entry]) -> Result<(), NoMemory>
        requires { IsLog entries.now }
        ensures { OnOk result (self.new ≡ come_back_with entries.now self.old) }
    {
        let alloc = self.alloc;
        self.rows.come_back(alloc, entries)?;
        self.gateway = Gateway::new(alloc, self.me, self.gateway.tries());
        self.recovery = Recovery::new(alloc, self.me);
        self.recovered = false;
        self.sessions = Sessions::new(alloc);
        self.requests = Requests::new(alloc);
        self.outbox = VecDeque::new(alloc);
        Ok(())
    }

    /// A lost node comes back, has read all these entries, and recovers their last epoch.
    pub fn back(&mut self, entries: &[Entry]) -> Result<(), NoMemory>
        requires log { HasReadLog self.old }
        requires may { MayComeBack entries.now self.old }
        ensures { OnOk result (self.new ≡ on_back entries.now self.old) }
    {
        self.come_back_with(entries)?;
        self.begin_recovery()?;
        Ok(())
    }
}
