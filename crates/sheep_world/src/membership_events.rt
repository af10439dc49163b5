//! What becomes of the members, the incarnations and the phases: the events that a script's controls make, Leave, and Phase.

ghost use Rattle.std.specs.Prelude.{◌≡◌, IfOk};
ghost use Rattle.std.specs.Option.{option_map_or};
ghost use Rattle.sheep_world.specs.MembershipChanges.{control_taken, host_changed, lost_host, revived_host, node_lost, node_left, join_of, node_joined, node_reweighted};
ghost use Rattle.sheep_world.specs.MembershipChanges.{node_rejoined, log_handed, came_back, phase_ended, weight_in};
ghost use Rattle.sheep_world.specs.Opening.{with_phase};
ghost use Rattle.sheep_world.specs.World.{host_at, next_control};

use crate::control::{Control, with_controls_of};
use crate::host::Host;
use crate::world_state::WorldState;
use cluster_script::Script;
use epoch_log::EntryList;
use object_id::{Entry, NODES_MAX, NoMemory, NodeId};
use sheep_node::{Input, Node};
use std::alloc::Global;

/// A copy of entries.
fn copied(alloc: Global, entries: &[Entry]) -> Result<EntryList, NoMemory>
    ensures { IfOk result (λ copy. copy ≡ entries.now) }
{
    let mut copy = EntryList::new(alloc);
    for entry in entries {
        copy.push(entry.copy(alloc)?)?;
    }
    Ok(copy)
}

/// The entry by which a node joins. A number that no node may have is told as want of memory: a script has none.
fn join_of(script: &Script, node: u32, vnodes: u16) -> Result<Entry, NoMemory>
    ensures { IfOk result (λ entry. entry ≡ join_of script.now node vnodes) }
{
    if NODES_MAX <= node {
        return Err(NoMemory);
    }
    Ok(Entry::Join {
        node: NodeId(node),
        zone: script.zone(node),
        vnodes,
    })
}

impl WorldState {
    /// The next control is taken. Takes no memory.
    fn control_taken(mut self) -> WorldState
        ensures { result ≡ control_taken self }
    {
        drop(self.controls.pop_front());
        self
    }

    /// A node is lost, if it exists.
    fn host_lost(mut self, node: u32) -> Result<WorldState, NoMemory>
        ensures { IfOk result (λ after. after ≡ host_changed lost_host node (host_at node self) self) }
    {
        let Some(host) = self.hosts.take(node) else {
            return Ok(self);
        };
        self.hosts.put(node, host.lose())?;
        Ok(self)
    }

    /// A lost node begins its next incarnation, if it exists.
    fn host_revived(mut self, node: u32) -> Result<WorldState, NoMemory>
        ensures { IfOk result (λ after. after ≡ host_changed revived_host node (host_at node self) self) }
    {
        let Some(host) = self.hosts.take(node) else {
            return Ok(self);
        };
        self.hosts.put(node, host.revive()?)?;
        Ok(self)
    }

    /// Lost: the node is lost, and the replies to it go. Costs the messages of which it is the sender.
    #[tactic(auto, unfolding(crate::specs::MembershipChanges::node_lost))]
    pub fn node_lost(self, node: u32) -> Result<WorldState, NoMemory>
        ensures { IfOk result (λ after. after ≡ node_lost node self) }
    {
        let mut world = self.at_rest().control_taken();
        world.wire.drop_replies_to(NodeId(node));
        world.host_lost(node)
    }

    /// Leave: the node's leave stands at the log's end.
    #[tactic(auto, unfolding(crate::specs::MembershipChanges::node_left))]
    pub fn node_left(self, node: u32) -> Result<WorldState, NoMemory>
        ensures { IfOk result (λ after. after ≡ node_left node self) }
    {
        self.at_rest()
            .with_entry(&Entry::Leave { node: NodeId(node) })
    }

    /// Join: the node's join stands at the log's end; the node exists, in its first incarnation, and has read nothing.
    #[tactic(auto, unfolding(crate::specs::MembershipChanges::node_joined))]
    pub fn node_joined(self, script: &Script, node: u32) -> Result<WorldState, NoMemory>
        ensures { IfOk result (λ after. after ≡ node_joined script.now node self) }
    {
        let mut world = self.at_rest().control_taken();
        let host = Host::new(Node::new(world.alloc, NodeId(node), script.tries()));
        world.hosts.put(node, host)?;
        let entry = join_of(script, node, script.vnodes())?;
        world.with_entry(&entry)
    }

    /// The weight that the next control gives; none if it gives none.
    fn next_weight(&self) -> u16
        ensures { result ≡ option_map_or weight_in (next_control self.now) 0 }
    {
        match self.controls.front() {
            Some(Control::Reweight(_, vnodes)) => *vnodes,
            _ => 0,
        }
    }

    /// Reweight: the node's new weight, which the control gives, stands at the log's end.
    #[tactic(auto, unfolding(crate::specs::MembershipChanges::node_reweighted))]
    pub fn node_reweighted(self, node: u32) -> Result<WorldState, NoMemory>
        ensures { IfOk result (λ after. after ≡ node_reweighted node self) }
    {
        let entry = Entry::Reweight {
            node: NodeId(node),
            vnodes: self.next_weight(),
        };
        self.at_rest().control_taken().with_entry(&entry)
    }

    /// A node's join, with its zone and its last weight, stands at the log's end, and the node begins its next incarnation. Passes over
    /// the log for the weight.
    fn node_rejoined(self, script: &Script, node: u32) -> Result<WorldState, NoMemory>
        ensures { IfOk result (λ after. after ≡ node_rejoined script.now node self) }
    {
        let entry = join_of(script, node, self.log.last_weight(node))?;
        self.at_rest()
            .control_taken()
            .with_entry(&entry)?
            .host_revived(node)
    }

    /// A node steps on coming back, with the whole log.
    fn log_handed(self, script: &Script, node: u32) -> Result<WorldState, NoMemory>
        ensures { IfOk result (λ after. after ≡ log_handed script.now node self) }
    {
        let entries = copied(self.alloc, self.log.entries())?;
        self.node_stepped(script, node, Input::Back { entries })
    }

    /// Back: the node joins again in its next incarnation, and steps on coming back.
    #[tactic(auto, unfolding(crate::specs::MembershipChanges::came_back))]
    pub fn came_back(self, script: &Script, node: u32) -> Result<WorldState, NoMemory>
        ensures { IfOk result (λ after. after ≡ came_back script.now node self) }
    {
        self.node_rejoined(script, node)?.log_handed(script, node)
    }

    /// The phase at a place is present: its controls stand behind those that are left, and no losses are left but its own.
    pub fn with_phase(self, script: &Script, place: usize) -> Result<WorldState, NoMemory>
        ensures { IfOk result (λ after. after ≡ with_phase script.now place self) }
    {
        let losses = match script.phase(place) {
            Some(phase) => phase.losses,
            None => 0,
        };
        Ok(WorldState {
            controls: with_controls_of(self.controls, script, place)?,
            phase: place,
            losses,
            ..self
        })
    }

    /// Phase: the next phase is present. A place that doesn't fit is told as want of memory: a script hasn't so many lines.
    #[tactic(auto, unfolding(crate::specs::MembershipChanges::phase_ended))]
    pub fn phase_ended(self, script: &Script) -> Result<WorldState, NoMemory>
        ensures { IfOk result (λ after. after ≡ phase_ended script.now self) }
    {
        match self.phase.checked_add(1) {
            Some(next) => self.at_rest().with_phase(script, next),
            None => Err(NoMemory),
        }
    }
}
