//! The world that a script opens with.

ghost use Rattle.std.specs.Prelude.{◌≡◌, ◌≤◌, ◌<◌, map, IfOk};
ghost use Rattle.std.specs.FinMap as tree;
ghost use Rattle.object_id.specs.declared.limits.TheConstants.{NODES_MAX};
ghost use Rattle.cluster_script.specs.Settings.{nodes_of, new_member, opening_members};
ghost use Rattle.sheep_world.specs.Opening.{format_entry, initial_host, initial_member_node, initial_member_host, before_phases, initial_world};

use crate::cluster_log::ClusterLog;
use crate::guests::Guests;
use crate::host::Host;
use crate::hosts::Hosts;
use crate::world_state::{WorldState, no_outputs};
use cluster_script::Script;
use message_wire::Wire;
use object_id::{Entry, Member, MemberList, NoMemory, NodeId};
use sheep_node::{Input, Node};
use std::alloc::Global;
use std::collections::VecDeque;

/// How many nodes a script opens with: no more than there may be.
fn opening_count(script: &Script) -> u32
    ensures value { result ≡ nodes_of script.now }
    ensures limit { result ≤ NODES_MAX }
{
    let _statements = script.statements();
    script.nodes()
}

/// A node as a member for the first time.
fn new_member(script: &Script, node: u32) -> Member
    requires { node < NODES_MAX }
    ensures { result ≡ new_member script.now node }
{
    Member {
        node: NodeId(node),
        zone: script.zone(node),
        vnodes: script.vnodes(),
    }
}

/// The members that a script opens with, ascending.
fn opening_members(alloc: Global, script: &Script) -> Result<MemberList, NoMemory>
    ensures { IfOk result (λ members. members ≡ opening_members script.now) }
{
    let count = opening_count(script);
    let mut members = MemberList::new(alloc);
    for node in 0..count {
        members.push(new_member(script, node))?;
    }
    Ok(members)
}

/// The host of an opening member, which has read the log's first entry.
fn member_host(alloc: Global, script: &Script, format: &Entry, node: u32) -> Result<Host, NoMemory>
    requires { format.now ≡ format_entry script.now }
    ensures { IfOk result (λ host. host ≡ initial_host (initial_member_node script.now (new_member script.now node))) }
{
    let entry = format.copy(alloc)?;
    let new = Node::new(alloc, NodeId(node), script.tries());
    let (host, _) = Host::new(new).step(Input::LogEntry(entry))?;
    Ok(host)
}

/// The hosts of the opening members.
fn opening_hosts(alloc: Global, script: &Script, format: &Entry) -> Result<Hosts, NoMemory>
    requires { format.now ≡ format_entry script.now }
    ensures { IfOk result (λ hosts. hosts ≡ tree.from_entries (map (initial_member_host script.now) (opening_members script.now))) }
{
    let count = opening_count(script);
    let mut hosts = Hosts::new(alloc)?;
    // The last member first: each is put before those that are there.
    for placed in 0..count {
        let node = count - 1 - placed;
        let host = member_host(alloc, script, format, node)?;
        hosts.put(node, host)?;
    }
    Ok(hosts)
}

impl WorldState {
    /// Before the first phase: the log is its first entry, each opening member has read it, and all else is empty.
    fn before_phases(alloc: Global, script: &Script) -> Result<WorldState, NoMemory>
        ensures { IfOk result (λ world. world ≡ before_phases script.now) }
    {
        let members = opening_members(alloc, script)?;
        let format = Entry::Format {
            members: members.copy(alloc)?,
        };
        let hosts = opening_hosts(alloc, script, &format)?;
        let log = ClusterLog::new(alloc, members)?;
        Ok(WorldState {
            alloc,
            hosts,
            log,
            wire: Wire::new(alloc),
            guests: Guests::new(alloc),
            phase: 0,
            controls: VecDeque::new(alloc),
            losses: 0,
            asked: None,
            input: None,
            outputs: no_outputs(alloc),
        })
    }

    /// The opening world of a script: its first phase, if it has one, is present.
    #[tactic(auto, unfolding(crate::specs::Opening::initial_world))]
    pub fn opening(alloc: Global, script: &Script) -> Result<WorldState, NoMemory>
        ensures { IfOk result (λ world. world ≡ initial_world script.now) }
    {
        WorldState::before_phases(alloc, script)?.with_phase(script, 0)
    }
}
