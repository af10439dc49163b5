//! The answer to a client's ask is brought: events are made, each the first that may happen of those that bring answers.

ghost use Rattle.std.specs.Prelude.{◌≡◌, false, flat_map, is_some, IfOk, OnOk};
ghost use Rattle.std.specs.ControlFlow.{break_value};
ghost use Rattle.std.specs.FinMap as tree;
ghost use Rattle.sheep_world.specs.Enabled.{node_events};
ghost use Rattle.sheep_world.specs.EnabledPlaces.{place_behind_enabled};
ghost use Rattle.sheep_world.specs.ClientSteps.{next_driven, world_turned, world_driven, is_driven_to_answer};

use crate::world::World;
use crate::world_state::WorldState;
use cluster_script::Script;
use object_id::NoMemory;
use sheep_node::Event;
use std::ops::ControlFlow;

impl WorldState {
    /// The first thing that a node may do, by the nodes' numbers; none where none may do anything. Costs a few steps for each node.
    fn next_of_nodes(&self, script: &Script) -> Option<Event>
        ensures { result ≡ break_value (place_behind_enabled script.now self.now (flat_map node_events (tree.keys self.now.hosts)) 0) }
    {
        match self.pass_nodes(script, 0) {
            ControlFlow::Continue(_) => None,
            ControlFlow::Break(event) => Some(event),
        }
    }

    /// The first event that may happen of those that bring an answer. No session's request and no control does. All that nodes may do does,
    /// and so does the first thing that may happen to a message: its delivery comes before its loss, and may happen if both ends are up.
    /// Takes no memory. Costs a look at each message before the first to which something may happen, and a few steps for each node.
    fn next_driven(&self, script: &Script) -> Option<Event>
        ensures { result ≡ next_driven script.now self.now }
    {
        match self.pass_messages(script, 0) {
            ControlFlow::Continue(_) => self.next_of_nodes(script),
            ControlFlow::Break(event) => Some(event),
        }
    }
}

impl World {
    /// Makes the first event that brings an answer, if one may happen, and tells whether there was one. Out of memory nothing more is
    /// said of the world.
    fn turn(&mut self, script: &Script) -> Result<bool, NoMemory>
        requires { self.old.spent ≡ false }
        ensures made { IfOk result (λ made. made ≡ is_some (next_driven script.now self.old.world)) }
        ensures live { OnOk result (self.new.spent ≡ false) }
        ensures world { OnOk result (self.new.world ≡ world_turned script.now self.old.world) }
    {
        let next = self.state().next_driven(script);
        match next {
            Some(event) => {
                drop(self.make(script, event)?);
                Ok(true)
            }
            None => Ok(false),
        }
    }

    /// As `drive`, without telling whether there is a reply then.
    fn drive_on(&mut self, script: &Script, turns: u32) -> Result<(), NoMemory>
        requires { self.old.spent ≡ false }
        ensures live { OnOk result (self.new.spent ≡ false) }
        ensures world { OnOk result (self.new.world ≡ world_driven script.now turns self.old.world) }
    {
        for turn in 0..turns {
            if self.state().has_answer() {
                return Ok(());
            }
            if !self.turn(script)? {
                return Ok(());
            }
        }
        Ok(())
    }

    /// Makes events until the client's last ask has its reply, each the first that may happen then, in the order of the enabled list,
    /// but no session asks, no control is taken, and no message is lost between nodes that are up. Tells whether there is a reply: false
    /// exactly where no such event may happen, or so many turns were taken, and there is none. Out of memory nothing more is said of the
    /// world. Costs what the events cost, and for each what it costs to find it.
    pub fn drive(&mut self, script: &Script, turns: u32) -> Result<bool, NoMemory>
        requires { self.old.spent ≡ false }
        ensures answered { IfOk result (λ answered. answered ≡ is_driven_to_answer script.now turns self.old.world) }
        ensures live { OnOk result (self.new.spent ≡ false) }
        ensures world { OnOk result (self.new.world ≡ world_driven script.now turns self.old.world) }
    {
        self.drive_on(script, turns)?;
        Ok(self.state().has_answer())
    }
}
