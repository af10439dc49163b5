//! The cluster, and that it is spent at want of memory.

ghost use Rattle.std.specs.Prelude.{◌≡◌, ◌↔◌, true, false, Some, Err, IfOk, OnOk, OnErr};
ghost use Rattle.sheep_world.specs.declared.fault.ApplyFault.TheVariants as faults;
ghost use Rattle.sheep_world.specs.Opening.{initial_world};
ghost use Rattle.sheep_world.specs.Enabled.{is_enabled};
ghost use Rattle.sheep_world.specs.ClientAsks.{may_client_ask, may_be_asked};
ghost use Rattle.sheep_world.specs.ClientSteps.{ask_effect};
ghost use Rattle.sheep_world.specs.Step.{step};

use crate::fault::ApplyFault;
use crate::world_state::WorldState;
use cluster_script::Script;
use disk_history::HistList;
use object_id::{NoMemory, NodeId};
use sheep_node::{Ask, Event};
use std::alloc::Global;
use std::marker::Model;

/// The cluster as a whole. A call that answers out of memory spends it, and then nothing is left of it; a spent world makes no other
/// call. Contracts see whether it is spent, and the record `World` of `specs/World.antt`. No reader takes memory.
pub struct World {
    state: Option<WorldState>,
}

/// Written out, so that letting a world go is one call in the crates above, and not a case for each of its parts there.
impl Drop for World {
    fn drop(self) {
        let World { state } = self;
        drop(state);
    }
}

impl Model for World {
    ghost use Rattle.std.specs.Prelude.{List, [], is_none, unwrap_or};
    ghost use Rattle.std.specs.Coded.{codes, coded_ℕ};
    ghost use Rattle.std.specs.FinMap as tree;
    ghost use Rattle.std.specs.FinSet as set;
    ghost use Rattle.std.specs.Ordering.{nat_cmp};
    ghost use Rattle.object_store.specs.Store.{SeenRow};
    ghost use Rattle.gateway.specs.State.{Work};
    ghost use Rattle.message_wire.specs.declared.packet.Packet.{Packet};
    ghost use Rattle.message_wire.specs.Message.{name_cmp};
    ghost use Rattle.sheep_node.specs.declared.course.Request.{Request};
    ghost use Rattle.sheep_node.specs.declared.session.Session.{Session};
    ghost use Rattle.sheep_world.specs.declared.progress.SessionProgress.{SessionProgress};
    ghost use Rattle.sheep_world.specs.World.{Host};
    ghost use Rattle.sheep_world.specs.Opening.{initial_world};
    ghost use Rattle.sheep_world.specs.SpentWorld.{WorldOrSpent};

    ghost Value = { WorldOrSpent };

    ghost coded = { Prim.hlevel (
      codes,
      tree.code {X = Packet} {R = name_cmp} (Prim.hlevel codes) (Prim.hlevel codes),
      tree.code {X = SessionProgress} {R = nat_cmp} coded_ℕ (Prim.hlevel codes),
      tree.code {X = Host} {R = nat_cmp} coded_ℕ (Prim.hlevel (
        codes,
        tree.code {X = List SeenRow} {R = nat_cmp} coded_ℕ (Prim.hlevel codes),
        tree.code {X = Work} {R = nat_cmp} coded_ℕ (Prim.hlevel codes),
        set.code {R = nat_cmp} coded_ℕ,
        tree.code {X = Session} {R = nat_cmp} coded_ℕ (Prim.hlevel codes),
        tree.code {X = Request} {R = nat_cmp} coded_ℕ (Prim.hlevel codes),
      )),
    ) };

    ghost view = { λ world. record { spent = is_none world.state; world = unwrap_or world.state (initial_world []) } };
}

impl World {
    /// The opening world of a script.
    pub fn new(alloc: Global, script: &Script) -> Result<World, NoMemory>
        ensures { IfOk result (λ world. world ≡ record { spent = false; world = initial_world script.now }) }
    {
        let state = WorldState::opening(alloc, script)?;
        Ok(World { state: Some(state) })
    }

    /// Whether a call answered that it is out of memory.
    pub fn spent(&self) -> bool
        ensures { result ≡ self.now.spent }
    {
        self.state.is_none()
    }

    pub(crate) fn state(&self) -> &WorldState
        requires { self.now.spent ≡ false }
        ensures { result.now ≡ self.now.world }
    {
        self.state.as_ref().unwrap()
    }

    /// Makes an event that may happen, with what it adds to the history.
    pub(crate) fn make(&mut self, script: &Script, event: Event) -> Result<HistList, NoMemory>
        requires live { self.old.spent ≡ false }
        requires enabled { is_enabled script.now self.old.world event ≡ true }
        ensures live { OnOk result (self.new.spent ≡ false) }
        ensures made { IfOk result (λ grown.
            step script.now event self.old.world ≡ Some (record { world = self.new.world; grown = grown })) }
        ensures spent { OnErr result (self.new.spent ≡ true) }
    {
        let state = self.state.take().unwrap();
        let (state, grown) = state.step_by(script, event)?;
        self.state = Some(state);
        Ok(grown)
    }

    /// Makes an event, and gives what it adds to the history. An event that may not happen is refused, and the world stays. Costs what
    /// the step of its node costs, a look at each request without reply, and look-ups; for Lost a look at each request of the script, for
    /// Back a copy of the log.
    pub fn apply(&mut self, script: &Script, event: Event) -> Result<HistList, ApplyFault>
        requires { self.old.spent ≡ false }
        ensures refused { (result ≡ Err faults.NotEnabled) ↔ (is_enabled script.now self.old.world event ≡ false) }
        ensures unchanged { result ≡ Err faults.NotEnabled → self.new ≡ self.old }
        ensures live { OnOk result (self.new.spent ≡ false) }
        ensures made { IfOk result (λ grown.
            step script.now event self.old.world ≡ Some (record { world = self.new.world; grown = grown })) }
        ensures spent { result ≡ Err faults.NoMemory → self.new.spent ≡ true }
    {
        if !self.is_enabled(script, event) {
            return Err(ApplyFault::NotEnabled);
        }
        match self.make(script, event) {
            Ok(grown) => Ok(grown),
            Err(NoMemory) => Err(ApplyFault::NoMemory),
        }
    }

    /// Makes a client's ask.
    fn make_ask(&mut self, node: NodeId, ask: Ask) -> Result<(), NoMemory>
        requires { self.old.spent ≡ false }
        ensures live { OnOk result (self.new.spent ≡ false) }
        ensures made { OnOk result (self.new.world ≡ ask_effect node.0 ask self.old.world) }
        ensures spent { OnErr result (self.new.spent ≡ true) }
    {
        let state = self.state.take().unwrap();
        self.state = Some(state.client_asked(node.0, ask)?);
        Ok(())
    }

    /// A client without a script asks something of a node: a request numbered from 10,001 up, of session 0, which no script has. It is
    /// taken exactly where the node is up, and a member by what it has read, and the last ask has its reply; else the world stays. What is
    /// asked has to be as it may be then. An ask is no event of a run, and adds nothing to a history; a read of an object by its id is a
    /// move of a run. Costs what the node's step costs, and a look-up for each message that it gives.
    pub fn ask(&mut self, node: NodeId, ask: Ask) -> Result<(), ApplyFault>
        requires live { self.old.spent ≡ false }
        requires asked { may_client_ask node.0 self.old.world ≡ true → may_be_asked ask node.0 self.old.world ≡ true }
        ensures refused { (result ≡ Err faults.NotEnabled) ↔ (may_client_ask node.0 self.old.world ≡ false) }
        ensures unchanged { result ≡ Err faults.NotEnabled → self.new ≡ self.old }
        ensures live { OnOk result (self.new.spent ≡ false) }
        ensures made { OnOk result (self.new.world ≡ ask_effect node.0 ask self.old.world) }
        ensures spent { result ≡ Err faults.NoMemory → self.new.spent ≡ true }
    {
        if !self.state().may_client_ask(node.0) {
            return Err(ApplyFault::NotEnabled);
        }
        match self.make_ask(node, ask) {
            Ok(()) => Ok(()),
            Err(NoMemory) => Err(ApplyFault::NoMemory),
        }
    }
}
