//! An event that may happen is made.

ghost use Rattle.std.specs.Prelude.{◌≡◌, true, [], Some, IfOk};
ghost use Rattle.sheep_world.specs.Enabled.{is_enabled};
ghost use Rattle.sheep_world.specs.HistoryAdditions.{loss_grown};
ghost use Rattle.sheep_world.specs.MembershipChanges.{node_lost, node_left, node_joined, node_reweighted, came_back, phase_ended};
ghost use Rattle.sheep_world.specs.MadeWorlds.{world_after_event, event_adds};
ghost use Rattle.sheep_world.specs.Step.{step};

use crate::conditions::name_of;
use crate::world_state::WorldState;
use cluster_script::Script;
use disk_history::HistList;
use object_id::NoMemory;
use sheep_node::Event;

impl WorldState {
    /// The loss of a node, with the writers that it leaves without reply.
    fn loss_made(self, script: &Script, node: u32) -> Result<(WorldState, HistList), NoMemory>
        ensures world { IfOk result (λ made. made.0 ≡ node_lost node self) }
        ensures grown { IfOk result (λ made. made.1 ≡ loss_grown script.now node self) }
    {
        let grown = self.loss_grown(script, node)?;
        Ok((self.node_lost(node)?, grown))
    }

    /// The world, with nothing added to the history. Takes no memory.
    fn with_nothing_added(self) -> (WorldState, HistList)
        ensures world { result.0 ≡ self }
        ensures grown { result.1 ≡ [] }
    {
        let none = HistList::new(self.alloc);
        (self, none)
    }

    /// A member leaves.
    fn leave_made(self, node: u32) -> Result<(WorldState, HistList), NoMemory>
        ensures world { IfOk result (λ made. made.0 ≡ node_left node self) }
        ensures grown { IfOk result (λ made. made.1 ≡ []) }
    {
        Ok(self.node_left(node)?.with_nothing_added())
    }

    /// A node joins.
    fn join_made(self, script: &Script, node: u32) -> Result<(WorldState, HistList), NoMemory>
        ensures world { IfOk result (λ made. made.0 ≡ node_joined script.now node self) }
        ensures grown { IfOk result (λ made. made.1 ≡ []) }
    {
        Ok(self.node_joined(script, node)?.with_nothing_added())
    }

    /// A member gets another weight.
    fn reweight_made(self, node: u32) -> Result<(WorldState, HistList), NoMemory>
        ensures world { IfOk result (λ made. made.0 ≡ node_reweighted node self) }
        ensures grown { IfOk result (λ made. made.1 ≡ []) }
    {
        Ok(self.node_reweighted(node)?.with_nothing_added())
    }

    /// A lost node comes back.
    fn return_made(self, script: &Script, node: u32) -> Result<(WorldState, HistList), NoMemory>
        ensures world { IfOk result (λ made. made.0 ≡ came_back script.now node self) }
        ensures grown { IfOk result (λ made. made.1 ≡ []) }
    {
        Ok(self.came_back(script, node)?.with_nothing_added())
    }

    /// A phase ends.
    fn phase_made(self, script: &Script) -> Result<(WorldState, HistList), NoMemory>
        ensures world { IfOk result (λ made. made.0 ≡ phase_ended script.now self) }
        ensures grown { IfOk result (λ made. made.1 ≡ []) }
    {
        Ok(self.phase_ended(script)?.with_nothing_added())
    }

    /// What an event makes of the world, and adds to the history.
    fn after_event(self, script: &Script, event: Event) -> Result<(WorldState, HistList), NoMemory>
        ensures world { IfOk result (λ made. made.0 ≡ world_after_event script.now event self) }
        ensures grown { IfOk result (λ made. made.1 ≡ event_adds script.now event self made.0) }
    {
        match event {
            Event::Guest { session } => self.guest_asked(script, session),
            Event::Deliver { node, number } => {
                self.message_delivered(script, name_of(node, number))
            }
            Event::LoseRequest { node, number } => self.message_lost(script, name_of(node, number)),
            Event::LoseReply { node, number } => self.message_lost(script, name_of(node, number)),
            Event::LogNext { node } => self.log_next(script, node.0),
            Event::Put { node } => self.put(script, node.0),
            Event::RecoverTick { node } => self.recover_tick(script, node.0),
            Event::RetryTick { node } => self.retry_tick(script, node.0),
            Event::Lost { node } => self.loss_made(script, node.0),
            Event::Leave { node } => self.leave_made(node.0),
            Event::Join { node } => self.join_made(script, node.0),
            Event::Reweight { node } => self.reweight_made(node.0),
            Event::Back { node } => self.return_made(script, node.0),
            Event::Phase => self.phase_made(script),
        }
    }

    /// An event that may happen is made; with what it adds to the history.
    pub fn step_by(self, script: &Script, event: Event) -> Result<(WorldState, HistList), NoMemory>
        requires { is_enabled script.now self event ≡ true }
        ensures { IfOk result (λ made. step script.now event self ≡ Some (record { world = made.0; grown = made.1 })) }
    {
        let (world, grown) = self.after_event(script, event)?;
        Ok((world, grown))
    }
}
