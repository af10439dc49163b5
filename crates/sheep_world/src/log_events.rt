//! What the steps of nodes that no message brings make of the world, and what stands at the log's end.

ghost use Rattle.std.specs.Prelude.{◌≡◌, ◌∷◌, [], None, IfOk};
ghost use Rattle.sheep_world.specs.World.{node_at};
ghost use Rattle.sheep_world.specs.Granted.{put_adds};
ghost use Rattle.sheep_world.specs.HistoryAdditions.{replies_grown};
ghost use Rattle.sheep_world.specs.Effects.{with_entries, next_entry, log_next_effect, put_done, put_effect, recover_tick_effect, retry_tick_effect};

use crate::granted::GrownLog;
use crate::world_state::WorldState;
use cluster_script::Script;
use disk_history::HistList;
use object_id::{Entry, NoMemory};
use sheep_node::Input;

impl WorldState {
    /// The next entry that a node reads; none if it doesn't exist, or has read the whole log. Takes memory for a copy of the entry.
    fn next_entry(&self, node: u32) -> Result<Option<Entry>, NoMemory>
        ensures { IfOk result (λ entry. entry ≡ next_entry self.now.log (node_at node self.now)) }
    {
        let Some(host) = self.hosts.get(node) else {
            return Ok(None);
        };
        match self.log.entry_at(host.node().read_len()) {
            Some(entry) => Ok(Some(entry.copy(self.alloc)?)),
            None => Ok(None),
        }
    }

    /// LogNext: a node reads the next entry of the log; with what the replies of its step add to the history.
    #[tactic(auto, unfolding(crate::specs::Effects::log_next_effect))]
    pub fn log_next(self, script: &Script, node: u32) -> Result<(WorldState, HistList), NoMemory>
        ensures world { IfOk result (λ made. made.0 ≡ log_next_effect script.now node self) }
        ensures grown { IfOk result (λ made. made.1 ≡ replies_grown script.now self None made.0) }
    {
        let none = HistList::new(self.alloc);
        match self.next_entry(node)? {
            Some(entry) => {
                self.at_rest()
                    .replied(script, node, Input::LogEntry(entry), none)
            }
            None => Ok((self.at_rest(), none)),
        }
    }

    /// An entry stands at the log's end. An entry that may not stand there is told as want of memory: in the worlds that a script
    /// reaches there is none.
    pub fn with_entry(self, entry: &Entry) -> Result<WorldState, NoMemory>
        ensures { IfOk result (λ after. after ≡ with_entries (entry.now ∷ []) self) }
    {
        let (log, _) = self.log.with_entry(entry)?;
        Ok(WorldState { log, ..self })
    }

    /// What the last step put stands at the log's end; with what that adds to the history.
    fn put_done(self) -> Result<(WorldState, HistList), NoMemory>
        ensures world { IfOk result (λ made. made.0 ≡ put_done self) }
        ensures grown { IfOk result (λ made. made.1 ≡ put_adds self.log made.0.outputs.put) }
    {
        let WorldState { log, outputs, .. } = self;
        let GrownLog { log, adds } = match &outputs.put {
            Some(entry) => log.grow(entry)?,
            None => GrownLog {
                log,
                adds: HistList::new(self.alloc),
            },
        };
        Ok((
            WorldState {
                log,
                outputs,
                ..self
            },
            adds,
        ))
    }

    /// Put: the first entry of a node's outbox stands at the log's end; with what that adds to the history.
    #[tactic(auto, unfolding(crate::specs::Effects::put_effect))]
    pub fn put(self, script: &Script, node: u32) -> Result<(WorldState, HistList), NoMemory>
        ensures world { IfOk result (λ made. made.0 ≡ put_effect script.now node self) }
        ensures grown { IfOk result (λ made. made.1 ≡ put_adds self.log made.0.outputs.put) }
    {
        self.at_rest()
            .node_stepped(script, node, Input::Put)?
            .put_done()
    }

    /// RecoverTick: a node's recovery makes a step; with what its replies add to the history.
    #[tactic(auto, unfolding(crate::specs::Effects::recover_tick_effect))]
    pub fn recover_tick(
        self,
        script: &Script,
        node: u32,
    ) -> Result<(WorldState, HistList), NoMemory>
        ensures world { IfOk result (λ made. made.0 ≡ recover_tick_effect script.now node self) }
        ensures grown { IfOk result (λ made. made.1 ≡ replies_grown script.now self None made.0) }
    {
        let none = HistList::new(self.alloc);
        self.at_rest()
            .replied(script, node, Input::RecoverTick, none)
    }

    /// RetryTick: a work of a node is tried again; with what the replies of the step add to the history.
    #[tactic(auto, unfolding(crate::specs::Effects::retry_tick_effect))]
    pub fn retry_tick(self, script: &Script, node: u32) -> Result<(WorldState, HistList), NoMemory>
        ensures world { IfOk result (λ made. made.0 ≡ retry_tick_effect script.now node self) }
        ensures grown { IfOk result (λ made. made.1 ≡ replies_grown script.now self None made.0) }
    {
        let none = HistList::new(self.alloc);
        self.at_rest().replied(script, node, Input::RetryTick, none)
    }
}
