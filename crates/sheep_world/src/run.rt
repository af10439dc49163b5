//! A run as it is kept.

ghost use Rattle.std.specs.Prelude.{◌≡◌, ◌↔◌, ◌∷◌, ◌++◌, [], Some, Err, false, OnOk};
ghost use Rattle.sheep_world.specs.declared.fault.ApplyFault.TheVariants as faults;
ghost use Rattle.sheep_world.specs.Enabled.{is_enabled};
ghost use Rattle.sheep_world.specs.Run.{next};

use crate::fault::ApplyFault;
use crate::world::World;
use cluster_script::Script;
use disk_history::{HistEvent, HistList};
use object_id::{Items, NoMemory};
use sheep_node::Event;
use std::alloc::Global;
use std::marker::Model;

/// A run as it is kept: its events, and the history that they made. Contracts see the record `Run` of `specs/Run.antt`.
#[derive(Debug, Drop)]
pub struct Run {
    events: Items<Event>,
    history: HistList,
}

impl Model for Run {
    ghost use Rattle.std.specs.Coded.{codes};
    ghost use Rattle.sheep_world.specs.Run.{Run as TheRun};

    ghost Value = { TheRun };

    ghost view = { λ run. record { events = run.events; history = run.history } };
}

/// Adds later events behind earlier ones.
fn add_events(events: &mut HistList, later: HistList) -> Result<(), NoMemory>
    ensures { OnOk result (events.new ≡ events.old ++ later) }
{
    for event in later.into_vec() {
        events.push(event)?;
    }
    Ok(())
}

impl Run {
    /// No event yet. Takes no memory.
    pub fn new(alloc: Global) -> Run
        ensures { result ≡ record { events = []; history = [] } }
    {
        Run {
            events: Items::new(alloc),
            history: HistList::new(alloc),
        }
    }

    /// MakesMove on with an event, and what it added to the history. Out of memory nothing more is said of the run.
    pub fn push(&mut self, event: Event, grown: HistList) -> Result<(), NoMemory>
        ensures { OnOk result (self.new
            ≡ record { events = self.old.events ++ event ∷ []; history = self.old.history ++ grown }) }
    {
        self.events.push(event)?;
        add_events(&mut self.history, grown)
    }

    /// Makes an event in the world to which the events so far led, and goes on with it. An event that may not happen is refused, and the
    /// world and the run stay.
    pub fn go_on(
        &mut self,
        script: &Script,
        world: &mut World,
        event: Event,
    ) -> Result<(), ApplyFault>
        requires { world.old.spent ≡ false }
        ensures refused { (result ≡ Err faults.NotEnabled) ↔ (is_enabled script.now world.old.world event ≡ false) }
        ensures unchanged { result ≡ Err faults.NotEnabled → (world.new ≡ world.old) × (self.new ≡ self.old) }
        ensures live { OnOk result (world.new.spent ≡ false) }
        ensures events { OnOk result (self.new.events ≡ self.old.events ++ event ∷ []) }
        ensures made { OnOk result (next script.now event (record { world = world.old.world; history = self.old.history })
            ≡ Some (record { world = world.new.world; history = self.new.history })) }
    {
        let grown = world.apply(script, event)?;
        self.push(event, grown)?;
        Ok(())
    }

    pub fn events(&self) -> &[Event]
        ensures { result.now ≡ self.now.events }
    {
        self.events.as_slice()
    }

    pub fn history(&self) -> &[HistEvent]
        ensures { result.now ≡ self.now.history }
    {
        self.history.as_slice()
    }
}
