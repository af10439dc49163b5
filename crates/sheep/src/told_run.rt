//! A run, made and told event by event.

ghost use Rattle.std.specs.Prelude.{◌≡◌, true, [], ◌∷◌, ◌++◌, List, Some, IfOk, OnOk};
ghost use Rattle.disk_history.specs.declared.event.HistEvent.{HistEvent};
ghost use Rattle.sheep_world.specs.Enabled.{is_enabled};
ghost use Rattle.sheep_world.specs.Opening.{initial_world};
ghost use Rattle.sheep_world.specs.Step.{step};
ghost use Rattle.sheep.specs.ToldRun.{IsToldRun, TellsRun};

use cluster_script::Script;
use dog_report::{FinishedReport, Reporter};
use object_id::{Items, NoMemory};
use sheep_node::Event;
use sheep_world::World;
use std::alloc::Global;

/// A run in the making: the world that its events led to, the report of it so far, and the events. Its history is kept nowhere, since
/// nothing is printed of it.
#[derive(Drop)]
pub struct ToldRun {
    pub world: World,
    reporter: Reporter,
    events: Items<Event>,
}

/// A run that was made: its report, and its events.
#[derive(Drop)]
pub struct FinishedRun {
    pub report: FinishedReport,
    pub events: Items<Event>,
}

impl ToldRun {
    /// Before the first event.
    pub fn new(alloc: Global, script: &Script) -> Result<ToldRun, NoMemory>
        ensures told { IfOk result (IsToldRun script.now) }
        ensures events { IfOk result (λ told. told.events ≡ []) }
        ensures world { IfOk result (λ told. told.world.world ≡ initial_world script.now) }
    {
        let world = World::new(alloc, script)?;
        let reporter = Reporter::new(alloc);
        let events = Items::new(alloc);
        Ok(ToldRun {
            world,
            reporter,
            events,
        })
    }

    /// Makes an event that may happen, and tells of it.
    pub fn go_on(&mut self, alloc: Global, script: &Script, event: Event) -> Result<(), NoMemory>
        requires told { IsToldRun script.now self.old }
        requires enabled { is_enabled script.now self.old.world.world event ≡ true }
        ensures told { OnOk result (IsToldRun script.now self.new) }
        ensures events { OnOk result (self.new.events ≡ self.old.events ++ event ∷ []) }
        ensures made { OnOk result ((grown : List HistEvent)
            × (step script.now event self.old.world.world ≡ Some (record { world = self.new.world.world; grown = grown }))) }
    {
        self.reporter
            .tell_before(alloc, script, &self.world, event)?;
        match self.world.apply(script, event) {
            Ok(_grown) => {}
            // The event may happen, so the fault is want of memory.
            Err(_) => return Err(NoMemory),
        }
        self.reporter.add_made(alloc, &self.world)?;
        self.events.push(event)?;
        Ok(())
    }

    /// The report of the run, behind its last event.
    pub fn finish(self, script: &Script) -> Result<FinishedRun, NoMemory>
        requires { IsToldRun script.now self }
        ensures { IfOk result (TellsRun script.now self.events) }
    {
        let report = self.reporter.finish(script, &self.world)?;
        Ok(FinishedRun {
            report,
            events: self.events,
        })
    }
}
