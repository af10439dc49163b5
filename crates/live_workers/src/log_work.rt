//! What a node does with the log, its ticks, and its first worker.

ghost use Rattle.std.specs.Prelude.{◌≡◌, ◌≤◌, true, false, Ok, Err, IfOk, OnOk};
ghost use Rattle.object_id.specs.declared.limits.TheConstants.{NODES_MAX};
ghost use Rattle.live_workers.specs.PlaceSeats.{IsSeatAfter, HasDrawnAtMostOne};
ghost use Rattle.live_workers.specs.declared.work_fault.WorkFault.TheVariants as faults;

use crate::place::Place;
use crate::shared::Shared;
use crate::slot::Slot;
use crate::work_fault::WorkFault;
use epoch_log::Log;
use live_cells::{Carry, LogCell, NodeCell};
use object_id::{EPOCH_MAX, Entry, NoMemory, NodeId};
use sheep_node::{Event, Input};
use stamp_clock::{Clock, ClockName};
use std::alloc::Global;
use std::sync::Wait;

/// The entry at a place of the log, with its carry as what is brought; none past the end.
fn entry_with_carry<N: ClockName>(
    alloc: Global,
    log: &mut LogCell<N>,
    place: usize,
    clock: &Clock,
) -> Result<Option<(Entry, Vec<Carry<N>>)>, NoMemory>
    requires { clock.now.id ≡ N.clock }
{
    if place >= log.log().len() {
        return Ok(None);
    }
    let entry = match log.log().entry(place) {
        Some(entry) => entry.copy(alloc)?,
        None => return Ok(None),
    };
    let mut brought = Vec::with_capacity(alloc, 1)?;
    brought.push(log.carry_at(place, clock))?;
    Ok(Some((entry, brought)))
}

/// How many entries the node has read; none if it doesn't exist or is lost.
fn read_len<N: ClockName>(slot: &Slot<N>) -> Result<Option<usize>, NoMemory> {
    match slot.live_cell() {
        Some(cell) => {
            if cell.spent() {
                return Err(NoMemory);
            }
            Ok(Some(cell.node().read_len()))
        }
        None => Ok(None),
    }
}

/// Whether the log has room for an epoch.
fn has_room(log: &Log) -> bool {
    log.epoch_at(log.len()).0 < EPOCH_MAX
}

/// What the cell's last step put into the log.
fn put_of(alloc: Global, cell: &NodeCell) -> Result<Option<Entry>, NoMemory> {
    if cell.spent() {
        return Err(NoMemory);
    }
    match cell.steps().last() {
        Some(step) => match &step.outputs.put {
            Some(entry) => Ok(Some(entry.copy(alloc)?)),
            None => Ok(None),
        },
        None => Ok(None),
    }
}

/// What the node's last step put into the log.
fn last_put<N: ClockName>(alloc: Global, slot: &Slot<N>) -> Result<Option<Entry>, NoMemory> {
    match slot.cell.as_ref() {
        Some(cell) => put_of(alloc, cell),
        None => Ok(None),
    }
}

impl<'a, N: ClockName> Shared<'a, N> {
    /// The node reads the log's next entry: whether there was one.
    pub(crate) fn read_log<R: Wait>(
        &self,
        rt: &R,
        place: &mut Place<N>,
        node: NodeId,
    ) -> Result<bool, WorkFault>
        ensures seat { IfOk result (λ made. IsSeatAfter made place.old.seat place.new.seat) }
        ensures no_stamp { result ≡ Err faults.NoStamp → place.new.seat.spent ≡ true }
        ensures place { (place.new.worker ≡ place.old.worker) × (place.new.turn ≡ place.old.turn) }
        ensures asked { (place.new.begun ≡ place.old.begun) × (place.new.next ≡ place.old.next) }
        ensures far { NODES_MAX ≤ node.0 → result ≡ Ok false }
    {
        let Some(slot) = self.slot(node) else {
            return Ok(false);
        };
        let clock = &self.clock;
        let sent = {
            let mut slot = slot.lock(rt);
            let Some(read) = read_len(&slot)? else {
                return Ok(false);
            };
            let mut log = self.log.lock(rt);
            let Some((entry, brought)) = entry_with_carry(self.alloc, &mut log, read, clock)? else {
                return Ok(false);
            };
            let event = Event::LogNext { node };
            let input = Input::LogEntry(entry);
            slot.step(
                self.alloc,
                event,
                input,
                brought,
                None,
                clock,
                &mut place.seat,
            )?
        };
        Ok(self.post_sent(rt, sent)?)
    }

    /// The first entry of the node's outbox stands at the log's end: whether there was one.
    pub(crate) fn put<R: Wait>(
        &self,
        rt: &R,
        place: &mut Place<N>,
        node: NodeId,
    ) -> Result<bool, WorkFault>
        ensures seat { IfOk result (λ made. IsSeatAfter made place.old.seat place.new.seat) }
        ensures no_stamp { result ≡ Err faults.NoStamp → place.new.seat.spent ≡ true }
        ensures place { (place.new.worker ≡ place.old.worker) × (place.new.turn ≡ place.old.turn) }
        ensures asked { (place.new.begun ≡ place.old.begun) × (place.new.next ≡ place.old.next) }
        ensures far { NODES_MAX ≤ node.0 → result ≡ Ok false }
    {
        let Some(slot) = self.slot(node) else {
            return Ok(false);
        };
        let clock = &self.clock;
        let mut slot = slot.lock(rt);
        if !slot.may(&Input::Put)? {
            return Ok(false);
        }
        let mut log = self.log.lock(rt);
        // Whether the log has room is known before the stamp is drawn; what the node puts fits beside that.
        if !has_room(log.log()) {
            return Ok(false);
        }
        let none = Vec::new(self.alloc);
        let event = Event::Put { node };
        let Some(stamp) = slot.act(event, Input::Put, none, clock, &mut place.seat)? else {
            return Ok(false);
        };
        if let Some(entry) = last_put(self.alloc, &slot)? {
            // It may stand there, as the test tells.
            if !log.log().may_append(&entry) {
                return Err(WorkFault::NoMemory);
            }
            log.append(entry, Carry::new(stamp, clock, &mut place.seat))?;
        }
        Ok(true)
    }

    /// The node steps on a tick, if it may: whether it did.
    pub fn tick<R: Wait>(
        &self,
        rt: &R,
        place: &mut Place<N>,
        node: NodeId,
        event: Event,
        input: Input,
    ) -> Result<bool, WorkFault>
        ensures seat { IfOk result (λ made. IsSeatAfter made place.old.seat place.new.seat) }
        ensures no_stamp { result ≡ Err faults.NoStamp → place.new.seat.spent ≡ true }
        ensures place { (place.new.worker ≡ place.old.worker) × (place.new.turn ≡ place.old.turn) }
        ensures asked { (place.new.begun ≡ place.old.begun) × (place.new.next ≡ place.old.next) }
        ensures far { NODES_MAX ≤ node.0 → result ≡ Ok false }
    {
        let Some(slot) = self.slot(node) else {
            return Ok(false);
        };
        let sent = {
            let mut slot = slot.lock(rt);
            if !slot.is_live() {
                return Ok(false);
            }
            let none = Vec::new(self.alloc);
            let clock = &self.clock;
            slot.step(self.alloc, event, input, none, None, clock, &mut place.seat)?
        };
        Ok(self.post_sent(rt, sent)?)
    }

    /// One event of a node's first worker, if there is one to make: whether there was. A letter on which its node may not step is one.
    #[tactic(auto, using(crate::proofs::SeatLemmas::drawn_none, crate::proofs::SeatLemmas::drawn_behind))]
    pub fn serve<R: Wait>(
        &self,
        rt: &R,
        place: &mut Place<N>,
        node: NodeId,
    ) -> Result<bool, WorkFault>
        ensures seat { OnOk result (HasDrawnAtMostOne place.old.seat place.new.seat) }
        ensures no_stamp { result ≡ Err faults.NoStamp → place.new.seat.spent ≡ true }
        ensures idle { result ≡ Ok false → place.new.seat ≡ place.old.seat }
        ensures place { (place.new.worker ≡ place.old.worker) × (place.new.turn ≡ place.old.turn) }
        ensures asked { (place.new.begun ≡ place.old.begun) × (place.new.next ≡ place.old.next) }
        ensures far { NODES_MAX ≤ node.0 → result ≡ Ok false }
    {
        if self.take_letter(rt, place, node)? {
            return Ok(true);
        }
        if self.read_log(rt, place, node)? {
            return Ok(true);
        }
        if self.put(rt, place, node)? {
            return Ok(true);
        }
        self.tick(rt, place, node, Event::RetryTick { node }, Input::RetryTick)
    }
}
