//! The cluster as its script opens it, behind locks.

ghost use Rattle.std.specs.Prelude.{◌≡◌, ◌≤◌, Ok, None, map, length, All, IfOk, OnOk};
ghost use Rattle.std.specs.List.{range_with_len};
ghost use Rattle.live_workers.specs.Cells.{IsCellOf};
ghost use Rattle.live_workers.specs.PlaceSeats.{HasDrawnOne, HasDrawnOneAt};

use crate::controls::add_controls_of;
use crate::place::{MEMBERS_WORKER, Place};
use crate::shared::Shared;
use cluster_script::Script;
use epoch_log::Log;
use live_cells::{Carry, LogCell, NodeCell};
use object_id::{Entry, Member, NODES_MAX, NoMemory, NodeId};
use sheep_node::{Input, Node, conditions_are_tests, only_the_log_is_read};
use stamp_clock::{Clock, ClockName, Seat};
use std::alloc::Global;
use std::sync::Wait;

/// A node as a member for the first time; none where no node may have the number.
fn new_member(script: &Script, node: u32) -> Option<Member> {
    if NODES_MAX <= node {
        return None;
    }
    Some(Member {
        node: NodeId(node),
        zone: script.zone(node),
        vnodes: script.vnodes(),
    })
}

/// The members that a script opens with, ascending.
fn members_of(alloc: Global, script: &Script) -> Result<Vec<Member>, NoMemory> {
    let mut members = Vec::new(alloc);
    for node in 0..script.nodes() {
        if let Some(member) = new_member(script, node) {
            members.push(member)?;
        }
    }
    Ok(members)
}

/// The log of its first entry, with that entry's carry.
fn opening_log<N: ClockName>(
    alloc: Global,
    script: &Script,
    clock: &Clock,
    seat: &mut Seat,
) -> Result<LogCell<N>, NoMemory>
    requires clock { clock.now.id ≡ N.clock }
    requires seat { seat.old.clock ≡ N.clock }
    ensures drawn { OnOk result (HasDrawnOne seat.old seat.new) }
    ensures clock { seat.new.clock ≡ N.clock }
{
    let Ok(stamp) = clock.draw(seat) else {
        return Err(NoMemory);
    };
    let carry = Carry::new(stamp, clock, seat);
    let members = members_of(alloc, script)?;
    if !Log::may_open(members.as_slice()) {
        return Err(NoMemory);
    }
    LogCell::new(alloc, Log::new(alloc, members.as_slice())?, carry)
}

/// The cell of an opening member, which has read the log's first entry.
#[tactic(auto, using(crate::proofs::OpeningCells::opens_on_format))]
fn opening_cell(
    alloc: Global,
    number: u32,
    tries: u32,
    format: &Entry,
) -> Result<NodeCell, NoMemory>
    ensures { IfOk result (IsCellOf number) }
{
    let mut node = Node::new(alloc, NodeId(number), tries);
    let input = Input::LogEntry(format.copy(alloc)?);
    if !node.may(&input) {
        return Err(NoMemory);
    }
    // The test is the condition of a step.
    conditions_are_tests();
    only_the_log_is_read();
    drop(node.step(input)?);
    NodeCell::new(alloc, node)
}

/// The workers' places, each with its seat.
fn places_of<N: ClockName>(alloc: Global, seats: Vec<Seat>) -> Result<Vec<Place<N>>, NoMemory>
    requires { All (λ seat. seat.clock ≡ N.clock) seats.items }
    ensures workers { IfOk result (λ places. map (λ place. place.worker) places.items ≡ range_with_len 0 (length seats.items)) }
    ensures seats { IfOk result (λ places. map (λ place. place.seat) places.items ≡ seats.items) }
    ensures new { IfOk result (λ places. All (λ place. (place.turn ≡ 0) × (place.begun ≡ 0) × (place.next ≡ None)) places.items) }
{
    let mut places = Vec::with_capacity(alloc, seats.len())?;
    for seat in seats {
        let Ok(worker) = u32::try_from(places.len()) else {
            return Err(NoMemory);
        };
        places.push(Place::new(worker, seat))?;
    }
    Ok(places)
}

/// The log of its first entry, of which the seat of worker 256 draws the stamp.
#[tactic(auto, using(crate::proofs::PlaceLists::drawn_at, crate::proofs::PlaceLists::clocks_stay))]
fn log_by_seats<N: ClockName>(
    alloc: Global,
    script: &Script,
    clock: &Clock,
    seats: &mut Vec<Seat>,
) -> Result<LogCell<N>, NoMemory>
    requires clock { clock.now.id ≡ N.clock }
    requires seats { All (λ seat. seat.clock ≡ N.clock) seats.old.items }
    ensures clock { OnOk result (All (λ seat. seat.clock ≡ N.clock) seats.new.items) }
    ensures count { OnOk result (length seats.new.items ≡ length seats.old.items) }
    ensures drawn { OnOk result (HasDrawnOneAt MEMBERS_WORKER seats.old.items seats.new.items) }
{
    match seats.get_mut(MEMBERS_WORKER as usize) {
        Some(seat) => {
            let log = opening_log(alloc, script, clock, seat)?;
            Ok(log)
        }
        None => Err(NoMemory),
    }
}

impl<'a, N: ClockName> Shared<'a, N> {
    /// Puts the cells of the opening members behind their locks, and the first phase's controls in order.
    fn open<R: Wait>(&self, rt: &R, format: &Entry) -> Result<(), NoMemory> {
        for node in 0..self.script.nodes() {
            if let Some(slot) = self.slot(NodeId(node)) {
                let mut slot = slot.lock(rt);
                let cell = opening_cell(self.alloc, slot.number, self.script.tries(), format)?;
                slot.cell = Some(cell);
            }
        }
        let mut members = self.members.lock(rt);
        add_controls_of(&mut members.controls, self.script, 0)
    }

    /// The controls of the phases that were begun since one stand behind those that are left. Costs them.
    pub fn begin_phases<R: Wait>(&self, rt: &R, from: usize, to: usize) -> Result<(), NoMemory>
        // Where no phase was begun it takes no memory.
        ensures { to ≤ from → result ≡ Ok tt }
    {
        let mut members = self.members.lock(rt);
        for phase in from..to {
            add_controls_of(&mut members.controls, self.script, phase + 1)?;
        }
        Ok(())
    }

    /// The cluster as its script opens it, and the places of its workers. The first stamp is that of the log's first entry.
    #[tactic(auto, using(crate::proofs::PlaceLists::drawn_at_kept))]
    pub fn opening<R: Wait>(
        rt: &R,
        alloc: Global,
        script: &'a Script,
        clock: Clock,
        seats: Vec<Seat>,
    ) -> Result<(Shared<'a, N>, Vec<Place<N>>), NoMemory>
        requires clock { clock.id ≡ N.clock }
        requires seats { All (λ seat. seat.clock ≡ N.clock) seats.items }
        ensures script { IfOk result (λ opened. opened.0.script.now ≡ script.now) }
        // There is a place for each seat, by its worker's number, from 0.
        ensures workers { IfOk result (λ opened. map (λ place. place.worker) opened.1.items ≡ range_with_len 0 (length seats.items)) }
        ensures new { IfOk result (λ opened. All (λ place. (place.turn ≡ 0) × (place.begun ≡ 0) × (place.next ≡ None)) opened.1.items) }
        // Worker 256 drew the first stamp, and the others' seats are as they were.
        ensures seats { IfOk result (λ opened. HasDrawnOneAt MEMBERS_WORKER seats.items (map (λ place. place.seat) opened.1.items)) }
    {
        let mut seats = seats;
        let log = log_by_seats(alloc, script, &clock, &mut seats)?;
        let places = places_of(alloc, seats)?;
        let format = match log.log().entry(0) {
            Some(entry) => entry.copy(alloc)?,
            None => return Err(NoMemory),
        };
        let shared = Shared::new(alloc, script, clock, log)?;
        shared.open(rt, &format)?;
        Ok((shared, places))
    }
}
