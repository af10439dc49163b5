//! A lost node comes back, between two rounds.

ghost use Rattle.std.specs.Prelude.{◌≡◌, ◌≤◌, true, false, Ok, Err, IfOk};
ghost use Rattle.live_workers.specs.PlaceSeats.{IsSeatAfter};
ghost use Rattle.live_workers.specs.declared.work_fault.WorkFault.TheVariants as faults;

use crate::brought::brought_of;
use crate::controls::Control;
use crate::place::Place;
use crate::shared::Shared;
use crate::work_fault::WorkFault;
use epoch_log::EntryList;
use live_cells::{Carry, LogCell};
use object_id::{Entry, Member, NODES_MAX, NoMemory, NodeId};
use sheep_node::{Event, Input};
use stamp_clock::ClockName;
use std::alloc::Global;
use std::sync::Wait;

/// The weight of a node among members; none if it isn't one.
fn weight_among(members: &[Member], node: NodeId) -> Option<u16> {
    for member in members {
        if member.node == node {
            return Some(member.vnodes);
        }
    }
    None
}

/// The weight that an entry gives a node, if it gives one.
fn weight_by(entry: &Entry, node: NodeId) -> Option<u16> {
    match entry {
        Entry::Format { members } => weight_among(members.as_slice(), node),
        Entry::Join {
            node: joined,
            vnodes,
            ..
        } if *joined == node => Some(*vnodes),
        Entry::Reweight {
            node: weighed,
            vnodes,
        } if *weighed == node => Some(*vnodes),
        _ => None,
    }
}

/// The weight that a node has by the log's entries: the last one that it was given.
fn last_weight(entries: &[Entry], node: NodeId) -> u16 {
    let mut last = 0u16;
    for entry in entries {
        if let Some(weight) = weight_by(entry, node) {
            last = weight;
        }
    }
    last
}

/// The log's entries, and behind them the join.
fn entries_with(alloc: Global, entries: &[Entry], join: &Entry) -> Result<EntryList, NoMemory> {
    let mut copy = EntryList::new(alloc);
    for entry in entries {
        copy.push(entry.copy(alloc)?)?;
    }
    copy.push(join.copy(alloc)?)?;
    Ok(copy)
}

/// The event at which a node comes back, and its input: the log's entries, and behind them its join.
fn coming_back(
    alloc: Global,
    entries: &[Entry],
    join: &Entry,
    node: NodeId,
) -> Result<(Event, Input), NoMemory> {
    let entries = entries_with(alloc, entries, join)?;
    Ok((Event::Back { node }, Input::Back { entries }))
}

impl<'a, N: ClockName> Shared<'a, N> {
    /// A node's join in its next incarnation, with its zone and its last weight.
    fn join_again(&self, log: &LogCell<N>, node: NodeId) -> Option<Entry> {
        if NODES_MAX <= node.0 {
            return None;
        }
        Some(Entry::Join {
            node,
            zone: self.script.zone(node.0),
            vnodes: last_weight(log.log().entries(), node),
        })
    }

    /// The node steps on coming back, and its join stands at the log's end: whether it may.
    #[tactic(auto, using(crate::proofs::SeatLemmas::drawn_one_kept))]
    fn revive<R: Wait>(&self, rt: &R, place: &mut Place<N>, node: NodeId) -> Result<bool, WorkFault>
        ensures seat { IfOk result (λ made. IsSeatAfter made place.old.seat place.new.seat) }
        ensures no_stamp { result ≡ Err faults.NoStamp → place.new.seat.spent ≡ true }
        ensures place { (place.new.worker ≡ place.old.worker) × (place.new.turn ≡ place.old.turn) }
        ensures asked { (place.new.begun ≡ place.old.begun) × (place.new.next ≡ place.old.next) }
        ensures far { NODES_MAX ≤ node.0 → result ≡ Ok false }
    {
        let Some(slot) = self.slot(node) else {
            return Ok(false);
        };
        let clock = &self.clock;
        let sent = {
            let mut slot = slot.lock(rt);
            let mut log = self.log.lock(rt);
            let Some(join) = self.join_again(&log, node) else {
                return Ok(false);
            };
            if !log.log().may_append(&join) {
                return Ok(false);
            }
            let (event, input) = coming_back(self.alloc, log.log().entries(), &join, node)?;
            let last = log.log().len() - 1;
            let brought = brought_of(self.alloc, log.carry_at(last, clock))?;
            let seat = &mut place.seat;
            let Some(stamp) = slot.act(event, input, brought, clock, seat)? else {
                return Ok(false);
            };
            log.append(join, Carry::new(stamp, clock, seat))?;
            slot.loss = None;
            slot.incarnation = slot.incarnation.saturating_add(1);
            slot.letters(self.alloc, stamp, None, clock, seat)?
        };
        Ok(self.post_sent(rt, Some(sent))?)
    }

    /// The node that the next control lets come back, if it is such a control.
    pub fn next_back<R: Wait>(&self, rt: &R) -> Option<NodeId> {
        match self.members.lock(rt).controls.front() {
            Some(Control::Back(node)) => Some(NodeId(*node)),
            _ => None,
        }
    }

    /// A node comes back by the next control: whether it may. Costs the step, and copies of the log.
    pub fn come_back<R: Wait>(
        &self,
        rt: &R,
        place: &mut Place<N>,
        node: NodeId,
    ) -> Result<bool, WorkFault>
        ensures seat { IfOk result (λ made. IsSeatAfter made place.old.seat place.new.seat) }
        ensures no_stamp { result ≡ Err faults.NoStamp → place.new.seat.spent ≡ true }
        ensures place { (place.new.worker ≡ place.old.worker) × (place.new.turn ≡ place.old.turn) }
        ensures asked { (place.new.begun ≡ place.old.begun) × (place.new.next ≡ place.old.next) }
        ensures far { NODES_MAX ≤ node.0 → result ≡ Ok false }
    {
        if !self.revive(rt, place, node)? {
            return Ok(false);
        }
        drop(self.members.lock(rt).controls.pop_front());
        Ok(true)
    }
}
