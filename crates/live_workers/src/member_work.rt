//! Worker 256: what becomes of the members, and what is lost with both its ends.

ghost use Rattle.std.specs.Prelude.{◌≡◌, ◌≢◌, ◌<◌, true, false, [], None, Err, All, IfOk, OnOk};
ghost use Rattle.live_workers.specs.Cells.{IsCellOf};
ghost use Rattle.live_workers.specs.OtherSteps.{is_loss, needs_no_node, IsOther};
ghost use Rattle.live_workers.specs.PlaceSeats.{HasDrawnOne, IsSeatAfter};
ghost use Rattle.live_workers.specs.declared.work_fault.WorkFault.TheVariants as faults;

use crate::brought::both_brought;
use crate::controls::Control;
use crate::members::Members;
use crate::place::Place;
use crate::shared::{LostRequest, Shared};
use crate::work_fault::WorkFault;
use live_cells::{Carry, LogCell, NodeCell, StampList, Step, draw_above};
use object_id::{Entry, NODES_MAX, NoMemory, NodeId};
use peer_proto::SendList;
use sheep_node::{Event, Node, Outputs, ReplyList};
use stamp_clock::ClockName;
use std::alloc::Global;
use std::sync::Wait;

/// The outputs where no node stepped.
fn no_outputs(alloc: Global) -> Outputs
    ensures { result ≡ record { sends = []; say = None; replies = []; put = None } }
{
    Outputs {
        sends: SendList::new(alloc),
        say: None,
        replies: ReplyList::new(alloc),
        put: None,
    }
}

/// The stamps that are brought.
fn stamps_of<N: ClockName>(alloc: Global, brought: &[Carry<N>]) -> Result<StampList, NoMemory>
    ensures { IfOk result (λ stamps. stamps ≡ brought.now) }
{
    let mut stamps = Vec::with_capacity(alloc, brought.len())?;
    for carry in brought {
        stamps.push(carry.stamp())?;
    }
    Ok(StampList::from_vec(stamps))
}

/// A step at which no node stepped.
fn other_step(alloc: Global, stamp: u64, event: Event, used: StampList) -> Step
    requires event { needs_no_node event ≡ true }
    requires above { All (λ earlier. earlier < stamp) used }
    requires brought { is_loss event ≡ true → used ≢ [] }
    ensures { IsOther result }
{
    Step {
        stamp,
        event,
        input: None,
        outputs: no_outputs(alloc),
        used,
    }
}

/// The cell of a node that joins: it has read nothing.
fn joining_cell(alloc: Global, number: u32, tries: u32) -> Result<NodeCell, NoMemory>
    ensures { IfOk result (IsCellOf number) }
{
    let node = Node::new(alloc, NodeId(number), tries);
    NodeCell::new(alloc, node)
}

impl<'a, N: ClockName> Shared<'a, N> {
    /// Keeps a step at which no node steps, above what was brought to it: its stamp, which the place's seat has seen.
    #[tactic(auto, using(crate::proofs::SeatLemmas::drawn_one))]
    fn keep(
        &self,
        members: &mut Members,
        place: &mut Place<N>,
        event: Event,
        brought: Vec<Carry<N>>,
    ) -> Result<u64, WorkFault>
        requires event { needs_no_node event ≡ true }
        requires brought { is_loss event ≡ true → brought.items ≢ [] }
        ensures seen { IfOk result (λ stamp. stamp < place.new.seat.seen) }
        ensures seat { OnOk result (HasDrawnOne place.old.seat place.new.seat) }
        ensures no_stamp { result ≡ Err faults.NoStamp → place.new.seat.spent ≡ true }
        ensures place { (place.new.worker ≡ place.old.worker) × (place.new.turn ≡ place.old.turn) }
        ensures asked { (place.new.begun ≡ place.old.begun) × (place.new.next ≡ place.old.next) }
    {
        members.others.reserve()?;
        let used = stamps_of(self.alloc, brought.as_slice())?;
        let mut brought = brought;
        let stamp = draw_above(&mut brought, &self.clock, &mut place.seat)?;
        let step = other_step(self.alloc, stamp, event, used);
        members.others.push(step)?;
        Ok(stamp)
    }

    /// Keeps a step that puts an entry into the log: whether the entry may stand there.
    #[tactic(auto, using(crate::proofs::OtherStepLemmas::no_loss, crate::proofs::SeatLemmas::drawn_one_kept))]
    fn keep_entry(
        &self,
        members: &mut Members,
        place: &mut Place<N>,
        log: &mut LogCell<N>,
        event: Event,
        entry: Entry,
    ) -> Result<bool, WorkFault>
        requires event { needs_no_node event ≡ true }
        requires no_loss { is_loss event ≡ false }
        ensures seat { IfOk result (λ made. IsSeatAfter made place.old.seat place.new.seat) }
        ensures no_stamp { result ≡ Err faults.NoStamp → place.new.seat.spent ≡ true }
        ensures place { (place.new.worker ≡ place.old.worker) × (place.new.turn ≡ place.old.turn) }
        ensures asked { (place.new.begun ≡ place.old.begun) × (place.new.next ≡ place.old.next) }
    {
        if !log.log().may_append(&entry) {
            return Ok(false);
        }
        let none = Vec::new(self.alloc);
        let stamp = self.keep(members, place, event, none)?;
        log.append(entry, Carry::new(stamp, &self.clock, &mut place.seat))?;
        Ok(true)
    }

    /// A node is lost, if it is up: whether it was.
    #[tactic(auto, using(crate::proofs::OtherStepLemmas::no_loss, crate::proofs::SeatLemmas::drawn_one_kept))]
    fn lose_node<R: Wait>(
        &self,
        rt: &R,
        members: &mut Members,
        place: &mut Place<N>,
        node: u32,
    ) -> Result<bool, WorkFault>
        ensures seat { IfOk result (λ made. IsSeatAfter made place.old.seat place.new.seat) }
        ensures no_stamp { result ≡ Err faults.NoStamp → place.new.seat.spent ≡ true }
        ensures place { (place.new.worker ≡ place.old.worker) × (place.new.turn ≡ place.old.turn) }
        ensures asked { (place.new.begun ≡ place.old.begun) × (place.new.next ≡ place.old.next) }
    {
        let node = NodeId(node);
        let Some(slot) = self.slot(node) else {
            return Ok(false);
        };
        let mut slot = slot.lock(rt);
        if !slot.is_up()? {
            return Ok(false);
        }
        let none = Vec::new(self.alloc);
        let stamp = self.keep(members, place, Event::Lost { node }, none)?;
        slot.loss = Some(Carry::new(stamp, &self.clock, &mut place.seat));
        Ok(true)
    }

    /// A node joins: whether its entry may stand in the log.
    fn join_node<R: Wait>(
        &self,
        rt: &R,
        members: &mut Members,
        place: &mut Place<N>,
        node: u32,
    ) -> Result<bool, WorkFault>
        ensures seat { IfOk result (λ made. IsSeatAfter made place.old.seat place.new.seat) }
        ensures no_stamp { result ≡ Err faults.NoStamp → place.new.seat.spent ≡ true }
        ensures place { (place.new.worker ≡ place.old.worker) × (place.new.turn ≡ place.old.turn) }
        ensures asked { (place.new.begun ≡ place.old.begun) × (place.new.next ≡ place.old.next) }
    {
        if NODES_MAX <= node {
            return Ok(false);
        }
        let entry = Entry::Join {
            node: NodeId(node),
            zone: self.script.zone(node),
            vnodes: self.script.vnodes(),
        };
        let node = NodeId(node);
        let Some(slot) = self.slot(node) else {
            return Ok(false);
        };
        let mut slot = slot.lock(rt);
        let cell = joining_cell(self.alloc, slot.number, self.script.tries())?;
        let mut log = self.log.lock(rt);
        let event = Event::Join { node };
        if !self.keep_entry(members, place, &mut log, event, entry)? {
            return Ok(false);
        }
        slot.cell = Some(cell);
        Ok(true)
    }

    /// A member gets another weight: whether its entry may stand in the log.
    fn reweight_node<R: Wait>(
        &self,
        rt: &R,
        members: &mut Members,
        place: &mut Place<N>,
        node: u32,
        vnodes: u16,
    ) -> Result<bool, WorkFault>
        ensures seat { IfOk result (λ made. IsSeatAfter made place.old.seat place.new.seat) }
        ensures no_stamp { result ≡ Err faults.NoStamp → place.new.seat.spent ≡ true }
        ensures place { (place.new.worker ≡ place.old.worker) × (place.new.turn ≡ place.old.turn) }
        ensures asked { (place.new.begun ≡ place.old.begun) × (place.new.next ≡ place.old.next) }
    {
        let mut log = self.log.lock(rt);
        let node = NodeId(node);
        let entry = Entry::Reweight { node, vnodes };
        self.keep_entry(members, place, &mut log, Event::Reweight { node }, entry)
    }

    /// Makes the event of a control, but for a node that comes back: whether it could be made.
    fn make_control<R: Wait>(
        &self,
        rt: &R,
        members: &mut Members,
        place: &mut Place<N>,
        control: Control,
    ) -> Result<bool, WorkFault>
        ensures seat { IfOk result (λ made. IsSeatAfter made place.old.seat place.new.seat) }
        ensures no_stamp { result ≡ Err faults.NoStamp → place.new.seat.spent ≡ true }
        ensures place { (place.new.worker ≡ place.old.worker) × (place.new.turn ≡ place.old.turn) }
        ensures asked { (place.new.begun ≡ place.old.begun) × (place.new.next ≡ place.old.next) }
    {
        match control {
            Control::Fail(node) => self.lose_node(rt, members, place, node),
            Control::Join(node) => self.join_node(rt, members, place, node),
            Control::Reweight(node, vnodes) => {
                self.reweight_node(rt, members, place, node, vnodes)
            }
            Control::Back(_) => Ok(false),
        }
    }

    /// Takes the next control, but for a node that comes back: whether it could be taken.
    fn take_control<R: Wait>(
        &self,
        rt: &R,
        members: &mut Members,
        place: &mut Place<N>,
    ) -> Result<bool, WorkFault>
        ensures seat { IfOk result (λ made. IsSeatAfter made place.old.seat place.new.seat) }
        ensures no_stamp { result ≡ Err faults.NoStamp → place.new.seat.spent ≡ true }
        ensures place { (place.new.worker ≡ place.old.worker) × (place.new.turn ≡ place.old.turn) }
        ensures asked { (place.new.begun ≡ place.old.begun) × (place.new.next ≡ place.old.next) }
    {
        let Some(control) = members.controls.front().copied() else {
            return Ok(false);
        };
        if !self.make_control(rt, members, place, control)? {
            return Ok(false);
        }
        drop(members.controls.pop_front());
        Ok(true)
    }

    /// A lost node leaves the members, if it is one: whether it did.
    fn leave<R: Wait>(
        &self,
        rt: &R,
        members: &mut Members,
        place: &mut Place<N>,
        node: u32,
    ) -> Result<bool, WorkFault>
        ensures seat { IfOk result (λ made. IsSeatAfter made place.old.seat place.new.seat) }
        ensures no_stamp { result ≡ Err faults.NoStamp → place.new.seat.spent ≡ true }
        ensures place { (place.new.worker ≡ place.old.worker) × (place.new.turn ≡ place.old.turn) }
        ensures asked { (place.new.begun ≡ place.old.begun) × (place.new.next ≡ place.old.next) }
    {
        let node = NodeId(node);
        let Some(slot) = self.slot(node) else {
            return Ok(false);
        };
        let slot = slot.lock(rt);
        if slot.loss.is_none() {
            return Ok(false);
        }
        let mut log = self.log.lock(rt);
        let entry = Entry::Leave { node };
        self.keep_entry(members, place, &mut log, Event::Leave { node }, entry)
    }

    /// The first lost node that is a member leaves: whether there was one.
    fn take_leave<R: Wait>(
        &self,
        rt: &R,
        members: &mut Members,
        place: &mut Place<N>,
    ) -> Result<bool, WorkFault>
        ensures seat { IfOk result (λ made. IsSeatAfter made place.old.seat place.new.seat) }
        ensures no_stamp { result ≡ Err faults.NoStamp → place.new.seat.spent ≡ true }
        ensures place { (place.new.worker ≡ place.old.worker) × (place.new.turn ≡ place.old.turn) }
        ensures asked { (place.new.begun ≡ place.old.begun) × (place.new.next ≡ place.old.next) }
    {
        for node in 0..NODES_MAX {
            if self.leave(rt, members, place, node)? {
                return Ok(true);
            }
        }
        Ok(false)
    }

    /// Takes the loss of a request of which both ends are lost: whether there was one.
    fn take_loss<R: Wait>(
        &self,
        rt: &R,
        members: &mut Members,
        place: &mut Place<N>,
    ) -> Result<bool, WorkFault>
        ensures seat { IfOk result (λ made. IsSeatAfter made place.old.seat place.new.seat) }
        ensures no_stamp { result ≡ Err faults.NoStamp → place.new.seat.spent ≡ true }
        ensures place { (place.new.worker ≡ place.old.worker) × (place.new.turn ≡ place.old.turn) }
        ensures asked { (place.new.begun ≡ place.old.begun) × (place.new.next ≡ place.old.next) }
    {
        let Ok(lost) = self.losses.try_recv(rt) else {
            return Ok(false);
        };
        let LostRequest {
            node,
            number,
            carry,
            mark,
        } = lost;
        let event = Event::LoseRequest { node, number };
        let brought = both_brought(self.alloc, carry, mark)?;
        self.keep(members, place, event, brought)?;
        Ok(true)
    }

    /// One event of worker 256, if there is one to make: whether there was.
    pub fn change_members<R: Wait>(&self, rt: &R, place: &mut Place<N>) -> Result<bool, WorkFault>
        ensures seat { IfOk result (λ made. IsSeatAfter made place.old.seat place.new.seat) }
        ensures no_stamp { result ≡ Err faults.NoStamp → place.new.seat.spent ≡ true }
        ensures place { (place.new.worker ≡ place.old.worker) × (place.new.turn ≡ place.old.turn) }
        ensures asked { (place.new.begun ≡ place.old.begun) × (place.new.next ≡ place.old.next) }
    {
        let mut members = self.members.lock(rt);
        if self.take_loss(rt, &mut members, place)? {
            return Ok(true);
        }
        if self.take_control(rt, &mut members, place)? {
            return Ok(true);
        }
        self.take_leave(rt, &mut members, place)
    }
}
