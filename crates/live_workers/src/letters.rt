//! A node's letters: they are delivered, or lost with the node.

ghost use Rattle.std.specs.Prelude.{◌≡◌, ◌≢◌, ◌≤◌, true, false, Ok, Err, IfOk, OnOk};
ghost use Rattle.object_id.specs.declared.limits.TheConstants.{NODES_MAX};
ghost use Rattle.live_workers.specs.PlaceSeats.{HasDrawnAtMostOne};
ghost use Rattle.live_workers.specs.declared.work_fault.WorkFault.TheVariants as faults;

use crate::place::Place;
use crate::shared::{LostRequest, Shared};
use crate::slot::Taken;
use crate::work_fault::WorkFault;
use live_cells::{Carry, Letter};
use object_id::{NoMemory, NodeId};
use peer_proto::{PeerFault, decode_ask, decode_say};
use sheep_node::{Event, Input};
use stamp_clock::ClockName;
use std::alloc::Global;
use std::sync::Wait;

/// A letter as its receiver reads it: the number of the request, and the input; none if its bytes are no message's.
fn delivery_of<N: ClockName>(
    alloc: Global,
    letter: &Letter<N>,
) -> Result<Option<(u32, Input)>, NoMemory> {
    if letter.reply {
        return match decode_say(alloc, letter.bytes.as_slice()) {
            Ok(reply) => Ok(Some((reply.number, Input::Reply(reply)))),
            Err(PeerFault::NoMemory) => Err(NoMemory),
            Err(_) => Ok(None),
        };
    }
    match decode_ask(alloc, letter.bytes.as_slice()) {
        Ok(request) => Ok(Some((request.number, Input::Request(request)))),
        Err(PeerFault::NoMemory) => Err(NoMemory),
        Err(_) => Ok(None),
    }
}

impl<'a, N: ClockName> Shared<'a, N> {
    /// Delivers a letter. One on which its node may not step is let go; if the node is lost, so is the letter, and a reply went as the node
    /// was lost.
    #[tactic(auto, using(crate::proofs::SeatLemmas::drawn_none, crate::proofs::SeatLemmas::at_most_one_behind))]
    fn deliver<R: Wait>(
        &self,
        rt: &R,
        place: &mut Place<N>,
        letter: Letter<N>,
    ) -> Result<(), WorkFault>
        ensures seat { OnOk result (HasDrawnAtMostOne place.old.seat place.new.seat) }
        ensures no_stamp { result ≡ Err faults.NoStamp → place.new.seat.spent ≡ true }
        ensures place { (place.new.worker ≡ place.old.worker) × (place.new.turn ≡ place.old.turn) }
        ensures asked { (place.new.begun ≡ place.old.begun) × (place.new.next ≡ place.old.next) }
    {
        let Some((number, input)) = delivery_of(self.alloc, &letter)? else {
            return Ok(());
        };
        let Letter {
            from,
            to,
            reply,
            carry,
            bytes: _,
        } = letter;
        let Some(slot) = self.slot(to) else {
            return Ok(());
        };
        let (node, asker) = if reply {
            (to, None)
        } else {
            (from, Some(from))
        };
        let event = Event::Deliver { node, number };
        let seat = &mut place.seat;
        let clock = &self.clock;
        // The lock is let go before the letters are sent, or another one is taken.
        let taken = slot
            .lock(rt)
            .take(self.alloc, event, input, carry, asker, clock, seat)?;
        match taken {
            Taken::Stepped(letters) => {
                self.post(rt, letters)?;
                Ok(())
            }
            Taken::Lost { .. } if reply => Ok(()),
            Taken::Lost { carry, mark } => self.lose(rt, place, from, number, carry, mark),
        }
    }

    /// Loses a request to a node that is lost, with the mark of that loss. Its sender steps on it, unless it is lost too: then worker 256
    /// makes the event.
    #[tactic(auto, using(crate::proofs::SeatLemmas::drawn_none))]
    fn lose<R: Wait>(
        &self,
        rt: &R,
        place: &mut Place<N>,
        node: NodeId,
        number: u32,
        carry: Carry<N>,
        mark: Carry<N>,
    ) -> Result<(), WorkFault>
        ensures seat { OnOk result (HasDrawnAtMostOne place.old.seat place.new.seat) }
        ensures no_stamp { result ≡ Err faults.NoStamp → place.new.seat.spent ≡ true }
        ensures place { (place.new.worker ≡ place.old.worker) × (place.new.turn ≡ place.old.turn) }
        ensures asked { (place.new.begun ≡ place.old.begun) × (place.new.next ≡ place.old.next) }
    {
        let Some(slot) = self.slot(node) else {
            return Ok(());
        };
        let seat = &mut place.seat;
        let clock = &self.clock;
        let taken = slot
            .lock(rt)
            .take_loss(self.alloc, number, carry, mark, clock, seat)?;
        match taken {
            Taken::Stepped(letters) => {
                self.post(rt, letters)?;
                Ok(())
            }
            Taken::Lost { carry, mark } => self.hand_over(rt, node, number, carry, mark),
        }
    }

    /// Hands a request that is lost with both its ends to worker 256.
    fn hand_over<R: Wait>(
        &self,
        rt: &R,
        node: NodeId,
        number: u32,
        carry: Carry<N>,
        mark: Carry<N>,
    ) -> Result<(), WorkFault>
        ensures { result ≢ Err faults.NoStamp }
    {
        let lost = LostRequest {
            node,
            number,
            carry,
            mark,
        };
        if self.lost.send(rt, lost).is_err() {
            return Err(WorkFault::NoMemory);
        }
        Ok(())
    }

    /// Takes a node's next letter: whether there was one.
    #[tactic(auto, using(crate::proofs::SeatLemmas::drawn_none))]
    pub(crate) fn take_letter<R: Wait>(
        &self,
        rt: &R,
        place: &mut Place<N>,
        node: NodeId,
    ) -> Result<bool, WorkFault>
        ensures seat { OnOk result (HasDrawnAtMostOne place.old.seat place.new.seat) }
        ensures no_stamp { result ≡ Err faults.NoStamp → place.new.seat.spent ≡ true }
        ensures idle { result ≡ Ok false → place.new.seat ≡ place.old.seat }
        ensures place { (place.new.worker ≡ place.old.worker) × (place.new.turn ≡ place.old.turn) }
        ensures asked { (place.new.begun ≡ place.old.begun) × (place.new.next ≡ place.old.next) }
        ensures far { NODES_MAX ≤ node.0 → result ≡ Ok false }
    {
        let Some(inbox) = self.inboxes.get(node.0 as usize) else {
            return Ok(false);
        };
        let Ok(letter) = inbox.receiver.try_recv(rt) else {
            return Ok(false);
        };
        self.deliver(rt, place, letter)?;
        Ok(true)
    }
}
