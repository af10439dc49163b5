//! What stands behind a node's lock.

ghost use Rattle.std.specs.Prelude.{◌≡◌, ◌<◌, ℕ, true, false, Ok, Err, IfOk, IfSome, OnOk};
ghost use Rattle.std.specs.Option.{is_some, option_copied};
ghost use Rattle.std.proofs.Props.{props};
ghost use Rattle.live_cells.specs.Brought.{takes_brought};
ghost use Rattle.live_workers.specs.Cells.{IsCellOf, may_step};
ghost use Rattle.live_workers.specs.PlaceSeats.{IsSeatAfter, HasDrawnAtMostOne};
ghost use Rattle.live_workers.specs.declared.work_fault.WorkFault.TheVariants as faults;

use crate::brought::{both_brought, brought_of};
use crate::steps::{act, letters_of};
use crate::work_fault::WorkFault;
use live_cells::{Carry, Letter, NodeCell};
use object_id::{NoMemory, NodeId};
use sheep_node::{Event, Input};
use stamp_clock::{Clock, ClockName, Seat};
use std::alloc::Global;

/// The number of a node; its cell, if the node exists; the mark of its loss, if it is lost; and which of its incarnations it is in.
#[derive(Drop)]
pub struct Slot<N: ClockName> {
    pub(crate) number: u32,
    pub(crate) cell: Option<NodeCell>,
    pub(crate) loss: Option<Carry<N>>,
    pub(crate) incarnation: u32,
    ghost of: { IfSome cell (λ cell. IsCellOf number cell) } by { Prim.hlevel props },
}

/// What became of a message at a node.
#[derive(Drop)]
pub(crate) enum Taken<N: ClockName> {
    /// The node stepped on it, if it may, and sends this.
    Stepped(Vec<Letter<N>>),
    /// The node is lost, or doesn't exist: what was brought.
    Lost { carry: Carry<N>, mark: Carry<N> },
}

impl<N: ClockName> Slot<N> {
    /// No node yet. Takes no memory.
    pub(crate) fn empty(number: u32) -> Slot<N> {
        Slot {
            number,
            cell: None,
            loss: None,
            incarnation: 1,
        }
    }

    /// The node's number, and its cell if the node exists. Costs nothing.
    pub fn into_cell(self) -> (u32, Option<NodeCell>)
        ensures { IfSome result.1 (λ cell. IsCellOf result.0 cell) }
    {
        let Slot {
            number,
            cell,
            loss: _,
            incarnation: _,
        } = self;
        (number, cell)
    }

    /// The node's cell, unless there is none or the node is lost.
    pub(crate) fn live_cell(&self) -> Option<&NodeCell>
        ensures { is_some result ≡ true → option_copied result ≡ self.now.cell }
    {
        if self.loss.is_some() {
            return None;
        }
        self.cell.as_ref()
    }

    /// Whether the node exists and isn't lost.
    pub(crate) fn is_live(&self) -> bool {
        self.live_cell().is_some()
    }

    /// Whether the node exists, isn't lost, and may step on an input.
    #[tactic(auto, using(crate::proofs::CellNumbers::may_of_cell))]
    pub(crate) fn may(&self, input: &Input) -> Result<bool, NoMemory>
        ensures { result ≡ Ok true → may_step input.now self.now.cell ≡ true }
    {
        match self.live_cell() {
            Some(cell) => {
                if cell.spent() {
                    return Err(NoMemory);
                }
                Ok(cell.node().may(input))
            }
            None => Ok(false),
        }
    }

    /// Whether the node is up: it exists, isn't lost, and has numbers left for what it may send.
    pub(crate) fn is_up(&self) -> Result<bool, NoMemory> {
        match self.live_cell() {
            Some(cell) => {
                if cell.spent() {
                    return Err(NoMemory);
                }
                Ok(cell.node().has_numbers())
            }
            None => Ok(false),
        }
    }

    /// The node steps on an input, if it exists and may: the step's stamp.
    pub(crate) fn act(
        &mut self,
        event: Event,
        input: Input,
        brought: Vec<Carry<N>>,
        clock: &Clock,
        seat: &mut Seat,
    ) -> Result<Option<u64>, WorkFault>
        requires clock { clock.now.id ≡ N.clock }
        requires seat { seat.old.clock ≡ N.clock }
        ensures seen { IfOk result (λ made. IfSome made (λ stamp. stamp < seat.new.seen)) }
        ensures made { takes_brought event ≡ false → IfOk result (λ made. is_some made ≡ may_step input self.old.cell) }
        ensures seat { IfOk result (λ made. IsSeatAfter (is_some made) seat.old seat.new) }
        ensures no_stamp { result ≡ Err faults.NoStamp → seat.new.spent ≡ true }
        ensures clock { seat.new.clock ≡ N.clock }
    {
        match self.cell.as_mut() {
            Some(cell) => act(cell, event, input, brought, clock, seat),
            None => Ok(None),
        }
    }

    /// What the node's last step sends, with that step's stamp: its requests, and the reply to who asked.
    pub(crate) fn letters(
        &self,
        alloc: Global,
        stamp: u64,
        asker: Option<NodeId>,
        clock: &Clock,
        seat: &mut Seat,
    ) -> Result<Vec<Letter<N>>, NoMemory>
        requires clock { clock.now.id ≡ N.clock }
        requires seat { seat.old.clock ≡ N.clock }
        requires seen { stamp < seat.old.seen }
        ensures { seat.new ≡ seat.old }
    {
        let node = NodeId(self.number);
        let Some(cell) = self.cell.as_ref() else {
            return Ok(Vec::new(alloc));
        };
        if cell.spent() {
            return Err(NoMemory);
        }
        match cell.steps().last() {
            Some(step) => letters_of(alloc, node, &step.outputs, stamp, asker, clock, seat),
            None => Ok(Vec::new(alloc)),
        }
    }

    /// The node steps on an input, if it exists and may: what the step sends, the reply to who asked among it.
    #[tactic(auto, using(crate::proofs::SeatLemmas::drawn_one_kept))]
    pub(crate) fn step(
        &mut self,
        alloc: Global,
        event: Event,
        input: Input,
        brought: Vec<Carry<N>>,
        asker: Option<NodeId>,
        clock: &Clock,
        seat: &mut Seat,
    ) -> Result<Option<Vec<Letter<N>>>, WorkFault>
        requires clock { clock.now.id ≡ N.clock }
        requires seat { seat.old.clock ≡ N.clock }
        ensures made { takes_brought event ≡ false → IfOk result (λ sent. is_some sent ≡ may_step input self.old.cell) }
        ensures seat { IfOk result (λ sent. IsSeatAfter (is_some sent) seat.old seat.new) }
        ensures no_stamp { result ≡ Err faults.NoStamp → seat.new.spent ≡ true }
        ensures clock { seat.new.clock ≡ N.clock }
    {
        match self.act(event, input, brought, clock, seat)? {
            Some(stamp) => Ok(Some(self.letters(alloc, stamp, asker, clock, seat)?)),
            None => Ok(None),
        }
    }

    /// The mark of the node's loss, once more, if it is lost.
    fn mark(&mut self, clock: &Clock) -> Option<Carry<N>>
        requires { clock.now.id ≡ N.clock }
    {
        match self.loss.as_mut() {
            Some(loss) => Some(loss.again(clock)),
            None => None,
        }
    }

    /// A message comes to the node. One on which the node may not step is let go; if it is lost, so is the message, and its carry is given
    /// back.
    #[tactic(auto, using(crate::proofs::SeatLemmas::drawn_none, crate::proofs::SeatLemmas::drawn_after))]
    pub(crate) fn take(
        &mut self,
        alloc: Global,
        event: Event,
        input: Input,
        carry: Carry<N>,
        asker: Option<NodeId>,
        clock: &Clock,
        seat: &mut Seat,
    ) -> Result<Taken<N>, WorkFault>
        requires clock { clock.now.id ≡ N.clock }
        requires seat { seat.old.clock ≡ N.clock }
        ensures seat { OnOk result (HasDrawnAtMostOne seat.old seat.new) }
        ensures lost { (given mark : ℕ) → result ≡ Ok (Taken.Lost given mark) → (given ≡ carry) × (seat.new ≡ seat.old) }
        ensures no_stamp { result ≡ Err faults.NoStamp → seat.new.spent ≡ true }
        ensures clock { seat.new.clock ≡ N.clock }
    {
        if let Some(mark) = self.mark(clock) {
            return Ok(Taken::Lost { carry, mark });
        }
        let brought = brought_of(alloc, carry)?;
        let sent = self.step(alloc, event, input, brought, asker, clock, seat)?;
        Ok(Taken::Stepped(letters_in(alloc, sent)))
    }

    /// A request of the node is lost with its receiver, which has this mark of it. If the node is lost too, both carries are given back.
    #[tactic(auto, using(crate::proofs::SeatLemmas::drawn_none, crate::proofs::SeatLemmas::drawn_after))]
    pub(crate) fn take_loss(
        &mut self,
        alloc: Global,
        number: u32,
        carry: Carry<N>,
        mark: Carry<N>,
        clock: &Clock,
        seat: &mut Seat,
    ) -> Result<Taken<N>, WorkFault>
        requires clock { clock.now.id ≡ N.clock }
        requires seat { seat.old.clock ≡ N.clock }
        ensures seat { OnOk result (HasDrawnAtMostOne seat.old seat.new) }
        ensures lost { (given marked : ℕ) → result ≡ Ok (Taken.Lost given marked)
            → (given ≡ carry) × (marked ≡ mark) × (seat.new ≡ seat.old) }
        ensures no_stamp { result ≡ Err faults.NoStamp → seat.new.spent ≡ true }
        ensures clock { seat.new.clock ≡ N.clock }
    {
        if !self.is_live() {
            return Ok(Taken::Lost { carry, mark });
        }
        let node = NodeId(self.number);
        let event = Event::LoseRequest { node, number };
        let input = Input::Lost { number };
        let brought = both_brought(alloc, carry, mark)?;
        let sent = self.step(alloc, event, input, brought, None, clock, seat)?;
        Ok(Taken::Stepped(letters_in(alloc, sent)))
    }
}

/// What was sent; nothing where there was no step.
fn letters_in<N: ClockName>(alloc: Global, sent: Option<Vec<Letter<N>>>) -> Vec<Letter<N>> {
    match sent {
        Some(letters) => letters,
        None => Vec::new(alloc),
    }
}
