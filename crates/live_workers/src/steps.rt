//! A step of a node behind its lock, and what it sends.

ghost use Rattle.std.specs.Prelude.{◌≡◌, ◌<◌, ℕ, false, true, None, Ok, Err, IfOk, IfSome, OnOk};
ghost use Rattle.std.specs.Option.{is_some};
ghost use Rattle.sheep_node.specs.MayTests.{may};
ghost use Rattle.live_cells.specs.Brought.{takes_brought};
ghost use Rattle.live_cells.specs.Cell.{cell_after};
ghost use Rattle.live_workers.specs.Cells.{IsCellOf};
ghost use Rattle.live_workers.specs.PlaceSeats.{IsSeatAfter};
ghost use Rattle.live_workers.specs.declared.work_fault.WorkFault.TheVariants as faults;

use crate::work_fault::WorkFault;
use live_cells::{ActFault, Carry, Letter, NodeCell};
use object_id::{Bytes, NoMemory, NodeId};
use peer_proto::{encode_ask, encode_say};
use sheep_node::{Event, Input, Outputs, conditions_are_tests, only_the_log_is_read};
use stamp_clock::{Clock, ClockName, Seat};
use std::alloc::Global;

/// Whether something must be brought to an event.
fn takes_brought(event: Event) -> bool
    ensures { result ≡ takes_brought event }
{
    match event {
        Event::Guest { .. } => false,
        Event::Deliver { .. } | Event::LoseRequest { .. } | Event::LoseReply { .. } => true,
        Event::LogNext { .. } => true,
        Event::Put { .. } | Event::RecoverTick { .. } | Event::RetryTick { .. } => false,
        Event::Lost { .. } | Event::Leave { .. } | Event::Join { .. } => false,
        Event::Reweight { .. } => false,
        Event::Back { .. } => true,
        Event::Phase => false,
    }
}

/// The node steps on an input, if it may: the step's stamp, which the seat has seen.
#[tactic(auto, using(crate::proofs::CellNumbers::step_rules, crate::proofs::SeatLemmas::drawn_one))]
pub(crate) fn act<N: ClockName>(
    cell: &mut NodeCell,
    event: Event,
    input: Input,
    brought: Vec<Carry<N>>,
    clock: &Clock,
    seat: &mut Seat,
) -> Result<Option<u64>, WorkFault>
    requires clock { clock.now.id ≡ N.clock }
    requires seat { seat.old.clock ≡ N.clock }
    ensures step { IfOk result (λ made. IfSome made (λ stamp. cell.new ≡ cell_after stamp event input brought.items cell.old)) }
    ensures seen { IfOk result (λ made. IfSome made (λ stamp. stamp < seat.new.seen)) }
    // Where nothing need be brought, the node steps just where it may.
    ensures made { takes_brought event ≡ false → IfOk result (λ made. is_some made ≡ may input cell.old.node) }
    ensures seat { IfOk result (λ made. IsSeatAfter (is_some made) seat.old seat.new) }
    ensures no_stamp { result ≡ Err faults.NoStamp → seat.new.spent ≡ true }
    ensures live { OnOk result (cell.new.spent ≡ false) }
    ensures unchanged { result ≡ Ok None → cell.new ≡ cell.old }
    // It stays the cell of its node.
    ensures own { (number : ℕ) → IsCellOf number cell.old → IsCellOf number cell.new }
    ensures clock { seat.new.clock ≡ N.clock }
{
    if cell.spent() {
        return Err(WorkFault::NoMemory);
    }
    if takes_brought(event) && brought.is_empty() {
        return Ok(None);
    }
    if !cell.node().may(&input) {
        return Ok(None);
    }
    // The test is the condition of a step.
    conditions_are_tests();
    only_the_log_is_read();
    let mut brought = brought;
    match cell.act(event, input, &mut brought, clock, seat) {
        Ok(stamp) => Ok(Some(stamp)),
        Err(ActFault::ClockSpent) => Err(WorkFault::NoStamp),
        Err(ActFault::NoMemory) => Err(WorkFault::NoMemory),
    }
}

/// A letter with the stamp of a step, which the seat has seen.
fn letter_of<N: ClockName>(
    from: NodeId,
    to: NodeId,
    reply: bool,
    stamp: u64,
    bytes: Bytes,
    clock: &Clock,
    seat: &mut Seat,
) -> Letter<N>
    requires clock { clock.now.id ≡ N.clock }
    requires seat { seat.old.clock ≡ N.clock }
    requires seen { stamp < seat.old.seen }
    ensures carry { result.carry ≡ stamp }
    ensures seat { seat.new ≡ seat.old }
{
    Letter {
        from,
        to,
        reply,
        carry: Carry::new(stamp, clock, seat),
        bytes,
    }
}

/// The requests that a step sends, as letters.
fn requests_of<N: ClockName>(
    alloc: Global,
    node: NodeId,
    outputs: &Outputs,
    stamp: u64,
    clock: &Clock,
    seat: &mut Seat,
) -> Result<Vec<Letter<N>>, NoMemory>
    requires clock { clock.now.id ≡ N.clock }
    requires seat { seat.old.clock ≡ N.clock }
    requires seen { stamp < seat.old.seen }
    ensures { seat.new ≡ seat.old }
{
    let mut letters = Vec::new(alloc);
    for send in outputs.sends.as_slice() {
        let bytes = encode_ask(alloc, &send.1)?;
        letters.push(letter_of(node, send.0, false, stamp, bytes, clock, seat))?;
    }
    Ok(letters)
}

/// What a node's step sends, as letters with the step's stamp: its requests, and the reply to who asked.
pub(crate) fn letters_of<N: ClockName>(
    alloc: Global,
    node: NodeId,
    outputs: &Outputs,
    stamp: u64,
    asker: Option<NodeId>,
    clock: &Clock,
    seat: &mut Seat,
) -> Result<Vec<Letter<N>>, NoMemory>
    requires clock { clock.now.id ≡ N.clock }
    requires seat { seat.old.clock ≡ N.clock }
    requires seen { stamp < seat.old.seen }
    ensures { seat.new ≡ seat.old }
{
    let mut letters = requests_of(alloc, node, outputs, stamp, clock, seat)?;
    if let (Some(asker), Some(say)) = (asker, &outputs.say) {
        let bytes = encode_say(alloc, say)?;
        letters.push(letter_of(node, asker, true, stamp, bytes, clock, seat))?;
    }
    Ok(letters)
}
