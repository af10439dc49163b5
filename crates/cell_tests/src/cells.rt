//! A node's cell and the log's, over one clock.

ghost use Rattle.std.specs.Prelude.{◌≡◌, false};

use epoch_log::Log;
use live_cells::{ActFault, Carry, LogCell, NodeCell};
use object_id::{Entry, Member, NoMemory, NodeId, Vid};
use sheep_node::{Event, Input, Node, conditions_are_tests};
use stamp_clock::{Clock, ClockName, Seat};
use std::alloc::Global;
use std::marker::Brand;
use std::test::Fail;

const MEMBER: Member = Member {
    node: NodeId(0),
    zone: 0,
    vnodes: 4,
};

const NEXT: Event = Event::LogNext { node: NodeId(0) };

/// A carry of the seat's next stamp.
fn carry_of<N: ClockName>(clock: &Clock, seat: &mut Seat) -> Option<Carry<N>>
    requires clock { clock.now.id ≡ N.clock }
    requires seat { seat.old.clock ≡ N.clock }
    ensures { seat.new.clock ≡ seat.old.clock }
{
    match clock.draw(seat) {
        Ok(stamp) => Some(Carry::new(stamp, clock, seat)),
        Err(_) => None,
    }
}

/// A log of one member, with the carry of its first entry.
fn log_of<N: ClockName>(alloc: Global, carry: Carry<N>) -> Result<Option<LogCell<N>>, NoMemory> {
    if !Log::may_open(&[MEMBER]) {
        return Ok(None);
    }
    let log = Log::new(alloc, &[MEMBER])?;
    Ok(Some(LogCell::new(alloc, log, carry)?))
}

/// The input and the carry of the log's first entry.
fn first_of<N: ClockName>(
    alloc: Global,
    log: &mut LogCell<N>,
    clock: &Clock,
) -> Result<Option<(Input, Vec<Carry<N>>)>, NoMemory>
    requires { clock.now.id ≡ N.clock }
{
    let entry = match log.log().entry(0) {
        Some(entry) => entry.copy(alloc)?,
        None => return Ok(None),
    };
    let mut brought = Vec::new(alloc);
    if log.log().len() > 0 {
        brought.push(log.carry_at(0, clock))?;
    }
    Ok(Some((Input::LogEntry(entry), brought)))
}

/// The node steps on an input; `None` if it may not.
fn step<N: ClockName>(
    cell: &mut NodeCell,
    input: Input,
    brought: Vec<Carry<N>>,
    clock: &Clock,
    seat: &mut Seat,
) -> Option<Result<u64, ActFault>>
    requires clock { clock.now.id ≡ N.clock }
    requires seat { seat.old.clock ≡ N.clock }
    ensures { seat.new.clock ≡ seat.old.clock }
{
    let mut brought = brought;
    if cell.spent() {
        return None;
    }
    if brought.is_empty() {
        return None;
    }
    if !cell.node().may(&input) {
        return None;
    }
    // The test is the condition of a step.
    conditions_are_tests();
    Some(cell.act(NEXT, input, &mut brought, clock, seat))
}

/// Opens a log by one seat's stamp, and lets a node read it by another's: what the step answers.
fn read_format<N: ClockName>(
    cell: &mut NodeCell,
    clock: &Clock,
    maker: &mut Seat,
    taker: &mut Seat,
    alloc: Global,
) -> Result<Option<Result<u64, ActFault>>, NoMemory>
    requires clock { clock.now.id ≡ N.clock }
    requires maker { maker.old.clock ≡ N.clock }
    requires taker { taker.old.clock ≡ N.clock }
{
    let Some(carry) = carry_of::<N>(clock, maker) else {
        return Ok(None);
    };
    let Some(mut log) = log_of(alloc, carry)? else {
        return Ok(None);
    };
    let Some((input, brought)) = first_of(alloc, &mut log, clock)? else {
        return Ok(None);
    };
    Ok(step(cell, input, brought, clock, taker))
}

#[test]
fn a_step_is_above_the_entry_that_it_reads(rt: HostRuntime) -> Result<(), Fail> {
    let alloc = rt.alloc();
    let (clock, mut seats) = Clock::new(alloc, 10, 2)?;
    let (Some(mut taker), Some(mut maker)) = (seats.pop(), seats.pop()) else {
        panic!(rt; "two seats");
    };
    let mut cell = NodeCell::new(alloc, Node::new(alloc, NodeId(0), 8))?;
    let told = read_format::<Brand>(&mut cell, &clock, &mut maker, &mut taker, alloc)?;
    assert_eq!(rt; told, Some(Ok(1)));
    assert!(rt; !cell.spent());
    assert_eq!(rt; cell.node().read_len(), 1);
    let steps = cell.steps();
    assert_eq!(rt; steps.len(), 1);
    let step = steps[0].copy(alloc)?;
    assert_eq!(rt; step.stamp, 1);
    assert_eq!(rt; step.used.as_slice(), [0].as_slice());
    Ok(())
}

#[test]
fn without_a_stamp_the_cell_stays(rt: HostRuntime) -> Result<(), Fail> {
    let alloc = rt.alloc();
    let (clock, mut seats) = Clock::new(alloc, 1, 2)?;
    let (Some(mut taker), Some(mut maker)) = (seats.pop(), seats.pop()) else {
        panic!(rt; "two seats");
    };
    let mut cell = NodeCell::new(alloc, Node::new(alloc, NodeId(0), 8))?;
    let told = read_format::<Brand>(&mut cell, &clock, &mut maker, &mut taker, alloc)?;
    assert_eq!(rt; told, Some(Err(ActFault::ClockSpent)));
    assert!(rt; !cell.spent());
    assert_eq!(rt; cell.node().read_len(), 0);
    assert_eq!(rt; cell.steps().len(), 0);
    Ok(())
}

/// Adds an entry to a log: the stamps of its entries, and of the last one's carry.
fn append<N: ClockName>(
    alloc: Global,
    clock: &Clock,
    seat: &mut Seat,
) -> Result<Option<(u64, u64, u64)>, NoMemory>
    requires clock { clock.now.id ≡ N.clock }
    requires seat { seat.old.clock ≡ N.clock }
{
    let Some(first) = carry_of::<N>(clock, seat) else {
        return Ok(None);
    };
    let Some(second) = carry_of::<N>(clock, seat) else {
        return Ok(None);
    };
    let Some(mut log) = log_of(alloc, first)? else {
        return Ok(None);
    };
    let entry = Entry::Publish {
        by: NodeId(0),
        vid: Vid(1),
    };
    if !log.log().may_append(&entry) {
        return Ok(None);
    }
    log.append(entry, second)?;
    stamps_of(&mut log, clock)
}

fn stamps_of<N: ClockName>(
    log: &mut LogCell<N>,
    clock: &Clock,
) -> Result<Option<(u64, u64, u64)>, NoMemory>
    requires { clock.now.id ≡ N.clock }
{
    if log.log().len() != 2 {
        return Ok(None);
    }
    let last = log.carry_at(1, clock).stamp();
    let (Some((_, first)), Some((_, second))) = (log.entry(0), log.entry(1)) else {
        return Ok(None);
    };
    Ok(Some((first, second, last)))
}

#[test]
fn each_entry_has_its_carry(rt: HostRuntime) -> Result<(), Fail> {
    let (clock, mut seats) = Clock::new(rt.alloc(), 10, 1)?;
    let told = append::<Brand>(rt.alloc(), &clock, &mut seats[0])?;
    assert_eq!(rt; told, Some((0, 1, 1)));
    Ok(())
}
