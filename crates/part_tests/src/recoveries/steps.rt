//! The steps of a recovery of whole copies, and what each is to come to.

use super::trial::{Trial, Waits};
use object_id::{Bytes, Epoch, NoMemory, NodeId, Oid, Vid};
use object_store::{Key, OidList, RowCopy};
use peer_proto::{PeerAsk, PeerSay, Refusal};
use recovery::RecoverSends;
use std::alloc::Global;
use std::process::Abort;
use std::test::*;

/// A data object of disk 1, of the first nine.
pub fn object(index: u32) -> Oid {
    Oid::object(Vid(1), index.min(9))
}

/// The key of a whole copy.
pub fn key(index: u32) -> Key {
    Key {
        oid: object(index),
        index: 0,
    }
}

/// One step of a recovery.
#[derive(Clone, Copy)]
pub enum Step {
    /// The next epoch is entered.
    Begin,
    /// A tick, whose messages from this number on ask the first so many nodes for their lists.
    Lists(u32, u32),
    /// A tick, whose messages from this number on ask nodes 0 and 1 for their rows of an object at a level.
    Rows(u32, u32, u32),
    /// The message of a number is answered with the first so many objects.
    Objects(u32, u32),
    /// It is answered with a row of these epochs that begins with the byte.
    Row(u32, u32, u32, u8),
    NoRow(u32),
    Refused(u32),
    Lost(u32),
    /// The node serves a Create of the first object, whose row begins with the byte.
    Create(u8),
}

/// The first so many objects, of no more than two.
pub fn objects(alloc: Global, count: u32) -> Result<OidList, NoMemory> {
    let mut oids = OidList::new(alloc);
    if count == 0 {
        return Ok(oids);
    }
    oids.push(Oid::object(Vid(1), 0))?;
    if count == 1 {
        return Ok(oids);
    }
    oids.push(Oid::object(Vid(1), 1))?;
    Ok(oids)
}

/// A row of 512 bytes that begins with this one.
fn row(alloc: Global, from: u32, to: u32, byte: u8) -> Result<PeerSay, NoMemory> {
    Ok(PeerSay::Row(RowCopy {
        index: 0,
        from: Epoch(from),
        to: Some(Epoch(to)),
        length: 512,
        bytes: Bytes::from_slice(alloc, &[byte])?,
    }))
}

/// The answer to the message of a number that a step is, if it is one.
fn answer_in(alloc: Global, step: Step) -> Result<Option<(u32, PeerSay)>, NoMemory> {
    Ok(match step {
        Step::Objects(number, count) => Some((number, PeerSay::Objects(objects(alloc, count)?))),
        Step::Row(number, from, to, byte) => Some((number, row(alloc, from, to, byte)?)),
        Step::NoRow(number) => Some((number, PeerSay::NoRow)),
        Step::Refused(number) => {
            let refusal = Refusal::OldEpoch { own: Epoch(9) };
            Some((number, PeerSay::Refused(refusal)))
        }
        _ => None,
    })
}

/// What a tick asks of each node: its list, or its row of an object at a level.
#[derive(Clone, Copy)]
enum Asks {
    List,
    Row(u32, u32),
}

/// Whether a request asks so.
fn is_such(ask: &PeerAsk, asks: Asks) -> bool {
    match (ask, asks) {
        (PeerAsk::List, Asks::List) => true,
        (PeerAsk::RecoverRead { oid, level }, Asks::Row(index, at)) => {
            *oid == object(index) && level.0 == at
        }
        _ => false,
    }
}

/// Whether the message in the place of a node is to that node, has this number, and asks so.
fn is_sent(sends: &RecoverSends, node: u32, number: u32, asks: Asks) -> bool {
    match sends.list.get(node as usize) {
        Some((to, req)) => to.0 == node && req.number == number && is_such(&req.ask, asks),
        None => false,
    }
}

/// Whether just the first so many nodes are asked so, by messages from `first` on.
fn are_sent(sends: &RecoverSends, first: u32, nodes: u32, asks: Asks) -> bool {
    if sends.list.len() != nodes as usize {
        return false;
    }
    for node in 0..nodes {
        if !is_sent(sends, node, first.saturating_add(node), asks) {
            return false;
        }
    }
    true
}

/// Makes a tick. Whether it may come, and just the first so many nodes are asked so.
fn tick_asks(trial: &mut Trial, first: u32, nodes: u32, asks: Asks) -> Result<bool, NoMemory> {
    match trial.tick(first)? {
        Some(sends) => Ok(are_sent(&sends, first, nodes, asks)),
        None => Ok(false),
    }
}

/// Makes a step that is no answer. Whether it may come, and asks what it is to ask.
fn goes_on(trial: &mut Trial, step: Step) -> Result<bool, NoMemory> {
    match step {
        Step::Begin => trial.begin(&[NodeId(0), NodeId(1), NodeId(2)]),
        Step::Lists(first, nodes) => tick_asks(trial, first, nodes, Asks::List),
        Step::Rows(first, index, level) => tick_asks(trial, first, 2, Asks::Row(index, level)),
        Step::Lost(number) => trial.lose(number),
        Step::Create(byte) => trial.create(key(0), &[byte]),
        _ => Ok(false),
    }
}

/// Makes a step. Whether it may come, and asks what it is to ask.
fn makes(trial: &mut Trial, alloc: Global, step: Step) -> Result<bool, NoMemory> {
    match answer_in(alloc, step)? {
        Some((number, say)) => trial.answer(number, say),
        None => goes_on(trial, step),
    }
}

/// Whether a recovery waits for this, and the first object's open row begins with the byte; `None` if there is to be none.
pub fn shows(trial: &Trial, waits: Waits, byte: Option<u8>) -> bool {
    trial.waits() == waits && trial.first_byte(key(0)) == Ok(byte)
}

/// Whether a step may come, asks what it is to ask, and leads to what is to be shown.
pub fn leads(trial: &mut Trial, alloc: Global, step: Step, waits: Waits, byte: Option<u8>) -> bool {
    makes(trial, alloc, step) == Ok(true) && shows(trial, waits, byte)
}

/// Makes steps in turn, each with what the recovery waits for then. After each of them the first object's open row begins with the byte.
pub fn runs(
    rt: &impl Abort,
    trial: &mut Trial,
    alloc: Global,
    byte: Option<u8>,
    steps: &[(Step, Waits)],
) {
    for place in 0..steps.len() {
        let (step, waits) = steps[place];
        assert!(rt; leads(trial, alloc, step, waits, byte), "at {place}");
    }
}
