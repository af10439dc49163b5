//! Which answers a recovery of a copy takes.

use super::copies::a_trial;
use super::steps::objects;
use super::trial::Trial;
use object_id::{Bytes, Epoch, NoMemory, NodeId};
use object_store::RowCopy;
use peer_proto::PeerSay;
use std::alloc::Global;
use std::test::*;

/// Each other member names the first object.
fn names_objects(trial: &mut Trial, alloc: Global) -> Result<bool, NoMemory> {
    let first = trial.answer(7, PeerSay::Objects(objects(alloc, 1)?))?;
    let second = trial.answer(8, PeerSay::Objects(objects(alloc, 1)?))?;
    Ok(first && second)
}

/// Begins, and asks nodes 0 and 1 for rows of level 2, by messages 9 and 10. Whether each step may come.
fn asks_for_rows(trial: &mut Trial, alloc: Global) -> Result<bool, NoMemory> {
    let begins = trial.begin(&[NodeId(0), NodeId(1), NodeId(2)])?;
    if !begins || trial.tick(7)?.is_none() || !names_objects(trial, alloc)? {
        return Ok(false);
    }
    Ok(trial.tick(9)?.is_some())
}

/// A trial that waits for the answers of nodes 0 and 1 to messages 9 and 10, which ask for rows of level 2.
fn searching(alloc: Global) -> Result<Option<Trial>, NoMemory> {
    let Some(mut trial) = a_trial(alloc)? else {
        return Ok(None);
    };
    if asks_for_rows(&mut trial, alloc)? {
        Ok(Some(trial))
    } else {
        Ok(None)
    }
}

/// Whether a row of these epochs, of this index and length, answers message 9; `None` if no answer is awaited.
fn answers(
    alloc: Global,
    from: u32,
    to: Option<Epoch>,
    index: u8,
    length: u32,
) -> Result<Option<bool>, NoMemory> {
    let Some(mut trial) = searching(alloc)? else {
        return Ok(None);
    };
    let row = RowCopy {
        index,
        from: Epoch(from),
        to,
        length,
        bytes: Bytes::new(alloc),
    };
    Ok(Some(trial.answer(9, PeerSay::Row(row))?))
}

/// Whether such a row answers message 9.
fn fits(alloc: Global, from: u32, to: Option<Epoch>, index: u8, length: u32) -> bool {
    answers(alloc, from, to, index, length) == Ok(Some(true))
}

/// Whether message 9 is awaited, and such a row doesn't answer it.
fn misfits(alloc: Global, from: u32, to: Option<Epoch>, index: u8, length: u32) -> bool {
    answers(alloc, from, to, index, length) == Ok(Some(false))
}

#[test]
fn takes_rows_of_the_level(rt: HostRuntime) {
    let alloc = rt.alloc();
    assert!(rt; fits(alloc, 1, None, 0, 512));
    assert!(rt; fits(alloc, 2, Some(Epoch(2)), 1, 512));
    assert!(rt; fits(alloc, 2, Some(Epoch(9)), 1, 512));
}

#[test]
fn takes_no_rows_of_other_levels(rt: HostRuntime) {
    let alloc = rt.alloc();
    assert!(rt; misfits(alloc, 3, None, 0, 512));
    assert!(rt; misfits(alloc, 3, Some(Epoch(2)), 0, 512));
    assert!(rt; misfits(alloc, 1, Some(Epoch(1)), 0, 512));
}

#[test]
fn takes_no_rows_of_other_indexes_and_lengths(rt: HostRuntime) {
    let alloc = rt.alloc();
    assert!(rt; misfits(alloc, 1, None, 2, 512));
    assert!(rt; misfits(alloc, 1, None, 0, 511));
    assert!(rt; misfits(alloc, 1, None, 0, 513));
}

/// Whether an answer to a message is taken.
fn takes(trial: &mut Trial, number: u32, say: PeerSay) -> bool {
    trial.answer(number, say) == Ok(true)
}

/// Whether it isn't.
fn leaves(trial: &mut Trial, number: u32, say: PeerSay) -> bool {
    trial.answer(number, say) == Ok(false)
}

#[test]
fn takes_no_other_answers_to_a_request_for_a_row(rt: HostRuntime) -> Result<(), Fail> {
    let alloc = rt.alloc();
    let objects = PeerSay::Objects(objects(alloc, 1)?);
    let mut trial = searching(alloc)?.ok_or("no trial")?;
    assert!(rt; leaves(&mut trial, 9, PeerSay::Success));
    assert!(rt; leaves(&mut trial, 9, PeerSay::Piece(Bytes::new(alloc))));
    assert!(rt; leaves(&mut trial, 9, objects));
    assert!(rt; takes(&mut trial, 9, PeerSay::NoRow));
    Ok(())
}

#[test]
fn takes_one_answer_to_each_message(rt: HostRuntime) -> Result<(), Fail> {
    let mut trial = searching(rt.alloc())?.ok_or("no trial")?;
    assert!(rt; leaves(&mut trial, 8, PeerSay::NoRow));
    assert!(rt; leaves(&mut trial, 11, PeerSay::NoRow));
    assert!(rt; takes(&mut trial, 9, PeerSay::NoRow));
    assert!(rt; leaves(&mut trial, 9, PeerSay::NoRow));
    Ok(())
}
