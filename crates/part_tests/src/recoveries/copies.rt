//! Whole copies, recovered step by step.

use super::node::{Layout, Node};
use super::steps::{Step, key, leads, object, runs, shows};
use super::trial::{Trial, Waits};
use object_id::{NoMemory, NodeId, Policy};
use std::alloc::Global;
use std::process::Abort;
use std::test::*;

/// A node of epoch 2 without rows. Objects have two copies, on nodes 0 and 1 before its epoch, on nodes 2 and 0 from then on.
fn a_node(alloc: Global) -> Result<Option<Node>, NoMemory> {
    let Some(layout) = Layout::of(Policy::Copies(2), 512) else {
        return Ok(None);
    };
    let mut node = Node::new(alloc, layout);
    node.targets_now = Vec::from_array(alloc, [NodeId(2), NodeId(0)])?;
    node.targets_before = Vec::from_array(alloc, [NodeId(0), NodeId(1)])?;
    Ok(Some(node))
}

pub fn a_trial(alloc: Global) -> Result<Option<Trial>, NoMemory> {
    match a_node(alloc)? {
        Some(node) => Ok(Trial::new(alloc, node)),
        None => Ok(None),
    }
}

/// The other members name their objects, node 1 the first so many.
fn lists_come(rt: &impl Abort, trial: &mut Trial, alloc: Global, count: u32) {
    let steps = [
        (Step::Begin, Waits::Tick),
        (Step::Lists(7, 2), Waits::Answers),
        (Step::Objects(8, count), Waits::Answers),
        (Step::Objects(7, 1), Waits::Tick),
    ];
    runs(rt, trial, alloc, None, &steps);
}

// The first of two rows in the order of the targets is taken, though it came last.
#[test]
fn recovers_a_copy(rt: HostRuntime) -> Result<(), Fail> {
    let alloc = rt.alloc();
    let mut trial = a_trial(alloc)?.ok_or("no trial")?;
    lists_come(&rt, &mut trial, alloc, 1);
    let rows = [
        (Step::Rows(9, 0, 2), Waits::Answers),
        (Step::Row(10, 1, 2, 6), Waits::Answers),
    ];
    runs(&rt, &mut trial, alloc, None, &rows);
    assert!(rt;
        leads(
            &mut trial,
            alloc,
            Step::Row(9, 1, 2, 5),
            Waits::Nothing,
            Some(5)
        )
    );
    assert!(rt; !trial.is_missing(object(0)));
    Ok(())
}

/// A member whose List was lost is asked again.
fn a_list_is_lost(rt: &impl Abort, trial: &mut Trial, alloc: Global) {
    let steps = [
        (Step::Begin, Waits::Tick),
        (Step::Lists(7, 2), Waits::Answers),
        (Step::Lost(7), Waits::Answers),
        (Step::Objects(8, 1), Waits::Tick),
        (Step::Lists(9, 1), Waits::Answers),
        (Step::Objects(9, 0), Waits::Tick),
    ];
    runs(rt, trial, alloc, None, &steps);
}

/// A level of which a message was lost is asked again.
fn a_row_is_lost(rt: &impl Abort, trial: &mut Trial, alloc: Global) {
    let steps = [
        (Step::Rows(10, 0, 2), Waits::Answers),
        (Step::NoRow(10), Waits::Answers),
        (Step::Lost(11), Waits::Tick),
        (Step::Rows(12, 0, 2), Waits::Answers),
        (Step::NoRow(13), Waits::Answers),
        (Step::NoRow(12), Waits::Tick),
    ];
    runs(rt, trial, alloc, None, &steps);
}

/// A level of which a message was refused is asked again. One answer is still to come.
fn a_row_is_refused(rt: &impl Abort, trial: &mut Trial, alloc: Global) {
    let steps = [
        (Step::Rows(14, 0, 1), Waits::Answers),
        (Step::Refused(14), Waits::Answers),
        (Step::NoRow(15), Waits::Tick),
        (Step::Rows(16, 0, 1), Waits::Answers),
        (Step::NoRow(17), Waits::Answers),
    ];
    runs(rt, trial, alloc, None, &steps);
}

// Below the settled epoch the object is missing.
#[test]
fn gives_up_below_the_settled_epoch(rt: HostRuntime) -> Result<(), Fail> {
    let alloc = rt.alloc();
    let mut trial = a_trial(alloc)?.ok_or("no trial")?;
    a_list_is_lost(&rt, &mut trial, alloc);
    a_row_is_lost(&rt, &mut trial, alloc);
    a_row_is_refused(&rt, &mut trial, alloc);
    assert!(rt; !trial.is_missing(object(0)));
    assert!(rt; leads(&mut trial, alloc, Step::NoRow(16), Waits::Nothing, None));
    assert!(rt; trial.is_missing(object(0)));
    Ok(())
}

/// A recovery begins while another one waits for lists.
fn begins_before_lists(rt: &impl Abort, trial: &mut Trial, alloc: Global) {
    let steps = [
        (Step::Begin, Waits::Tick),
        (Step::Lists(7, 2), Waits::Answers),
        (Step::Begin, Waits::Answers),
        (Step::Objects(7, 1), Waits::Answers),
        (Step::Lost(8), Waits::Tick),
    ];
    runs(rt, trial, alloc, None, &steps);
}

/// A recovery begins while another one waits for a row.
fn begins_before_a_row(rt: &impl Abort, trial: &mut Trial, alloc: Global) {
    let steps = [
        (Step::Lists(9, 2), Waits::Answers),
        (Step::Objects(9, 1), Waits::Answers),
        (Step::Objects(10, 0), Waits::Tick),
        (Step::Rows(11, 0, 3), Waits::Answers),
        (Step::Row(11, 1, 3, 5), Waits::Answers),
        (Step::Begin, Waits::Answers),
        (Step::NoRow(12), Waits::Tick),
    ];
    runs(rt, trial, alloc, None, &steps);
}

/// The newest recovery searches. One answer is still to come.
fn searches_anew(rt: &impl Abort, trial: &mut Trial, alloc: Global) {
    let steps = [
        (Step::Lists(13, 2), Waits::Answers),
        (Step::Objects(13, 1), Waits::Answers),
        (Step::Objects(14, 1), Waits::Tick),
        (Step::Rows(15, 0, 4), Waits::Answers),
        (Step::NoRow(15), Waits::Answers),
    ];
    runs(rt, trial, alloc, None, &steps);
}

// An older message only becomes answered.
#[test]
fn begins_again_in_each_newer_epoch(rt: HostRuntime) -> Result<(), Fail> {
    let alloc = rt.alloc();
    let mut trial = a_trial(alloc)?.ok_or("no trial")?;
    begins_before_lists(&rt, &mut trial, alloc);
    begins_before_a_row(&rt, &mut trial, alloc);
    searches_anew(&rt, &mut trial, alloc);
    assert!(rt;
        leads(
            &mut trial,
            alloc,
            Step::Row(16, 1, 4, 4),
            Waits::Nothing,
            Some(4)
        )
    );
    assert!(rt; leads(&mut trial, alloc, Step::Begin, Waits::Tick, None));
    assert!(rt; trial.lose(16) == Ok(false));
    Ok(())
}

/// A Create is served for the object that is searched: its row stays when the last answer comes, and the next object is searched.
fn a_create_comes(rt: &impl Abort, trial: &mut Trial, alloc: Global) {
    let steps = [
        (Step::Create(8), Waits::Answers),
        (Step::Row(10, 1, 2, 6), Waits::Answers),
        (Step::Row(9, 1, 2, 5), Waits::Tick),
        (Step::Rows(11, 1, 2), Waits::Answers),
        (Step::Row(11, 2, 2, 3), Waits::Answers),
        (Step::NoRow(12), Waits::Nothing),
    ];
    runs(rt, trial, alloc, Some(8), &steps);
}

#[test]
fn leaves_a_row_that_a_create_made(rt: HostRuntime) -> Result<(), Fail> {
    let alloc = rt.alloc();
    let mut trial = a_trial(alloc)?.ok_or("no trial")?;
    lists_come(&rt, &mut trial, alloc, 2);
    assert!(rt; leads(&mut trial, alloc, Step::Rows(9, 0, 2), Waits::Answers, None));
    a_create_comes(&rt, &mut trial, alloc);
    assert!(rt; trial.first_byte(key(1)) == Ok(Some(3)));
    Ok(())
}

/// A trial of a node that has a row of the epoch before, and had the first place then.
fn a_trial_with_a_row(alloc: Global) -> Result<Option<Trial>, NoMemory> {
    let Some(mut node) = a_node(alloc)? else {
        return Ok(None);
    };
    node.kept.put(&key(0), 512, &[9])?;
    node.targets_before = Vec::from_array(alloc, [NodeId(2), NodeId(0)])?;
    Ok(Trial::new(alloc, node))
}

// Node 2 is alone: no tick waits for a list, and its own row of the epoch before is taken.
#[test]
fn takes_its_own_row_if_it_is_alone(rt: HostRuntime) -> Result<(), Fail> {
    let alloc = rt.alloc();
    let mut trial = a_trial_with_a_row(alloc)?.ok_or("no trial")?;
    assert!(rt; trial.begin(&[NodeId(2)]) == Ok(true));
    assert!(rt; shows(&trial, Waits::Tick, None));
    assert!(rt;
        leads(
            &mut trial,
            alloc,
            Step::Lists(7, 0),
            Waits::Nothing,
            Some(9)
        )
    );
    Ok(())
}
