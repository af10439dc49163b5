//! A tally that is told the entries that a log reads.

ghost use Rattle.std.specs.Prelude.{IfOk, OnOk};
ghost use Rattle.epoch_log.specs.Tally.{IsTally};

use super::opening;
use epoch_log::{Log, Tally};
use object_id::{Entry, Epoch, NoMemory, NodeId};
use std::alloc::Global;
use std::test::Fail;

/// A log that two members open, and its tally.
fn opened(alloc: Global) -> Result<(Log, Tally), NoMemory>
    ensures { IfOk result (λ opened. IsTally opened.0 opened.1) }
{
    let members = opening(alloc, b"ab")?;
    if !Log::may_open(members.as_slice()) {
        return Err(NoMemory);
    }
    let log = Log::new(alloc, members.as_slice())?;
    let tally = Tally::new(alloc, members.as_slice())?;
    Ok((log, tally))
}

/// The tally is told an entry, and the log reads it.
fn append(alloc: Global, log: &mut Log, tally: &mut Tally, entry: Entry) -> Result<(), NoMemory>
    requires { IsTally log.old tally.old }
    ensures { OnOk result (IsTally log.new tally.new) }
{
    if !tally.may_count(log.entries(), &entry) {
        return Err(NoMemory);
    }
    tally.count(alloc, log.entries(), &entry)?;
    log.append(entry)?;
    Ok(())
}

/// The newest epoch and the settled one, by the tally.
fn marks_in(log: &Log, tally: &Tally) -> (Epoch, Epoch)
    requires { IsTally log.now tally.now }
{
    (tally.epoch(log.entries()), tally.settled(log.entries()))
}

/// How many members an epoch has, by the tally; 0 where it hasn't begun.
fn count_in(log: &Log, tally: &Tally, epoch: u32) -> usize
    requires { IsTally log.now tally.now }
{
    if 1 <= epoch && epoch <= tally.epoch(log.entries()).0 {
        tally.members(log.entries(), Epoch(epoch)).len()
    } else {
        0
    }
}

/// The log of two members that the first has left, and its tally.
fn left(alloc: Global) -> Result<(Log, Tally), NoMemory>
    ensures { IfOk result (λ left. IsTally left.0 left.1) }
{
    let (mut log, mut tally) = opened(alloc)?;
    let leave = Entry::Leave { node: NodeId(0) };
    append(alloc, &mut log, &mut tally, leave)?;
    Ok((log, tally))
}

/// The same once the second has recovered.
fn settled(alloc: Global) -> Result<(Log, Tally), NoMemory>
    ensures { IfOk result (λ settled. IsTally settled.0 settled.1) }
{
    let (mut log, mut tally) = left(alloc)?;
    let recovered = Entry::Recovered {
        node: NodeId(1),
        epoch: Epoch(2),
    };
    append(alloc, &mut log, &mut tally, recovered)?;
    Ok((log, tally))
}

// A tally is told the entries that the log reads, and answers as the log does.
#[test]
fn counts_without_the_entries(rt: HostRuntime) -> Result<(), Fail> {
    let (log, tally) = left(rt.alloc())?;
    assert_eq!(rt; marks_in(&log, &tally), (Epoch(2), Epoch(1)));
    Ok(())
}

#[test]
fn settles_without_the_entries(rt: HostRuntime) -> Result<(), Fail> {
    let (log, tally) = settled(rt.alloc())?;
    assert_eq!(rt; marks_in(&log, &tally), (Epoch(2), Epoch(2)));
    Ok(())
}

#[test]
fn counts_the_members_of_each_epoch(rt: HostRuntime) -> Result<(), Fail> {
    let (log, tally) = settled(rt.alloc())?;
    assert_eq!(rt;
        (count_in(&log, &tally, 1), count_in(&log, &tally, 2)),
        (2, 1)
    );
    Ok(())
}

#[test]
fn counts_no_member_that_has_left(rt: HostRuntime) -> Result<(), Fail> {
    let (log, tally) = settled(rt.alloc())?;
    assert!(rt; !tally.may_count(log.entries(), &Entry::Leave { node: NodeId(0) }));
    Ok(())
}
