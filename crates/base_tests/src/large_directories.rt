//! Directories of the longest names and of many disks, with ample memory: a body that never finds any for them would meet the contracts
//! too.
ghost use Rattle.std.specs.Prelude.{OnOk};
ghost use Rattle.vdi_directory.specs.Decisions.{log_effects};
ghost use Rattle.vdi_directory.specs.DirectoryState.{AreLocks};

use crate::directories::members;
use crate::log_words::{digit_of, reserve_of};
use disk_lock::Locks;
use epoch_log::Log;
use object_id::{Bytes, Entry, NoMemory, NodeId, Vid};
use std::alloc::Global;
use std::test::Fail;
use vdi_directory::{Decision, Directory, nobody_holds_at_first};

/// A log of the opening members.
fn opened_log(alloc: Global) -> Result<Log, NoMemory> {
    let opening = members();
    if !Log::may_open(&opening) {
        return Err(NoMemory);
    }
    Log::new(alloc, &opening)
}

/// The longest name that there is, of 255 bytes.
const LONGEST: [u8; 255] = [b'n'; 255];

/// Makes and opens a disk of the longest name: its id, unless a step is refused.
fn open_longest(
    alloc: Global,
    log: &Log,
    directory: &mut Directory,
    locks: &mut Locks,
) -> Result<Option<Vid>, NoMemory>
    requires { AreLocks (log_effects directory.old) locks.old }
    ensures { OnOk result (AreLocks (log_effects directory.new) locks.new) }
{
    let by = NodeId(0);
    let reserve = reserve_of(alloc, b'F', by, 1, &LONGEST)?;
    let Some(vid) = put(log, directory, locks, &reserve)? else {
        return Ok(None);
    };
    put(log, directory, locks, &Entry::Publish { by, vid })?;
    let lock = Entry::Lock {
        by,
        session: 1,
        name: Bytes::from_slice(alloc, &LONGEST)?,
        tag: None,
    };
    put(log, directory, locks, &lock)?;
    Ok(Some(vid))
}

/// The disk becomes a snapshot with the name for its tag: the id that follows, unless that is refused.
fn snapshot_longest(
    alloc: Global,
    log: &Log,
    directory: &mut Directory,
    locks: &mut Locks,
    old: Vid,
) -> Result<Option<Vid>, NoMemory>
    requires { AreLocks (log_effects directory.old) locks.old }
    ensures { OnOk result (AreLocks (log_effects directory.new) locks.new) }
{
    // The name, and itself as the tag.
    let mut names = [b'n'; 511];
    names[255] = b':';
    let by = NodeId(0);
    let reserve = reserve_of(alloc, b'S', by, 1, &names)?;
    let Some(vid) = put(log, directory, locks, &reserve)? else {
        return Ok(None);
    };
    put(log, directory, locks, &Entry::Snapshot { by, old, vid })?;
    Ok(Some(vid))
}

/// Makes a disk of the longest name, and its snapshot with the longest tag: the directory, the snapshot's id and the disk's; an error if a
/// step is refused.
fn longest_names(alloc: Global) -> Result<(Directory, Vid, Vid), NoMemory> {
    nobody_holds_at_first();
    let log = opened_log(alloc)?;
    let mut directory = Directory::new(alloc);
    let mut locks = Locks::new(alloc);
    let Some(old) = open_longest(alloc, &log, &mut directory, &mut locks)? else {
        return Err(NoMemory);
    };
    match snapshot_longest(alloc, &log, &mut directory, &mut locks, old)? {
        Some(next) => Ok((directory, old, next)),
        None => Err(NoMemory),
    }
}

// A name and a tag of 255 bytes, the longest that there are.
#[test]
fn keeps_the_longest_names(rt: HostRuntime) -> Result<(), Fail> {
    let (directory, old, next) = longest_names(rt.alloc())?;
    assert_eq!(rt; directory.find(&LONGEST, None), Some(next));
    assert_eq!(rt; directory.find(&LONGEST, Some(&LONGEST)), Some(old));
    Ok(())
}

/// Name `k`: its four hexadecimal digits.
fn name_of(k: u32) -> [u8; 4] {
    [k >> 12, k >> 8, k >> 4, k].map(digit_of)
}

fn granted(decision: Decision) -> Option<Vid> {
    match decision {
        Decision::Granted { vid } => Some(vid),
        _ => None,
    }
}

fn put(
    log: &Log,
    directory: &mut Directory,
    locks: &mut Locks,
    entry: &Entry,
) -> Result<Option<Vid>, NoMemory>
    requires { AreLocks (log_effects directory.old) locks.old }
    ensures { OnOk result (AreLocks (log_effects directory.new) locks.new) }
{
    if !log.may_append(entry) {
        return Ok(None);
    }
    match directory.read_entry(entry, locks) {
        Ok(decision) => Ok(granted(decision)),
        Err(error) => Err(error),
    }
}

/// Reserves and publishes disk `k`.
fn publish(
    alloc: Global,
    log: &Log,
    directory: &mut Directory,
    locks: &mut Locks,
    k: u32,
) -> Result<(), NoMemory>
    requires { AreLocks (log_effects directory.old) locks.old }
    ensures { OnOk result (AreLocks (log_effects directory.new) locks.new) }
{
    let by = NodeId(0);
    let reserve = reserve_of(alloc, b'F', by, 1, &name_of(k))?;
    if let Some(vid) = put(log, directory, locks, &reserve)? {
        put(log, directory, locks, &Entry::Publish { by, vid })?;
    }
    Ok(())
}

/// The directory of 10,000 disks.
fn many_disks(alloc: Global) -> Result<Directory, NoMemory> {
    nobody_holds_at_first();
    let log = opened_log(alloc)?;
    let mut directory = Directory::new(alloc);
    let mut locks = Locks::new(alloc);
    for disk in 0..10_000 {
        publish(alloc, &log, &mut directory, &mut locks, disk)?;
    }
    Ok(directory)
}

/// How many of the 10,000 names are found.
fn found_names(directory: &Directory) -> u32 {
    let mut found = 0_u32;
    for k in 0..10_000 {
        if directory.find(&name_of(k), None).is_some() {
            found = found.wrapping_add(1);
        }
    }
    found
}

// Each disk is reserved, published and found by its name.
#[test]
fn keeps_10_000_disks(rt: HostRuntime) -> Result<(), Fail> {
    let directory = many_disks(rt.alloc())?;
    assert_eq!(rt; found_names(&directory), 10_000);
    assert!(rt; directory.live_at(9_999).is_some());
    assert!(rt; directory.live_at(10_000).is_none());
    Ok(())
}
