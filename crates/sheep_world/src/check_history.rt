//! What the write that a check comes to adds to the history.

ghost use Rattle.std.specs.Prelude.{◌≡◌, ◌+◌, ◌*◌, ◌/◌, ◌^◌, ◌<◌, ◌++◌, cond, [], length, IfOk, OnOk};
ghost use Rattle.std.specs.Option.{option_map, option_map_or};
ghost use Rattle.object_id.specs.declared.limits.TheConstants.{BLOCK_BYTES};
ghost use Rattle.sheep_node.specs.declared.check_write.CheckWrite.{CheckWrite as TheCheckWrite};
ghost use Rattle.sheep_world.specs.HistoryAdditions.{is_on_disk, block_checked, check_write_adds, check_write_grown};

use crate::history_blocks::{BLOCK, block_in, is_in_strips};
use crate::script_requests::statement_of;
use cluster_script::{Script, Statement};
use disk_history::{HistEvent, HistList};
use object_id::{BLOCK_BYTES, NoMemory};
use sheep_node::CheckWrite;
use std::alloc::Global;

/// The number of the first block of the value that a check writes. A disk that can't be is told as want of memory: no node has one open.
fn first_block(write: &CheckWrite) -> Result<u64, NoMemory>
    ensures value { IfOk result (λ block. block ≡ write.now.index * 2 ^ write.now.spec.shift / BLOCK_BYTES) }
    ensures bound { IfOk result (λ block. block < 2 ^ 55) }
{
    if !write.spec.is_valid() {
        return Err(NoMemory);
    }
    let object_bytes: u64 = 1 << write.spec.shift;
    match u64::from(write.index).checked_mul(object_bytes) {
        Some(start) => Ok(start / u64::from(BLOCK_BYTES)),
        None => Err(NoMemory),
    }
}

/// Adds that a block of the value is read, and that its write begins, if the disk has the block: its last object may reach beyond its
/// end.
fn add_block_checked(
    alloc: Global,
    events: &mut HistList,
    write: &CheckWrite,
    first: u64,
    place: usize,
) -> Result<(), NoMemory>
    requires first { first ≡ write.now.index * 2 ^ write.now.spec.shift / BLOCK_BYTES }
    requires room { first + place < 2 ^ 64 }
    requires place { place < length write.now.value / BLOCK_BYTES }
    ensures { OnOk result (events.new ≡ events.old ++ cond (is_on_disk write.now place) (block_checked write.now place) []) }
{
    let block = first + place as u64;
    if write.spec.size / u64::from(BLOCK_BYTES) <= block {
        return Ok(());
    }
    let disk = write.vid.0;
    events.push(HistEvent::Read {
        disk,
        block,
        bytes: block_in(alloc, write.value.as_slice(), place)?,
    })?;
    events.push(HistEvent::WriteStart {
        req: write.req,
        disk,
        block,
        coded: is_in_strips(write.spec.policy),
        bytes: block_in(alloc, write.value.as_slice(), place)?,
    })
}

/// Adds what a check's write adds as it begins: each block that the disk has, ascending.
fn add_blocks_checked(
    alloc: Global,
    events: &mut HistList,
    write: &CheckWrite,
) -> Result<(), NoMemory>
    ensures { OnOk result (events.new ≡ events.old ++ check_write_adds write.now) }
{
    let first = first_block(write)?;
    for place in 0..write.value.len() / BLOCK {
        add_block_checked(alloc, events, write, first, place)?;
    }
    Ok(())
}

/// Adds it if the write's request is a check of the script.
fn add_check_write(
    alloc: Global,
    events: &mut HistList,
    script: &Script,
    write: &CheckWrite,
) -> Result<(), NoMemory>
    ensures { OnOk result (events.new ≡ events.old ++ check_write_grown script.now write.now) }
{
    match statement_of(script, write.req) {
        Some(Statement::Check { .. }) => add_blocks_checked(alloc, events, write),
        _ => Ok(()),
    }
}

/// What the write adds that a check comes to, if one does. Takes the value's bytes twice.
pub(crate) fn check_write_grown(
    alloc: Global,
    script: &Script,
    write: &Option<CheckWrite>,
) -> Result<HistList, NoMemory>
    ensures { IfOk result (λ events. events ≡ option_map_or (check_write_grown script.now) write.now []) }
{
    let mut events = HistList::new(alloc);
    if let Some(write) = write {
        add_check_write(alloc, &mut events, script, write)?;
    }
    Ok(events)
}

/// The request of that write.
pub(crate) fn request_of(write: &Option<CheckWrite>) -> Option<u32>
    ensures { result ≡ option_map (λ (write : TheCheckWrite). write.req) write.now }
{
    match write {
        Some(write) => Some(write.req),
        None => None,
    }
}
