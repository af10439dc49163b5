//! What begun writes and replies add to the history: an event for each block, ascending.
ghost use Rattle.std.specs.Prelude.{◌≡◌, ◌/◌, ◌<◌, ◌++◌, length, IfOk, OnOk};
ghost use Rattle.std.specs.Option.{option_copied};
ghost use Rattle.object_id.specs.declared.limits.TheConstants.{BLOCK_BYTES};
ghost use Rattle.object_id.specs.declared.oid.Kind.TheVariants.{Block};
ghost use Rattle.gf256.specs.Part.{is_in_strips};
ghost use Rattle.disk_history.specs.declared.event.HistEvent.TheVariants.{WriteStart, Read};
ghost use Rattle.sheep_world.specs.HistoryAdditions.{block_in, each_block, writes_begin, begins_on, blocks_read};
ghost use Rattle.sheep_world.specs.HistoryAdditions.{write_ended, reply_adds, added_by};

use crate::script_requests::payload;
use cluster_script::Statement;
use disk_history::{HistEvent, HistList};
use guest_driver::Disk;
use object_id::{BLOCK_BYTES, Bytes, NoMemory, Policy};
use peer_proto::GuestRsp;
use std::alloc::Global;

/// A block's length, as lengths of bytes are counted.
pub(crate) const BLOCK: usize = BLOCK_BYTES as usize;

/// A copy of a block's part of bytes, by its place among them.
pub(crate) fn block_in(alloc: Global, bytes: &[u8], place: usize) -> Result<Bytes, NoMemory>
    requires { place < length bytes.now / BLOCK_BYTES }
    ensures { IfOk result (λ block. block ≡ block_in bytes.now place) }
{
    Bytes::from_slice(alloc, &bytes[place * BLOCK..place * BLOCK + BLOCK])
}

/// Whether the targets of a disk's data objects keep strips of them.
pub(crate) fn is_in_strips(policy: Policy) -> bool
    ensures { result ≡ is_in_strips policy Block }
{
    matches!(policy, Policy::Coded { .. })
}

/// Adds the begin of the write of each block of a piece to a disk, by the disk's id.
fn add_writes(
    alloc: Global,
    events: &mut HistList,
    req: u32,
    disk: u32,
    coded: bool,
    offset: u64,
    bytes: &[u8],
) -> Result<(), NoMemory>
    ensures { OnOk result (events.new ≡ events.old ++ each_block (λ block piece. WriteStart req disk block coded piece) offset bytes.now) }
{
    let first = offset / BLOCK as u64;
    for place in 0..bytes.len() / BLOCK {
        events.push(HistEvent::WriteStart {
            req,
            disk,
            block: first + place as u64,
            coded,
            bytes: block_in(alloc, bytes, place)?,
        })?;
    }
    Ok(())
}

/// Adds what the writes of a piece to an open disk begin.
pub(crate) fn add_writes_begun(
    alloc: Global,
    events: &mut HistList,
    req: u32,
    offset: u64,
    bytes: &[u8],
    disk: &Disk,
) -> Result<(), NoMemory>
    ensures { OnOk result (events.new ≡ events.old ++ writes_begin req offset bytes.now disk.now) }
{
    let inode = disk.inode();
    add_writes(
        alloc,
        events,
        req,
        inode.vid().0,
        is_in_strips(inode.spec().policy),
        offset,
        bytes,
    )
}

/// Adds what a request begins on the disk that its session has open: of a write its blocks. Takes the bytes of a write twice.
pub(crate) fn add_begun(
    alloc: Global,
    events: &mut HistList,
    req: u32,
    disk: Option<&Disk>,
    statement: &Statement,
) -> Result<(), NoMemory>
    ensures { OnOk result (events.new ≡ events.old ++ begins_on req (option_copied disk.entry) statement.now) }
{
    match (disk, statement) {
        (
            Some(disk),
            Statement::Write {
                offset,
                length,
                pattern,
                ..
            },
        ) => {
            let bytes = payload(alloc, *pattern, *length)?;
            add_writes_begun(alloc, events, req, *offset, bytes.as_slice(), disk)
        }
        _ => Ok(()),
    }
}

/// Adds a read of each block of a piece.
fn add_reads(
    alloc: Global,
    events: &mut HistList,
    disk: u32,
    offset: u64,
    bytes: &[u8],
) -> Result<(), NoMemory>
    ensures { OnOk result (events.new ≡ events.old ++ each_block (λ block piece. Read disk block piece) offset bytes.now) }
{
    let first = offset / BLOCK as u64;
    for place in 0..bytes.len() / BLOCK {
        events.push(HistEvent::Read {
            disk,
            block: first + place as u64,
            bytes: block_in(alloc, bytes, place)?,
        })?;
    }
    Ok(())
}

/// Adds the blocks that a reply gives.
pub(crate) fn add_blocks_read(
    alloc: Global,
    events: &mut HistList,
    disk: u32,
    offset: u64,
    rsp: &GuestRsp,
) -> Result<(), NoMemory>
    ensures { OnOk result (events.new ≡ events.old ++ blocks_read disk offset rsp.now) }
{
    match rsp {
        GuestRsp::Piece(bytes) => add_reads(alloc, events, disk, offset, bytes.as_slice()),
        _ => Ok(()),
    }
}

/// The end of a write.
pub(crate) fn write_ended(req: u32, rsp: &GuestRsp) -> HistEvent
    ensures { result ≡ write_ended req rsp.now }
{
    match rsp {
        GuestRsp::Refused(_) => HistEvent::WriteRefused { req },
        _ => HistEvent::WriteDone { req },
    }
}

/// Adds what the reply to a request adds that began on this disk: of a read its blocks, of a write its end, and of a check that has
/// begun a write the end of that.
pub(crate) fn add_reply(
    alloc: Global,
    events: &mut HistList,
    written: bool,
    req: u32,
    rsp: &GuestRsp,
    disk: u32,
    statement: &Statement,
) -> Result<(), NoMemory>
    ensures { OnOk result (events.new ≡ events.old ++ reply_adds written req rsp.now disk statement.now) }
{
    match statement {
        Statement::Read { offset, .. } => add_blocks_read(alloc, events, disk, *offset, rsp),
        Statement::Write { .. } => events.push(write_ended(req, rsp)),
        Statement::Check { .. } if written => events.push(write_ended(req, rsp)),
        _ => Ok(()),
    }
}

/// Adds what a reply adds where its request began on a disk, and is one of the script.
pub(crate) fn add_answer(
    alloc: Global,
    events: &mut HistList,
    written: bool,
    req: u32,
    rsp: &GuestRsp,
    disk: Option<u32>,
    statement: Option<&Statement>,
) -> Result<(), NoMemory>
    ensures { OnOk result (events.new ≡ events.old ++ added_by written req rsp.now disk (option_copied statement.entry)) }
{
    match (disk, statement) {
        (Some(disk), Some(statement)) => {
            add_reply(alloc, events, written, req, rsp, disk, statement)
        }
        _ => Ok(()),
    }
}
