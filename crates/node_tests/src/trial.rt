//! A node's side of commands, for tests: entries are read by a directory as soon as they are put, works are done at once, and what a
//! command does is told in words.

ghost use Rattle.std.specs.Prelude.{IsTrue, OnOk, IfOk, IfSome};
ghost use Rattle.std.specs.Option.{option_copied};
ghost use Rattle.epoch_log.specs.Appending.{IsReservable};
ghost use Rattle.vdi_directory.specs.Decisions.{log_effects};
ghost use Rattle.vdi_directory.specs.DirectoryState.{AreLocks};
ghost use Rattle.vdi_ops.specs.Kept.{HasFirstEntry};

use crate::act_words::write_op_act;
use disk_lock::Locks;
use inode::Inode;
use object_id::{Bytes, Entry, NoMemory, NodeId, Policy, VdiSpec, is_name};
use peer_proto::{ObjWork, VdiAsk, WorkDone};
use std::alloc::Global;
use std::fmt::Write;
use vdi_directory::{Directory, nobody_holds_at_first};
use vdi_ops::{OpAct, VdiOp, begin_vdi};

/// Disks of three objects.
pub(crate) const SPEC: VdiSpec = VdiSpec {
    size: 12_288,
    policy: Policy::Copies(2),
    shift: 12,
};

/// The id that disk `a` is granted.
pub(crate) const A: u32 = 0x01_ec8c;

/// The log, as a node has it that has read all of it.
#[derive(Drop)]
pub(crate) struct Log {
    pub directory: Directory,
    pub locks: Locks,
}

impl Log {
    pub fn new(alloc: Global) -> Log
        ensures { AreLocks (log_effects result.directory) result.locks }
    {
        nobody_holds_at_first();
        Log {
            directory: Directory::new(alloc),
            locks: Locks::new(alloc),
        }
    }
}

/// Whether a reservation has a name, and an origin that a disk may be made from.
fn is_reservable(entry: &Entry) -> bool
    ensures { IsTrue result → IsReservable entry.now }
{
    match entry {
        Entry::Reserve { name, origin, .. } => is_name(name.as_slice()) && origin.is_valid(),
        _ => true,
    }
}

/// Reads the entry that a command put, and goes on by the decision on it; `None` if the command can't go on.
pub(crate) fn decided(
    alloc: Global,
    op: &mut VdiOp,
    entry: &Entry,
    disk: Option<&Inode>,
    log: &mut Log,
) -> Result<Option<OpAct>, NoMemory>
    requires { AreLocks (log_effects log.old.directory) log.old.locks }
    ensures { OnOk result (AreLocks (log_effects log.new.directory) log.new.locks) }
{
    if !is_reservable(entry) || !op.waits_for(entry) {
        return Ok(None);
    }
    let decision = log.directory.read_entry(entry, &mut log.locks)?;
    if !op.has_step(&decision, &log.directory, disk) {
        return Ok(None);
    }
    Ok(Some(op.on_decision(alloc, &decision, &log.directory, disk)?))
}

/// Tells a command that its work is done.
fn done(alloc: Global, op: &mut VdiOp, bytes: &[u8]) -> Result<Option<OpAct>, NoMemory> {
    let done = WorkDone {
        req: 1,
        bytes: Bytes::from_slice(alloc, bytes)?,
    };
    if op.bytes_wanted() != Some(done.bytes.len()) {
        return Ok(None);
    }
    Ok(Some(op.on_done(alloc, &done)?))
}

/// What a command did, in words: with each entry decided at once, and each read giving the same bytes.
#[derive(Drop)]
pub(crate) struct CommandCourse {
    pub op: VdiOp,
    pub told: String,
}

/// The next act of a command, if it has one.
fn next_act(
    alloc: Global,
    op: &mut VdiOp,
    act: &OpAct,
    read: &[u8],
    disk: Option<&Inode>,
    log: &mut Log,
) -> Result<Option<OpAct>, NoMemory>
    requires { AreLocks (log_effects log.old.directory) log.old.locks }
    ensures { OnOk result (AreLocks (log_effects log.new.directory) log.new.locks) }
{
    match act {
        OpAct::Append(entry) => decided(alloc, op, entry, disk, log),
        OpAct::Work(ObjWork::Read { .. }) => done(alloc, op, read),
        OpAct::Work(_) => done(alloc, op, &[]),
        OpAct::Reply(_) => Ok(None),
    }
}

/// A command of session 1 of node 3, to its reply.
pub(crate) fn course(
    alloc: Global,
    ask: VdiAsk,
    read: &[u8],
    disk: Option<&Inode>,
    log: &mut Log,
) -> Result<CommandCourse, NoMemory>
    requires locks { AreLocks (log_effects log.old.directory) log.old.locks }
    requires first { HasFirstEntry (option_copied disk) ask }
    ensures { OnOk result (AreLocks (log_effects log.new.directory) log.new.locks) }
{
    let (mut op, mut act) = begin_vdi(alloc, NodeId(3), 1, ask, disk)?;
    let mut told = String::new(alloc);
    for _ in 0..5 {
        write_op_act(&mut told, &act)?;
        match next_act(alloc, &mut op, &act, read, disk, log)? {
            Some(next) => act = next,
            None => break,
        }
    }
    Ok(CommandCourse { op, told })
}

impl CommandCourse {
    /// What the command did, and what becomes of the open disk.
    pub(crate) fn told(self) -> Result<String, NoMemory> {
        let CommandCourse { op, mut told } = self;
        if op.closes() {
            told.push_str("closes")?;
            return Ok(told);
        }
        let kind = if op.opens_snapshot() {
            "snapshot"
        } else {
            "disk"
        };
        match op.into_inode() {
            Some(inode) => write_opened(&mut told, kind, &inode)?,
            None => told.push_str("stays")?,
        }
        Ok(told)
    }
}

/// Writes what a session has open: the inode's id and its table.
fn write_opened(told: &mut String, kind: &str, inode: &Inode) -> Result<(), NoMemory> {
    write!(told, "opens {kind} {}:", inode.vid().0)?;
    for entry in inode.entries() {
        write!(told, " {entry}")?;
    }
    Ok(())
}

/// Bytes of an inode that is read: 4,664 times 9, and a table.
fn read_bytes(alloc: Global, table: [u32; 3]) -> Result<Vec<u8>, NoMemory> {
    let mut bytes = Vec::new(alloc);
    bytes.resize(4_664, 9)?;
    for entry in table {
        bytes.extend_from_slice(&entry.to_le_bytes())?;
    }
    Ok(bytes)
}

/// Creates disk `a`.
pub(crate) fn create_a(alloc: Global, log: &mut Log) -> Result<CommandCourse, NoMemory>
    requires { AreLocks (log_effects log.old.directory) log.old.locks }
    ensures { OnOk result (AreLocks (log_effects log.new.directory) log.new.locks) }
{
    let ask = VdiAsk::Create {
        name: Bytes::from_slice(alloc, b"a")?,
        spec: SPEC,
    };
    course(alloc, ask, &[], None, log)
}

/// Opens disk `a`, or its snapshot `t`.
pub(crate) fn open_a(
    alloc: Global,
    tag: Option<Bytes>,
    log: &mut Log,
) -> Result<CommandCourse, NoMemory>
    requires { AreLocks (log_effects log.old.directory) log.old.locks }
    ensures { OnOk result (AreLocks (log_effects log.new.directory) log.new.locks) }
{
    let ask = VdiAsk::Attach {
        name: Bytes::from_slice(alloc, b"a")?,
        tag,
    };
    let read = read_bytes(alloc, [A, 5, A])?;
    course(alloc, ask, read.as_slice(), None, log)
}

/// A log with disk `a`, and its inode, which session 1 has open.
#[derive(Drop)]
pub(crate) struct OpenDisk {
    pub log: Log,
    pub inode: Inode,
}

/// Creates disk `a`, and opens it.
pub(crate) fn opened_a(alloc: Global) -> Result<Option<OpenDisk>, NoMemory>
    ensures { IfOk result (λ opened. IfSome opened (λ opened. AreLocks (log_effects opened.log.directory) opened.log.locks)) }
{
    let mut log = Log::new(alloc);
    create_a(alloc, &mut log)?;
    let course = open_a(alloc, None, &mut log)?;
    match course.op.into_inode() {
        Some(inode) => Ok(Some(OpenDisk { log, inode })),
        None => Ok(None),
    }
}

/// Takes the snapshot `t` of the open disk.
pub(crate) fn take_snapshot(
    alloc: Global,
    inode: &Inode,
    log: &mut Log,
) -> Result<Option<CommandCourse>, NoMemory>
    requires { AreLocks (log_effects log.old.directory) log.old.locks }
    ensures { OnOk result (AreLocks (log_effects log.new.directory) log.new.locks) }
{
    let tag = Bytes::from_slice(alloc, b"t")?;
    if !is_name(tag.as_slice()) {
        return Ok(None);
    }
    Ok(Some(course(alloc, VdiAsk::Snapshot { tag }, &[], Some(inode), log)?))
}

/// A log with disk `a` and its snapshot `t`.
pub(crate) fn snapshot_of_a(alloc: Global) -> Result<Option<Log>, NoMemory>
    ensures { IfOk result (λ log. IfSome log (λ log. AreLocks (log_effects log.directory) log.locks)) }
{
    match opened_a(alloc)? {
        Some(OpenDisk { mut log, inode }) => {
            take_snapshot(alloc, &inode, &mut log)?;
            Ok(Some(log))
        }
        None => Ok(None),
    }
}

/// Makes the clone `b` of the snapshot `t` of disk `a`, whose inode has these entries.
pub(crate) fn clone_b(
    alloc: Global,
    table: [u32; 3],
    log: &mut Log,
) -> Result<CommandCourse, NoMemory>
    requires { AreLocks (log_effects log.old.directory) log.old.locks }
    ensures { OnOk result (AreLocks (log_effects log.new.directory) log.new.locks) }
{
    let ask = VdiAsk::Clone {
        base: Bytes::from_slice(alloc, b"a")?,
        tag: Bytes::from_slice(alloc, b"t")?,
        name: Bytes::from_slice(alloc, b"b")?,
    };
    let read = read_bytes(alloc, table)?;
    course(alloc, ask, read.as_slice(), None, log)
}
