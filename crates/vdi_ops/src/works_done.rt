//! What comes after the work that a command waits for was done.
ghost use Rattle.std.specs.Prelude.{◌≡◌, ℕ, List, ◌∷◌, false, length, All, Some, IfOk, IfErr, IsOk};
ghost use Rattle.object_id.specs.Oid.{IsVid};
ghost use Rattle.object_id.specs.declared.node.NodeId.{NodeId as TheNode};
ghost use Rattle.vdi_ops.specs.Op.{Opening, Tagging, Copying, bytes_of_task, op_stage_bytes};
ghost use Rattle.vdi_ops.specs.InodeWorks.{written_bytes};
ghost use Rattle.vdi_ops.specs.Tables.{table_in, inode_by};
ghost use Rattle.vdi_ops.specs.Steps.{task_done, done_at};
ghost use Rattle.vdi_ops.specs.Stage.{op_task, op_stage, bare_op, step_to, id_numbers};
ghost use Rattle.inode.specs.Layout.{HasIds};
ghost use Rattle.vdi_ops.specs.Kept.{IsInodeHeader, IsSoundTask, IsSoundOpStage, task_takes_memory, stage_takes_memory};

use crate::act::OpAct;
use crate::granted::reply;
use crate::inode_works::{create_inode, inode_read, write_back};
use crate::stage::{Change, LastEntry, Next, Stage, Task};
use crate::table::numbers;
use inode::Inode;
use object_id::{NoMemory, NodeId, Vid};
use peer_proto::GuestRsp;
use std::alloc::Global;
use vdi_directory::Header;

/// The inode of an opened disk or snapshot, with the entries of its own and of the ids above it.
fn inode_opened(
    alloc: Global,
    vid: Vid,
    chain: &[Vid],
    header: &Header,
    bytes: &[u8],
) -> Result<Inode, NoMemory>
    requires header { IsInodeHeader header.now }
    requires ids { All IsVid (vid.0 ∷ id_numbers chain.now) }
    ensures value { IfOk result (λ inode. inode
        ≡ inode_by header.now vid.0 (table_in (vid.0 ∷ id_numbers chain.now) header.now.spec bytes.now)) }
    ensures ids { IfOk result HasIds }
{
    let mut ids = numbers(alloc, chain)?;
    ids.push(vid.0)?;
    inode_read(alloc, header, vid, ids, bytes)
}

/// The inode of the disk or snapshot was read: a snapshot is open, a disk's is written back.
fn after_opening(
    alloc: Global,
    vid: Vid,
    snapshot: bool,
    chain: &[Vid],
    header: &Header,
    bytes: &[u8],
) -> Result<Next, NoMemory>
    requires vid { IsVid vid.0 }
    requires header { IsInodeHeader header.now }
    requires ids { All IsVid (vid.0 ∷ id_numbers chain.now) }
    requires whole { length bytes.now ≡ written_bytes header.now.spec }
    ensures ok { (by : TheNode) → IfOk result (λ next. step_to (bare_op by) next
        ≡ task_done (bare_op by) vid bytes.now (Opening snapshot (vid.0 ∷ id_numbers chain.now) header.now)) }
    ensures sound { IfOk result (λ next. IsSoundOpStage (op_stage next.stage)) }
{
    let inode = inode_opened(alloc, vid, chain, header, bytes)?;
    if snapshot {
        return Ok(reply(GuestRsp::Done, Change::Opens { snapshot, inode }));
    }
    let work = write_back(alloc, &inode, bytes)?;
    Ok(Next {
        stage: Stage::Working(vid, Task::WritingBack { inode }),
        act: OpAct::Work(work),
    })
}

/// The inode of a clone's base was read: the clone's is created.
fn after_copying(
    alloc: Global,
    by: NodeId,
    vid: Vid,
    chain: &[Vid],
    header: &Header,
    bytes: &[u8],
) -> Result<Next, NoMemory>
    requires vid { IsVid vid.0 }
    requires header { IsInodeHeader header.now }
    ensures ok { IfOk result (λ next. step_to (bare_op by) next
        ≡ task_done (bare_op by) vid bytes.now (Copying (id_numbers chain.now) header.now)) }
    ensures sound { IfOk result (λ next. IsSoundOpStage (op_stage next.stage)) }
{
    let ids = numbers(alloc, chain)?;
    let inode = inode_read(alloc, header, vid, ids, bytes)?;
    let work = create_inode(alloc, &inode)?;
    let entry = LastEntry::Clone { by, vid };
    Ok(Next {
        stage: Stage::Working(
            vid,
            Task::Making {
                entry,
                opened: None,
            },
        ),
        act: OpAct::Work(work),
    })
}

/// The open disk has its tag: the inode that takes its place is created. Without memory this gives the inode back.
fn after_tagging(alloc: Global, by: NodeId, vid: Vid, old: Vid, inode: Inode) -> Result<Next, Inode>
    requires { HasIds inode }
    ensures ok { (bytes : List ℕ) → IfOk result (λ next. step_to (bare_op by) next
        ≡ task_done (bare_op by) vid bytes (Tagging old inode)) }
    ensures sound { IfOk result (λ next. IsSoundOpStage (op_stage next.stage)) }
    ensures err { IfErr result (λ kept. kept ≡ inode) }
{
    match create_inode(alloc, &inode) {
        Ok(work) => {
            let entry = LastEntry::Snapshot { by, old, vid };
            Ok(Next {
                stage: Stage::Working(
                    vid,
                    Task::Making {
                        entry,
                        opened: Some(inode),
                    },
                ),
                act: OpAct::Work(work),
            })
        }
        Err(NoMemory) => Err(inode),
    }
}

/// A task's work was done. Without memory this gives the task back.
fn after_task(alloc: Global, by: NodeId, vid: Vid, task: Task, bytes: &[u8]) -> Result<Next, Task>
    requires sound { IsSoundTask vid (op_task vid task) }
    requires whole { length bytes.now ≡ bytes_of_task (op_task vid task) }
    ensures ok { IfOk result (λ next. step_to (bare_op by) next ≡ task_done (bare_op by) vid bytes.now (op_task vid task)) }
    ensures sound { IfOk result (λ next. IsSoundOpStage (op_stage next.stage)) }
    ensures err { IfErr result (λ kept. kept ≡ task) }
    ensures memory { task_takes_memory (op_task vid task) ≡ false → IsOk result }
{
    match task {
        Task::Opening {
            snapshot,
            chain,
            header,
        } => match after_opening(alloc, vid, snapshot, chain.as_slice(), &header, bytes) {
            Ok(next) => Ok(next),
            Err(NoMemory) => Err(Task::Opening {
                snapshot,
                chain,
                header,
            }),
        },
        Task::WritingBack { inode } => Ok(reply(
            GuestRsp::Done,
            Change::Opens {
                snapshot: false,
                inode,
            },
        )),
        Task::Tagging { old, inode } => match after_tagging(alloc, by, vid, old, inode) {
            Ok(next) => Ok(next),
            Err(inode) => Err(Task::Tagging { old, inode }),
        },
        Task::Copying { chain, header } => match after_copying(
            alloc,
            by,
            vid,
            chain.as_slice(),
            &header,
            bytes,
        ) {
            Ok(next) => Ok(next),
            Err(NoMemory) => Err(Task::Copying { chain, header }),
        },
        Task::Making { entry, opened } => Ok(Next {
            stage: Stage::Publishing(entry, opened),
            act: OpAct::Append(entry.entry()),
        }),
    }
}

/// The work that a command waits for was done. Without memory this gives its stage back.
pub(crate) fn after_work(
    alloc: Global,
    by: NodeId,
    stage: Stage,
    bytes: &[u8],
) -> Result<Next, Stage>
    requires sound { IsSoundOpStage (op_stage stage) }
    requires whole { op_stage_bytes (op_stage stage) ≡ Some (length bytes.now) }
    ensures ok { IfOk result (λ next. done_at bytes.now (bare_op by) (op_stage stage) ≡ Some (step_to (bare_op by) next)) }
    ensures sound { IfOk result (λ next. IsSoundOpStage (op_stage next.stage)) }
    ensures err { IfErr result (λ kept. kept ≡ stage) }
    ensures memory { stage_takes_memory (op_stage stage) ≡ false → IsOk result }
{
    match stage {
        Stage::Working(vid, task) => match after_task(alloc, by, vid, task, bytes) {
            Ok(next) => Ok(next),
            Err(task) => Err(Stage::Working(vid, task)),
        },
        Stage::Asked(entry) => Err(Stage::Asked(entry)),
        Stage::Publishing(entry, opened) => Err(Stage::Publishing(entry, opened)),
        Stage::Answered(change) => Err(Stage::Answered(change)),
    }
}
