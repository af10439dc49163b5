//! What comes after a command's first entry was granted.
ghost use Rattle.std.specs.Prelude.{◌≡◌, [], ◌∷◌, false, All, Some, None, IfOk, IfSome, IsOk, IsTrue, is_some};
ghost use Rattle.std.specs.Option.{option_copied};
ghost use Rattle.object_id.specs.Oid.{IsVid};
ghost use Rattle.object_id.specs.Spec.{IsName};
ghost use Rattle.object_id.specs.declared.entry.Entry.TheVariants as entries;
ghost use Rattle.vdi_directory.specs.Decisions.{log_effects};
ghost use Rattle.vdi_directory.specs.Chains.{chain_of};
ghost use Rattle.vdi_ops.specs.declared.act.OpAct.TheVariants.{Work, Reply};
ghost use Rattle.vdi_ops.specs.declared.stage.Stage.TheVariants as stages;
ghost use Rattle.vdi_ops.specs.Tables.{holes, inode_by};
ghost use Rattle.vdi_ops.specs.InodeWorks.{read_inode, create_inode, write_tag, CommandBeginsWork};
ghost use Rattle.vdi_ops.specs.Op.{Opening, Tagging, Copying, Making, Working};
ghost use Rattle.vdi_ops.specs.Steps.{step_after_grant};
ghost use Rattle.vdi_ops.specs.Stage.{op_stage, bare_op, step_to, id_numbers};
ghost use Rattle.inode.specs.Layout.{HasIds};
ghost use Rattle.vdi_ops.specs.Kept.{IsInodeHeader, EntryHasTag, IsSoundOpStage, FitsOrigin, FitsEntry};
ghost use Rattle.vdi_ops.specs.Kept.{grant_takes_memory};

use crate::act::OpAct;
use crate::inode_works::{
    copy_header, create_inode, inode_by, inode_of_holes, read_inode, write_tag,
};
use crate::stage::{Change, LastEntry, Next, Stage, Task};
use inode::Inode;
use object_id::{Entry, Items, NoMemory, NodeId, Origin, Vid};
use peer_proto::GuestRsp;
use std::alloc::Global;
use vdi_directory::{Directory, Header};

/// A step that ends a command. Takes no memory.
pub(crate) fn reply(reply: GuestRsp, change: Change) -> Next
    ensures { result ≡ record { stage = stages.Answered change; act = Reply reply } }
{
    Next {
        stage: Stage::Answered(change),
        act: OpAct::Reply(reply),
    }
}

/// The inode of a new disk is created, with holes alone.
fn make_disk(alloc: Global, by: NodeId, vid: Vid, header: &Header) -> Result<Next, NoMemory>
    requires vid { IsVid vid.0 }
    requires header { IsInodeHeader header.now }
    ensures stage { IfOk result (λ next. op_stage next.stage ≡ Working vid (Making (entries.Publish by vid) None)) }
    ensures act { IfOk result (λ next. next.act ≡ Work (create_inode (inode_by header.now vid.0 (holes header.now.spec)))) }
    ensures work { IfOk result (λ next. CommandBeginsWork next.act) }
{
    let inode = inode_of_holes(alloc, header, vid)?;
    let work = create_inode(alloc, &inode)?;
    let entry = LastEntry::Publish { by, vid };
    Ok(Next {
        stage: Stage::Working(
            vid,
            Task::Making {
                entry,
                opened: None,
            },
        ),
        act: OpAct::Work(work),
    })
}

/// The open disk gets its tag; the inode that takes its place is made of its table.
fn tag_disk(
    alloc: Global,
    vid: Vid,
    tag: &[u8],
    header: &Header,
    disk: &Inode,
) -> Result<Next, NoMemory>
    requires vid { IsVid vid.0 }
    requires header { IsInodeHeader header.now }
    requires disk { HasIds disk.now × (header.now.spec ≡ disk.now.spec) }
    requires tag { IsName tag.now }
    ensures stage { IfOk result (λ next. op_stage next.stage
        ≡ Working vid (Tagging (record { 0 = disk.now.vid }) (inode_by header.now vid.0 disk.now.table))) }
    ensures act { IfOk result (λ next. next.act ≡ Work (write_tag disk.now tag.now)) }
    ensures sound { IfOk result (λ next. IsSoundOpStage (op_stage next.stage)) }
    ensures work { IfOk result (λ next. CommandBeginsWork next.act) }
{
    let inode = inode_by(alloc, header, vid, disk.entries())?;
    let work = write_tag(alloc, disk, tag)?;
    let old = disk.vid();
    Ok(Next {
        stage: Stage::Working(vid, Task::Tagging { old, inode }),
        act: OpAct::Work(work),
    })
}

/// The ids above one.
fn chain_above(directory: &Directory, vid: Vid) -> Result<Items<Vid>, NoMemory>
    ensures value { IfOk result (λ chain. id_numbers chain ≡ chain_of (log_effects directory.now) vid.0) }
    ensures ids { IfOk result (λ chain. All IsVid (id_numbers chain)) }
{
    Ok(Items::from_vec(directory.chain(vid)?))
}

/// The inode of a clone's base is read.
fn read_base(
    alloc: Global,
    vid: Vid,
    parent: Vid,
    header: &Header,
    directory: &Directory,
) -> Result<Next, NoMemory>
    requires parent { IsVid parent.0 }
    requires header { IsInodeHeader header.now }
    ensures stage { IfOk result (λ next. op_stage next.stage
        ≡ Working vid (Copying (chain_of (log_effects directory.now) vid.0) header.now)) }
    ensures act { IfOk result (λ next. next.act ≡ Work (read_inode parent.0 header.now.spec)) }
    ensures work { IfOk result (λ next. CommandBeginsWork next.act) }
{
    let chain = chain_above(directory, vid)?;
    let header = copy_header(alloc, header)?;
    let work = read_inode(parent, header.spec);
    Ok(Next {
        stage: Stage::Working(vid, Task::Copying { chain, header }),
        act: OpAct::Work(work),
    })
}

/// The inode of the disk or snapshot that was granted is read.
fn read_disk(
    alloc: Global,
    vid: Vid,
    snapshot: bool,
    header: &Header,
    directory: &Directory,
) -> Result<Next, NoMemory>
    requires vid { IsVid vid.0 }
    requires header { IsInodeHeader header.now }
    ensures stage { IfOk result (λ next. op_stage next.stage
        ≡ Working vid (Opening snapshot (vid.0 ∷ chain_of (log_effects directory.now) vid.0) header.now)) }
    ensures act { IfOk result (λ next. next.act ≡ Work (read_inode vid.0 header.now.spec)) }
    ensures sound { IfOk result (λ next. IsSoundOpStage (op_stage next.stage)) }
    ensures work { IfOk result (λ next. CommandBeginsWork next.act) }
{
    let chain = chain_above(directory, vid)?;
    let header = copy_header(alloc, header)?;
    let work = read_inode(vid, header.spec);
    Ok(Next {
        stage: Stage::Working(
            vid,
            Task::Opening {
                snapshot,
                chain,
                header,
            },
        ),
        act: OpAct::Work(work),
    })
}

/// Goes on with the id that was granted.
pub(crate) fn step_after_grant(
    alloc: Global,
    by: NodeId,
    entry: &Entry,
    vid: Vid,
    header: &Header,
    directory: &Directory,
    disk: Option<&Inode>,
) -> Result<Next, NoMemory>
    requires vid { IsVid vid.0 }
    requires header { IsInodeHeader header.now }
    requires base { IfSome header.now.parent (λ parent. IsVid parent.0) }
    requires disk { IfSome (option_copied disk) (λ inode. FitsEntry header.now inode entry.now) }
    requires tag { EntryHasTag entry.now }
    requires step { IsTrue (is_some (step_after_grant (bare_op by) vid (chain_of (log_effects directory.now) vid.0)
        (option_copied disk) entry.now header.now)) }
    ensures ok { IfOk result (λ next. step_after_grant (bare_op by) vid (chain_of (log_effects directory.now) vid.0)
        (option_copied disk.entry) entry.now header.now ≡ Some (step_to (bare_op by) next)) }
    ensures sound { IfOk result (λ next. IsSoundOpStage (op_stage next.stage)) }
    ensures work { IfOk result (λ next. CommandBeginsWork next.act) }
    ensures memory { grant_takes_memory entry.now ≡ false → IsOk result }
{
    match entry {
        Entry::Reserve { origin, .. } => match origin {
            Origin::Fresh { .. } => make_disk(alloc, by, vid, header),
            Origin::SnapshotOf { tag } => match disk {
                Some(disk) => tag_disk(alloc, vid, tag.as_slice(), header, disk),
                None => Err(NoMemory),
            },
            Origin::CloneOf { .. } => match header.parent {
                Some(parent) => read_base(alloc, vid, parent, header, directory),
                None => Err(NoMemory),
            },
        },
        Entry::Lock { tag, .. } => read_disk(alloc, vid, tag.is_some(), header, directory),
        Entry::Unlock { .. } => Ok(reply(GuestRsp::Done, Change::Closes)),
        _ => Ok(reply(GuestRsp::Done, Change::Stays)),
    }
}
