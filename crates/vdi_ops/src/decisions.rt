//! What comes after the entry that a command waits for was decided.
ghost use Rattle.std.specs.Prelude.{◌≡◌, ◌↔◌, ℕ, List, false, All, Some, IfOk, IfSome, IfErr, IsOk, IsTrue, is_some};
ghost use Rattle.std.specs.Option.{option_copied, option_map_or, option_and_then};
ghost use Rattle.peer_proto.specs.declared.guest.GuestRsp.TheVariants.{Done};
ghost use Rattle.vdi_ops.specs.declared.act.OpAct.TheVariants.{Reply};
ghost use Rattle.vdi_ops.specs.Op.{Op, Stays, Opens, Answered};
ghost use Rattle.object_id.specs.declared.oid.Vid.{Vid as TheVid};
ghost use Rattle.vdi_directory.specs.Decisions.{log_effects};
ghost use Rattle.vdi_directory.specs.Effects.{header_of};
ghost use Rattle.vdi_ops.specs.Steps.{change_without_grant, step_after_grant, step_after_decision, decided_at};
ghost use Rattle.vdi_ops.specs.InodeWorks.{CommandBeginsWork};
ghost use Rattle.vdi_ops.specs.Stage.{op_change, op_stage, bare_op, step_to};
ghost use Rattle.inode.specs.Layout.{IsEntry, HasIds};
ghost use Rattle.vdi_ops.specs.Kept.{EntryHasTag, OpensInodeWithIds, IsSoundOpStage, FitsEntry, FitsOpStage, vid_granted};
ghost use Rattle.vdi_ops.specs.Kept.{first_takes_memory, decision_takes_memory};

use crate::granted::{reply, step_after_grant};
use crate::stage::{Change, Next, Stage};
use inode::Inode;
use object_id::{Entry, NoMemory, NodeId, Origin, VID_MAX};
use peer_proto::GuestRsp;
use std::alloc::Global;
use vdi_directory::{Decision, Directory, Header};

/// What a command leaves open that is granted nothing.
fn change_without_grant(entry: &Entry) -> Change
    ensures change { op_change result ≡ change_without_grant entry.now }
    ensures sound { OpensInodeWithIds (op_change result) }
{
    match entry {
        Entry::Unlock { .. } => Change::Closes,
        _ => Change::Stays,
    }
}

/// Whether each entry of a table is 0 or an id. Costs a look at each.
fn are_entries(table: &[u32]) -> bool
    ensures { IsTrue result ↔ All IsEntry table.now }
{
    table.iter().all(|entry| *entry <= VID_MAX)
}

/// Whether a session may have this inode open.
fn has_table_of_ids(inode: &Inode) -> bool
    ensures { IsTrue result ↔ HasIds inode.now }
{
    inode.vid().is_valid() && are_entries(inode.entries())
}

/// Whether the open disk is one that the id which was granted on an entry can follow, and the entry is one that is granted.
fn has_step_after_grant(entry: &Entry, header: &Header, disk: Option<&Inode>) -> bool
    ensures step { (op : Op) (vid : TheVid) (chain : List ℕ) → IsTrue result
        → IsTrue (is_some (step_after_grant op vid chain (option_copied disk.entry) entry.now header.now)) }
    ensures disk { IsTrue result → IfSome (option_copied disk.entry) (λ inode. FitsEntry header.now inode entry.now) }
    ensures only { (op : Op) (vid : TheVid) (chain : List ℕ)
        → IsTrue (is_some (step_after_grant op vid chain (option_copied disk.entry) entry.now header.now))
        → IfSome (option_copied disk.entry) (λ inode. FitsEntry header.now inode entry.now) → IsTrue result }
{
    match entry {
        Entry::Reserve { origin, .. } => match origin {
            Origin::Fresh { .. } => true,
            Origin::SnapshotOf { .. } => match disk {
                Some(disk) => has_table_of_ids(disk) && header.spec == disk.spec(),
                None => false,
            },
            Origin::CloneOf { .. } => header.parent.is_some(),
        },
        Entry::Delete { .. } => true,
        Entry::Lock { .. } => true,
        Entry::Unlock { .. } => true,
        _ => false,
    }
}

/// Whether a command goes on by the decision on its first entry.
pub(crate) fn has_step_after_decision(
    entry: &Entry,
    decision: &Decision,
    directory: &Directory,
    disk: Option<&Inode>,
) -> bool
    ensures step { (op : Op) → IsTrue result → IsTrue (is_some (step_after_decision (log_effects directory.now)
        (option_copied disk.entry) op entry.now decision.now)) }
    ensures disk { IsTrue result → IfSome (option_and_then (λ vid. header_of (log_effects directory.now) vid.0) (vid_granted decision.now))
        (λ header. IfSome (option_copied disk.entry) (λ inode. FitsEntry header inode entry.now)) }
    ensures only { (op : Op) → IsTrue (is_some (step_after_decision (log_effects directory.now) (option_copied disk.entry) op entry.now
        decision.now)) → IfSome (option_and_then (λ vid. header_of (log_effects directory.now) vid.0) (vid_granted decision.now))
        (λ header. IfSome (option_copied disk.entry) (λ inode. FitsEntry header inode entry.now)) → IsTrue result }
{
    match *decision {
        Decision::None => true,
        Decision::Granted { vid } => match directory.header(vid) {
            Some(header) => has_step_after_grant(entry, header, disk),
            None => false,
        },
        Decision::Refused(_) => true,
    }
}

/// The first entry was decided.
fn step_after_decision(
    alloc: Global,
    by: NodeId,
    entry: &Entry,
    decision: &Decision,
    directory: &Directory,
    disk: Option<&Inode>,
) -> Result<Next, NoMemory>
    requires step { IsTrue (is_some (step_after_decision (log_effects directory.now) (option_copied disk) (bare_op by) entry.now
        decision.now)) }
    requires disk { IfSome (option_and_then (λ vid. header_of (log_effects directory.now) vid.0) (vid_granted decision.now))
        (λ header. IfSome (option_copied disk) (λ inode. FitsEntry header inode entry.now)) }
    requires tag { EntryHasTag entry.now }
    ensures ok { IfOk result (λ next. step_after_decision (log_effects directory.now) (option_copied disk.entry) (bare_op by) entry.now
        decision.now ≡ Some (step_to (bare_op by) next)) }
    ensures sound { IfOk result (λ next. IsSoundOpStage (op_stage next.stage)) }
    ensures work { IfOk result (λ next. CommandBeginsWork next.act) }
    ensures memory { first_takes_memory decision.now entry.now ≡ false → IsOk result }
{
    match *decision {
        Decision::None => Ok(reply(GuestRsp::Done, change_without_grant(entry))),
        Decision::Granted { vid } => match directory.header(vid) {
            Some(header) => step_after_grant(alloc, by, entry, vid, header, directory, disk),
            None => Err(NoMemory),
        },
        Decision::Refused(cause) => {
            Ok(reply(GuestRsp::Refused(cause), change_without_grant(entry)))
        }
    }
}

/// The last entry was decided.
fn after_last(opened: Option<Inode>) -> Next
    requires { IfSome opened HasIds }
    ensures stage { op_stage result.stage ≡ Answered (option_map_or (Opens false) opened Stays) }
    ensures act { result.act ≡ Reply Done }
    ensures sound { IsSoundOpStage (op_stage result.stage) }
{
    match opened {
        Some(inode) => reply(
            GuestRsp::Done,
            Change::Opens {
                snapshot: false,
                inode,
            },
        ),
        None => reply(GuestRsp::Done, Change::Stays),
    }
}

/// The entry that a command waits for was decided. Without memory this gives its stage back.
pub(crate) fn after_decision(
    alloc: Global,
    by: NodeId,
    stage: Stage,
    decision: &Decision,
    directory: &Directory,
    disk: Option<&Inode>,
) -> Result<Next, Stage>
    requires step { IsTrue (is_some (decided_at (log_effects directory.now) (option_copied disk) decision.now (bare_op by)
        (op_stage stage))) }
    requires disk { FitsOpStage (option_and_then (λ vid. header_of (log_effects directory.now) vid.0) (vid_granted decision.now))
        (option_copied disk) (op_stage stage) }
    requires sound { IsSoundOpStage (op_stage stage) }
    ensures ok { IfOk result (λ next. decided_at (log_effects directory.now) (option_copied disk.entry) decision.now (bare_op by)
        (op_stage stage) ≡ Some (step_to (bare_op by) next)) }
    ensures sound { IfOk result (λ next. IsSoundOpStage (op_stage next.stage)) }
    ensures work { IfOk result (λ next. CommandBeginsWork next.act) }
    ensures err { IfErr result (λ kept. kept ≡ stage) }
    ensures memory { decision_takes_memory decision.now (op_stage stage) ≡ false → IsOk result }
{
    match stage {
        Stage::Asked(entry) => match step_after_decision(
            alloc, by, &entry, decision, directory, disk,
        ) {
            Ok(next) => Ok(next),
            Err(NoMemory) => Err(Stage::Asked(entry)),
        },
        Stage::Working(vid, task) => Err(Stage::Working(vid, task)),
        Stage::Publishing(_, opened) => Ok(after_last(opened)),
        Stage::Answered(change) => Err(Stage::Answered(change)),
    }
}
