ghost use Rattle.std.specs.Prelude.{◌≡◌, ◌↔◌, length, false, Some, None, IfOk, IfSome, IsOk, IsTrue, OnErr, is_some};
ghost use Rattle.std.specs.Option.{option_copied, option_and_then};
ghost use Rattle.peer_proto.specs.declared.guest.VdiAsk.TheVariants.{Close};
ghost use Rattle.vdi_directory.specs.Decisions.{log_effects};
ghost use Rattle.vdi_directory.specs.Effects.{header_of};
ghost use Rattle.vdi_ops.specs.Entries.{first_entry};
ghost use Rattle.vdi_ops.specs.InodeWorks.{CommandBeginsWork};
ghost use Rattle.vdi_ops.specs.Op.{disk_change_at, entry_wanted, op_bytes_wanted};
ghost use Rattle.vdi_ops.specs.Subject.{number_wanted};
ghost use Rattle.vdi_ops.specs.Steps.{begin_command, on_decision, op_on_done, on_refusal};
ghost use Rattle.inode.specs.Layout.{HasIds};
ghost use Rattle.vdi_ops.specs.Kept.{HasFirstEntry, FitsOpStage, vid_granted, decision_takes_memory};
ghost use Rattle.vdi_ops.specs.Kept.{stage_takes_memory, inode_opened, opens_snapshot, closes};

use crate::act::OpAct;
use crate::decisions::{after_decision, has_step_after_decision};
use crate::end::OpEnd;
use crate::first::{copy_entry, first_entry};
use crate::inode_works::written_bytes;
use crate::stage::{Change, Stage, Task};
use crate::subject::subject_number;
use crate::works_done::after_work;
use inode::Inode;
use object_id::{Cause, Entry, NoMemory, NodeId};
use peer_proto::{GuestRsp, VdiAsk, WorkDone};
use std::alloc::Global;
use std::marker::Model;
use std::mem;
use vdi_directory::{Decision, Directory};

/// A command on disks.
#[derive(Debug)]
pub struct VdiOp {
    by: NodeId,
    session: u32,
    stage: Stage,
}

/// Written out, so that letting one go is one call wherever it is done, and no cases there.
impl Drop for VdiOp {
    fn drop(self) {
        let VdiOp {
            by: _,
            session: _,
            stage,
        } = self;
        drop(stage);
    }
}

impl Model for VdiOp {
    ghost use Rattle.vdi_ops.specs.Op.{Op};
    ghost use Rattle.vdi_ops.specs.Stage.{op_stage};
    ghost use Rattle.vdi_ops.specs.Kept.{IsSoundOpStage};

    ghost Value = { Op };

    ghost view = { λ op. record {
      by = op.by;
      session = op.session;
      stage = op_stage op.stage;
    } };

    ghost invariant = { λ op. IsSoundOpStage (op_stage op.stage) };
}

/// Begins a command of a session, which has this inode open: with the first entry, that is to be put. Takes a copy of the entry's
/// names; a close takes no memory.
pub fn begin_vdi(
    alloc: Global,
    node: NodeId,
    session: u32,
    ask: VdiAsk,
    disk: Option<&Inode>,
) -> Result<(VdiOp, OpAct), NoMemory>
    requires { HasFirstEntry (option_copied disk) ask }
    ensures ok { IfOk result (λ begun. begin_command node session ask (option_copied disk.entry)
        ≡ Some (record { op = begun.0; act = begun.1 })) }
    ensures memory { ask ≡ Close → IsOk result }
{
    let entry = first_entry(alloc, node, session, ask, disk)?;
    let put = copy_entry(alloc, &entry)?;
    let op = VdiOp {
        by: node,
        session,
        stage: Stage::Asked(entry),
    };
    Ok((op, OpAct::Append(put)))
}

impl VdiOp {
    /// Whether the command waits for the decision on this entry. Costs a comparison, and takes no memory.
    pub fn waits_for(&self, entry: &Entry) -> bool
        ensures { IsTrue result ↔ (entry_wanted self.now ≡ Some entry.now) }
    {
        match &self.stage {
            Stage::Asked(wanted) => wanted.same(entry),
            Stage::Working(_, _) => false,
            Stage::Publishing(wanted, _) => wanted.entry().same(entry),
            Stage::Answered(_) => false,
        }
    }

    /// The number that the entry is about whose decision the command waits for; `None` if it waits for none. Takes no memory, and costs
    /// nothing.
    pub fn number_wanted(&self) -> Option<u32>
        ensures { result ≡ number_wanted self.now }
    {
        match &self.stage {
            Stage::Asked(wanted) => Some(subject_number(wanted)),
            Stage::Working(_, _) => None,
            Stage::Publishing(wanted, _) => Some(subject_number(&wanted.entry())),
            Stage::Answered(_) => None,
        }
    }

    /// Whether the command can go on by this decision, exactly where `on_decision` may be called: it waits for one, what was granted is
    /// known, and the open disk of a snapshot is there, with the spec that was granted, an id, and in each entry of its table 0 or an id.
    /// Costs the logarithm of the known ids, and for a snapshot a look at each entry of the open disk's table. Takes no memory.
    #[tactic(auto, unfolding(crate::specs::Steps::on_decision))]
    pub fn has_step(&self, decision: &Decision, directory: &Directory, disk: Option<&Inode>) -> bool
        ensures step { IsTrue result
            → IsTrue (is_some (on_decision (log_effects directory.now) (option_copied disk.entry) decision.now self.now)) }
        ensures disk { IsTrue result
            → FitsOpStage (option_and_then (λ vid. header_of (log_effects directory.now) vid.0) (vid_granted decision.now))
            (option_copied disk.entry) self.now.stage }
        ensures only { IsTrue (is_some (on_decision (log_effects directory.now) (option_copied disk.entry) decision.now self.now))
            → FitsOpStage (option_and_then (λ vid. header_of (log_effects directory.now) vid.0) (vid_granted decision.now))
            (option_copied disk.entry) self.now.stage → IsTrue result }
    {
        match &self.stage {
            Stage::Asked(entry) => has_step_after_decision(entry, decision, directory, disk),
            Stage::Working(_, _) => false,
            Stage::Publishing(_, _) => true,
            Stage::Answered(_) => false,
        }
    }

    /// How many bytes the work gives that the command waits for; `None` if it waits for none. Takes no memory, and costs nothing.
    pub fn bytes_wanted(&self) -> Option<usize>
        ensures { result ≡ op_bytes_wanted self.now }
    {
        match &self.stage {
            Stage::Asked(_) => None,
            Stage::Working(_, task) => match task {
                Task::Opening { header, .. } => Some(written_bytes(header.spec)),
                Task::WritingBack { .. } => Some(0),
                Task::Tagging { .. } => Some(0),
                Task::Copying { header, .. } => Some(written_bytes(header.spec)),
                Task::Making { .. } => Some(0),
            },
            Stage::Publishing(_, _) => None,
            Stage::Answered(_) => None,
        }
    }

    /// Goes on after the decision on the entry that the command waits for, which the directory has read; `disk` is the inode that the
    /// session has open. Takes memory for the works after a grant alone: the parent chain of the granted id and its header, or an
    /// inode and its bytes. Without memory the command stays as it was.
    pub fn on_decision(
        &mut self,
        alloc: Global,
        decision: &Decision,
        directory: &Directory,
        disk: Option<&Inode>,
    ) -> Result<OpAct, NoMemory>
        requires step { IsTrue (is_some (on_decision (log_effects directory.now) (option_copied disk) decision.now self.old)) }
        // A snapshot's disk is one that the granted id can follow.
        requires disk { FitsOpStage (option_and_then (λ vid. header_of (log_effects directory.now) vid.0) (vid_granted decision.now))
            (option_copied disk) self.old.stage }
        ensures ok { IfOk result (λ act. on_decision (log_effects directory.now) (option_copied disk.entry) decision.now self.old
            ≡ Some (record { op = self.new; act = act })) }
        ensures work { IfOk result CommandBeginsWork }
        ensures err { OnErr result (self.new ≡ self.old) }
        ensures memory { decision_takes_memory decision.now self.old.stage ≡ false → IsOk result }
    {
        let stage = mem::replace(&mut self.stage, Stage::Answered(Change::Stays));
        match after_decision(alloc, self.by, stage, decision, directory, disk) {
            Ok(next) => {
                self.stage = next.stage;
                Ok(next.act)
            }
            Err(stage) => {
                self.stage = stage;
                Err(NoMemory)
            }
        }
    }

    /// Goes on after the work that the command waits for, with the bytes that it gave. After a read it sorts the ids whose entries
    /// count, and looks for each entry of the table among them; takes memory for the inode and its bytes. After an inode was
    /// written or created it takes none. Without memory the command stays as it was.
    pub fn on_done(&mut self, alloc: Global, done: &WorkDone) -> Result<OpAct, NoMemory>
        requires { op_bytes_wanted self.old ≡ Some (length done.now.bytes) }
        ensures ok { IfOk result (λ act. op_on_done done.now.bytes self.old ≡ Some (record { op = self.new; act = act })) }
        ensures work { IfOk result CommandBeginsWork }
        ensures err { OnErr result (self.new ≡ self.old) }
        ensures memory { stage_takes_memory self.old.stage ≡ false → IsOk result }
    {
        let stage = mem::replace(&mut self.stage, Stage::Answered(Change::Stays));
        match after_work(alloc, self.by, stage, done.bytes.as_slice()) {
            Ok(next) => {
                self.stage = next.stage;
                Ok(next.act)
            }
            Err(stage) => {
                self.stage = stage;
                Err(NoMemory)
            }
        }
    }

    /// How the command ends when the work that it waits for was refused: with the refusal, and with what gives back the id that it was
    /// granted. Takes no memory, and costs nothing.
    #[tactic(auto, unfolding(crate::specs::Steps::on_refusal))]
    pub fn on_refused(&self, cause: Cause) -> OpEnd
        requires { IsTrue (is_some (op_bytes_wanted self.now)) }
        ensures { on_refusal cause self.now ≡ Some result }
    {
        let reply = GuestRsp::Refused(cause);
        match &self.stage {
            Stage::Asked(_) => OpEnd {
                unlock: None,
                reply,
            },
            Stage::Working(vid, _) => OpEnd {
                unlock: Some(Entry::Unlock {
                    by: self.by,
                    session: self.session,
                    vid: *vid,
                }),
                reply,
            },
            Stage::Publishing(_, _) => OpEnd {
                unlock: None,
                reply,
            },
            Stage::Answered(_) => OpEnd {
                unlock: None,
                reply,
            },
        }
    }

    /// Whether the session has nothing open from then on. Takes no memory, and costs nothing.
    pub fn closes(&self) -> bool
        ensures { result ≡ closes (disk_change_at self.now.stage) }
    {
        matches!(&self.stage, Stage::Answered(Change::Closes))
    }

    /// Whether what the session has open from then on is a snapshot that the command opened. Takes no memory, and costs nothing.
    pub fn opens_snapshot(&self) -> bool
        ensures { result ≡ opens_snapshot (disk_change_at self.now.stage) }
    {
        match &self.stage {
            Stage::Answered(Change::Opens { snapshot, .. }) => *snapshot,
            _ => false,
        }
    }

    /// The inode that the session has open from then on; `None` exactly where the command opened none. Takes no memory, and
    /// costs nothing.
    pub fn into_inode(self) -> Option<Inode>
        ensures value { result ≡ inode_opened (disk_change_at self.stage) }
        // A session may have it open: its id is one, and each entry of its table is 0 or an id.
        ensures ids { IfSome result HasIds }
    {
        let VdiOp {
            by: _,
            session: _,
            stage,
        } = self;
        match stage {
            Stage::Answered(Change::Opens { inode, .. }) => Some(inode),
            _ => None,
        }
    }
}
