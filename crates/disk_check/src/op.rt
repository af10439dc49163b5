ghost use Rattle.std.specs.Prelude.{◌≡◌, ◌^◌, ◌∷◌, length, false, IfOk, IsOk, Some, OnErr, OnOk};
ghost use Rattle.object_id.specs.Oid.{IsVid};
ghost use Rattle.disk_check.specs.Value.{all_bytes, pieces_in};
ghost use Rattle.disk_check.specs.Check.{CheckStage, Comparing, WritingBack, later_of, check_on, begin_check, write_back_step};
ghost use Rattle.disk_check.specs.Check.{check_on_done, check_bytes_wanted, takes_memory, CheckBeginsWork};
ghost use Rattle.disk_check.specs.Check.{is_comparing, value_written};

use crate::act::CheckAct;
use crate::compare::{all_bytes, differ, value_of};
use crate::found::{add_object, copy_found};
use crate::stage::Stage;
use crate::table::entries_by_owner;
use inode::Inode;
use object_id::{Bytes, NoMemory, Oid, VdiSpec, Vid};
use object_store::OidList;
use peer_proto::{Checked, ObjWork, WorkDone};
use std::alloc::Global;
use std::marker::Model;

/// A check of a disk.
#[derive(Debug)]
pub struct CheckOp {
    vid: Vid,
    spec: VdiSpec,
    /// What it found so far.
    found: Checked,
    /// The indexes of the disk's own objects, ascending.
    own: Vec<u32>,
    /// How many of them were begun.
    begun: usize,
    stage: Stage,
}

/// Written out, so that letting one go is one call wherever it is done, and no cases there.
impl Drop for CheckOp {
    fn drop(self) {
        let CheckOp {
            vid: _,
            spec: _,
            found,
            own,
            begun: _,
            stage,
        } = self;
        drop(found);
        drop(own);
        drop(stage);
    }
}

impl Model for CheckOp {
    ghost use Rattle.std.specs.Prelude.{drop};
    ghost use Rattle.disk_check.specs.Check.{Check, IsCheck};
    ghost use Rattle.disk_check.specs.Stage.{check_stage};

    ghost Value = { Check };

    ghost view = { λ op. record {
      vid = op.vid.0;
      spec = op.spec;
      found = op.found;
      stage = check_stage op.stage (drop op.begun op.own.items);
    } };

    ghost invariant = { λ op. IsCheck (record {
      vid = op.vid.0;
      spec = op.spec;
      found = op.found;
      stage = check_stage op.stage (drop op.begun op.own.items);
    }) };
}

/// Begins the check of an open disk: looks through its table once, and takes four bytes for each own object.
pub fn begin_check(alloc: Global, inode: &Inode) -> Result<(CheckOp, CheckAct), NoMemory>
    requires { IsVid inode.now.vid }
    ensures ok { IfOk result (λ begun. record { check = begun.0; act = begun.1 } ≡ begin_check inode.now) }
    ensures work { IfOk result (λ begun. CheckBeginsWork begun.1) }
{
    let spec = inode.spec();
    let entries = entries_by_owner(alloc, inode)?;
    let mut check = CheckOp {
        vid: inode.vid(),
        spec,
        found: Checked {
            objects: 0,
            inherited: entries.inherited,
            differed: OidList::new(alloc),
        },
        own: entries.own,
        begun: 0,
        stage: Stage::WritingBack,
    };
    let act = check.go_on(alloc)?;
    Ok((check, act))
}

impl CheckOp {
    /// The id of the disk. Costs nothing.
    pub fn vid(&self) -> Vid
        ensures { result.0 ≡ self.now.vid }
    {
        self.vid
    }

    /// What the disk was made with. Costs nothing.
    pub fn spec(&self) -> VdiSpec
        ensures { result ≡ self.now.spec }
    {
        self.spec
    }

    /// How many own objects the check has found. Takes no memory, and costs nothing.
    pub fn objects_found(&self) -> u32
        ensures { result ≡ self.now.found.objects }
    {
        self.found.objects
    }

    /// How many bytes the work gives that the check waits for; `None` if it waits for none. Takes no memory, and costs nothing.
    pub fn bytes_wanted(&self) -> Option<usize>
        ensures { result ≡ check_bytes_wanted self.now }
    {
        match self.stage {
            Stage::Comparing(_) => Some(all_bytes(self.spec)),
            Stage::WritingBack => Some(0),
            Stage::Answered => None,
        }
    }

    /// Whether the check compares an own object. Takes no memory, and costs nothing.
    pub fn is_comparing(&self) -> bool
        ensures { result ≡ is_comparing self.now }
    {
        match self.stage {
            Stage::Comparing(_) => true,
            Stage::WritingBack => false,
            Stage::Answered => false,
        }
    }

    /// The index of the own object that the check compares, with the value that [`CheckOp::on_done`] would write over it; `None` if it
    /// compares none. The check stays as it is. Takes the value's bytes, and no memory for `None`.
    pub fn value_written(
        &self,
        alloc: Global,
        done: &WorkDone,
    ) -> Result<Option<(u32, Bytes)>, NoMemory>
        requires { check_bytes_wanted self.now ≡ Some (length done.now.bytes) }
        ensures ok { IfOk result (λ written. written ≡ value_written done.now.bytes self.now) }
        ensures memory { is_comparing self.now ≡ false → IsOk result }
    {
        match self.stage {
            Stage::Comparing(index) => {
                let value = value_of(alloc, self.spec, done.bytes.as_slice())?;
                Ok(Some((index, value)))
            }
            Stage::WritingBack => Ok(None),
            Stage::Answered => Ok(None),
        }
    }

    /// Goes on after the work that the check waits for, with the bytes that it gave. Comparing costs one pass over the pieces
    /// and takes the value's bytes; going on to the next own object costs a look-up and takes none; the answer takes a copy of
    /// the ids of the objects that differed. Without memory the check stays as it was.
    pub fn on_done(&mut self, alloc: Global, done: &WorkDone) -> Result<CheckAct, NoMemory>
        requires { check_bytes_wanted self.old ≡ Some (length done.now.bytes) }
        ensures ok { IfOk result (λ act. check_on_done done.now.bytes self.old ≡ Some (record { check = self.new; act = act })) }
        ensures work { IfOk result CheckBeginsWork }
        ensures err { OnErr result (self.new ≡ self.old) }
        ensures memory { takes_memory self.old ≡ false → IsOk result }
    {
        match self.stage {
            Stage::Comparing(index) => self.write_back(alloc, index, done.bytes.as_slice()),
            _ => self.go_on(alloc),
        }
    }

    /// Goes on with the first of the own objects that are left, or tells what was found.
    fn go_on(&mut self, alloc: Global) -> Result<CheckAct, NoMemory>
        requires { self.old.stage ≡ WritingBack (later_of self.old.stage) }
        ensures ok { IfOk result (λ act. check_on self.old (later_of self.old.stage) ≡ record { check = self.new; act = act }) }
        ensures err { OnErr result (self.new ≡ self.old) }
        ensures memory { takes_memory self.old ≡ false → IsOk result }
    {
        match self.own.get(self.begun) {
            Some(index) => {
                let index = *index;
                self.begun += 1;
                self.stage = Stage::Comparing(index);
                Ok(CheckAct::Work(ObjWork::ReadAll {
                    oid: Oid::object(self.vid, index),
                    policy: self.spec.policy,
                    length: 1 << self.spec.shift,
                }))
            }
            None => {
                let found = copy_found(alloc, &self.found)?;
                self.stage = Stage::Answered;
                Ok(CheckAct::Reply(found))
            }
        }
    }

    /// Counts an own object whose pieces came, and writes its value back.
    fn write_back(&mut self, alloc: Global, index: u32, bytes: &[u8]) -> Result<CheckAct, NoMemory>
        requires stage { self.old.stage ≡ Comparing index (later_of self.old.stage) }
        requires whole { length bytes.now ≡ all_bytes self.old.spec }
        ensures ok { IfOk result (λ act. write_back_step self.old index (later_of self.old.stage) (pieces_in self.old.spec bytes.now)
            ≡ record { check = self.new; act = act }) }
        ensures err { OnErr result (self.new ≡ self.old) }
    {
        let oid = Oid::object(self.vid, index);
        let value = value_of(alloc, self.spec, bytes)?;
        let differs = differ(alloc, self.spec, value.as_slice(), bytes)?;
        add_object(&mut self.found, oid, differs)?;
        self.stage = Stage::WritingBack;
        Ok(CheckAct::Work(ObjWork::Write {
            oid,
            policy: self.spec.policy,
            offset: 0,
            bytes: value,
        }))
    }
}
