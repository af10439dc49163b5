//! The write that a check comes to as a reply reaches its node.

ghost use Rattle.std.specs.Prelude.{◌≡◌, false, length, Some, IfOk, IsOk};
ghost use Rattle.gateway.specs.Outcomes.{IsWorkDone};
ghost use Rattle.disk_check.specs.Check.{Check as TheCheck, check_bytes_wanted};
ghost use Rattle.sheep_node.specs.declared.course.Course.TheVariants.{Checking};
ghost use Rattle.sheep_node.specs.declared.input.Input.TheVariants as inputs;
ghost use Rattle.sheep_node.specs.CheckWrites.{write_of_check, write_of_course, write_after_work, check_write_on};
ghost use Rattle.sheep_node.specs.CheckWrites.{is_request_comparing, is_message_comparing};
ghost use Rattle.sheep_node.specs.NodeInvariant.{IsSoundNode};

use crate::course::Course;
use crate::state::NodeState;
use disk_check::CheckOp;
use object_id::{Bytes, NoMemory, VdiSpec, Vid};
use peer_proto::{PeerRsp, WorkDone};
use std::alloc::Global;

/// A check, of the request of a number, writes a value over its disk's object of an index.
#[derive(Debug)]
pub struct CheckWrite {
    pub req: u32,
    pub vid: Vid,
    pub spec: VdiSpec,
    pub index: u32,
    pub value: Bytes,
}

/// Written out, so that letting one go is one call wherever it is done, and no cases there.
impl Drop for CheckWrite {
    fn drop(self) {
        let CheckWrite {
            req: _,
            vid: _,
            spec: _,
            index: _,
            value,
        } = self;
        drop(value);
    }
}

/// The write that a check comes to with what its work gave. Takes the value's bytes.
fn write_of_check(
    alloc: Global,
    check: &CheckOp,
    done: &WorkDone,
) -> Result<Option<CheckWrite>, NoMemory>
    requires { check_bytes_wanted check.now ≡ Some (length done.now.bytes) }
    ensures { IfOk result (λ write. write ≡ write_of_check done.now.req done.now.bytes check.now) }
{
    match check.value_written(alloc, done)? {
        Some((index, value)) => Ok(Some(CheckWrite {
            req: done.req,
            vid: check.vid(),
            spec: check.spec(),
            index,
            value,
        })),
        None => Ok(None),
    }
}

/// The write that a request comes to with what its work gave.
fn write_of_course(
    alloc: Global,
    course: &Course,
    done: &WorkDone,
) -> Result<Option<CheckWrite>, NoMemory>
    requires { (check : TheCheck) → course.now ≡ Checking check → check_bytes_wanted check ≡ Some (length done.now.bytes) }
    ensures { IfOk result (λ write. write ≡ write_of_course done.now.req done.now.bytes course.now) }
{
    match course {
        Course::Waiting(_) => Ok(None),
        Course::Driving(_) => Ok(None),
        Course::Commanding(_) => Ok(None),
        Course::Checking(check) => write_of_check(alloc, check, done),
        Course::DoingWork(_) => Ok(None),
        Course::AwaitingDecision(_) => Ok(None),
    }
}

impl NodeState {
    /// Whether the request of a number is a check that compares an own object.
    fn is_request_comparing(&self, req: u32) -> bool
        ensures { result ≡ is_request_comparing self.now req }
    {
        match self.requests.get(req) {
            Some(request) => request.course.is_comparing(),
            None => false,
        }
    }

    /// Whether the request that an unanswered message belongs to is.
    fn is_message_comparing(&self, number: u32) -> bool
        ensures { result ≡ is_message_comparing self.now number }
    {
        match self.gateway.asker(number) {
            Some(req) => self.is_request_comparing(req),
            None => false,
        }
    }

    /// The write that a request comes to whose work is done.
    fn write_after_work(&self, done: &WorkDone) -> Result<Option<CheckWrite>, NoMemory>
        requires sound { IsSoundNode self.now }
        requires done { IsWorkDone self.now.gateway done.now }
        ensures { IfOk result (λ write. write ≡ write_after_work self.now done.now) }
    {
        match self.requests.get(done.req) {
            Some(request) => write_of_course(self.alloc, &request.course, done),
            None => Ok(None),
        }
    }

    /// The write that a check comes to by a reply, before the node steps on it.
    pub fn check_write_on(&self, rsp: &PeerRsp) -> Result<Option<CheckWrite>, NoMemory>
        requires { IsSoundNode self.now }
        ensures write { IfOk result (λ write. write ≡ check_write_on (inputs.Reply rsp.now) self.now) }
        ensures memory { is_message_comparing self.now rsp.now.number ≡ false → IsOk result }
    {
        if !self.gateway.fits(rsp) {
            return Ok(None);
        }
        if !self.is_message_comparing(rsp.number) {
            return Ok(None);
        }
        let done = self.gateway.work_done_by(rsp)?;
        match done {
            Some(done) => self.write_after_work(&done),
            None => Ok(None),
        }
    }
}
