ghost use Rattle.std.specs.Prelude.{◌≡◌, None};
ghost use Rattle.peer_proto.specs.declared.guest.GuestRsp.TheVariants.{Refused};
ghost use Rattle.vdi_ops.specs.Steps.{on_refusal};
ghost use Rattle.sheep_node.specs.AwaitedEntry.{waits_for_entry};
ghost use Rattle.sheep_node.specs.AwaitedNumbers.{awaited_number};
ghost use Rattle.sheep_node.specs.CheckWrites.{has_course_written, is_course_comparing};
ghost use Rattle.sheep_node.specs.Kept.{waits_for_turn, ask_in_waiting, end_on_refusal};

use disk_check::CheckOp;
use guest_driver::Driver;
use object_id::{Cause, Entry};
use peer_proto::{DiskAsk, GuestRsp, ObjWork};
use vdi_ops::{OpEnd, VdiOp, subject_number};

/// Where a request is that has no reply.
#[derive(Debug, Drop)]
pub enum Course {
    /// A read or write that waits for its turn.
    Waiting(DiskAsk),
    /// A read or write that began.
    Driving(Driver),
    /// A command on disks.
    Commanding(VdiOp),
    /// A check of the open disk.
    Checking(CheckOp),
    /// One work on an object, which a client without a script asked for.
    DoingWork(ObjWork),
    /// An entry of such a client, which waits for its decision.
    AwaitingDecision(Entry),
}

/// A request that has no reply: its session, and where it is.
#[derive(Debug, Drop)]
pub struct Request {
    pub session: u32,
    pub course: Course,
}

impl Course {
    /// Whether the request waits for its turn.
    pub fn waits_for_turn(&self) -> bool
        ensures { result ≡ waits_for_turn self.now }
    {
        match self {
            Course::Waiting(_) => true,
            _ => false,
        }
    }

    /// Whether the request is a check that compares an own object. Takes no memory.
    pub fn is_comparing(&self) -> bool
        ensures { result ≡ is_course_comparing self.now }
    {
        match self {
            Course::Waiting(_) => false,
            Course::Driving(_) => false,
            Course::Commanding(_) => false,
            Course::Checking(check) => check.is_comparing(),
            Course::DoingWork(_) => false,
            Course::AwaitingDecision(_) => false,
        }
    }

    /// Whether the request is a check that has come to a write: it has found an own object. Takes no memory.
    pub fn has_written(&self) -> bool
        ensures { result ≡ has_course_written self.now }
    {
        match self {
            Course::Waiting(_) => false,
            Course::Driving(_) => false,
            Course::Commanding(_) => false,
            Course::Checking(check) => 0 < check.objects_found(),
            Course::DoingWork(_) => false,
            Course::AwaitingDecision(_) => false,
        }
    }

    /// What a request asks for that waits for its turn.
    pub fn into_ask(self) -> Option<DiskAsk>
        ensures { result ≡ ask_in_waiting self }
    {
        match self {
            Course::Waiting(ask) => Some(ask),
            _ => None,
        }
    }

    /// Whether the request waits for the decision on exactly this entry.
    pub fn waits_for(&self, entry: &Entry) -> bool
        ensures { result ≡ waits_for_entry entry.now self.now }
    {
        match self {
            Course::Waiting(_) => false,
            Course::Driving(_) => false,
            Course::Commanding(op) => op.waits_for(entry),
            Course::Checking(_) => false,
            Course::DoingWork(_) => false,
            Course::AwaitingDecision(wanted) => wanted.same(entry),
        }
    }

    /// The number that the entry is about which the request waits for; `None` if it waits for none.
    pub fn awaited_number(&self) -> Option<u32>
        ensures { result ≡ awaited_number self.now }
    {
        match self {
            Course::Waiting(_) => None,
            Course::Driving(_) => None,
            Course::Commanding(op) => op.number_wanted(),
            Course::Checking(_) => None,
            Course::DoingWork(_) => None,
            Course::AwaitingDecision(entry) => Some(subject_number(entry)),
        }
    }

    /// How the request ends when its work is refused; `None` where it has no work.
    pub fn on_refused(&self, cause: Cause) -> Option<OpEnd>
        ensures { result ≡ end_on_refusal cause self.now }
    {
        match self {
            Course::Waiting(_) => None,
            Course::Driving(_) => Some(refusal(cause)),
            Course::Commanding(op) => command_end(op, cause),
            Course::Checking(_) => Some(refusal(cause)),
            Course::DoingWork(_) => Some(refusal(cause)),
            Course::AwaitingDecision(_) => None,
        }
    }
}

/// An end with nothing to give back.
fn refusal(cause: Cause) -> OpEnd
    ensures { result ≡ record { unlock = None; reply = Refused cause } }
{
    OpEnd {
        unlock: None,
        reply: GuestRsp::Refused(cause),
    }
}

/// How a command ends whose work is refused, if it waits for one.
fn command_end(op: &VdiOp, cause: Cause) -> Option<OpEnd>
    ensures { result ≡ on_refusal cause op.now }
{
    if op.bytes_wanted().is_some() {
        Some(op.on_refused(cause))
    } else {
        None
    }
}
