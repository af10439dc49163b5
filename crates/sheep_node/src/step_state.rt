//! A step in the making: the node as far as it has come, and what was put out so far.

ghost use Rattle.std.specs.Prelude.{◌≡◌, ◌+◌, ◌<◌, ◌^◌, length, None, OnOk};
ghost use Rattle.std.specs.List.{position};
ghost use Rattle.std.specs.FinMap as tree;
ghost use Rattle.sheep_node.specs.StepState.{at_first, with_sends, replies_in_order, with_guest_reply, with_outbox_entry, with_optional_entry, with_disk};
ghost use Rattle.sheep_node.specs.StepState.{with_course, with_sole_request, without_course, without_request, request_ended, session_in, with_session};
ghost use Rattle.sheep_node.specs.Kept.{is_reply_behind, without_session, step_without};

use crate::course::{Course, Request};
use crate::outputs::Outputs;
use crate::replies::ReplyList;
use crate::session::Session;
use crate::state::NodeState;
use guest_driver::Disk;
use object_id::{Entry, NoMemory, NodeId};
use peer_proto::{GuestRsp, PeerReq, PeerRsp, SendList};
use std::alloc::Global;
use std::marker::Model;
use std::mem;

/// A node in the middle of a step, with what the step gives. A call that answers `NoMemory` leaves nothing to rely on: the node is spent.
pub(crate) struct StepState {
    pub node: NodeState,
    pub sends: Vec<(NodeId, PeerReq)>,
    pub say: Option<PeerRsp>,
    pub replies: Vec<(u32, GuestRsp)>,
    pub put: Option<Entry>,
}

/// Written out, so that letting one go is one call wherever it is done, and no cases there.
impl Drop for StepState {
    fn drop(self) {
        let StepState {
            node,
            sends,
            say,
            replies,
            put,
        } = self;
        drop(node);
        drop(sends);
        drop(say);
        drop(replies);
        drop(put);
    }
}

impl Model for StepState {
    ghost use Rattle.std.specs.Prelude.{List};
    ghost use Rattle.std.specs.Coded.{codes, coded_ℕ};
    ghost use Rattle.std.specs.FinMap as tree;
    ghost use Rattle.std.specs.FinSet as set;
    ghost use Rattle.std.specs.Ordering.{nat_cmp};
    ghost use Rattle.object_store.specs.Store.{SeenRow};
    ghost use Rattle.gateway.specs.State.{Work};
    ghost use Rattle.sheep_node.specs.declared.course.Request.{Request};
    ghost use Rattle.sheep_node.specs.declared.session.Session.{Session};
    ghost use Rattle.sheep_node.specs.StepState.{StepState};

    ghost Value = { StepState };

    ghost coded = { Prim.hlevel (
      codes,
      tree.code {X = List SeenRow} {R = nat_cmp} coded_ℕ (Prim.hlevel codes),
      tree.code {X = Work} {R = nat_cmp} coded_ℕ (Prim.hlevel codes),
      set.code {R = nat_cmp} coded_ℕ,
      tree.code {X = Session} {R = nat_cmp} coded_ℕ (Prim.hlevel codes),
      tree.code {X = Request} {R = nat_cmp} coded_ℕ (Prim.hlevel codes),
    ) };

    ghost view = { λ step. record {
      node = step.node;
      outputs = record { sends = step.sends.items; say = step.say; replies = step.replies.items; put = step.put };
    } };
}

impl StepState {
    /// Nothing was put out yet.
    pub fn new(node: NodeState) -> StepState
        ensures { result ≡ at_first node }
    {
        let alloc = node.alloc;
        StepState {
            node,
            sends: Vec::new(alloc),
            say: None,
            replies: Vec::new(alloc),
            put: None,
        }
    }

    /// What was put out; from now on nothing is.
    pub fn take_outputs(&mut self) -> Outputs
        ensures node { self.new ≡ at_first self.old.node }
        ensures outputs { result ≡ self.old.outputs }
    {
        let alloc = self.node.alloc;
        Outputs {
            sends: SendList::from_vec(mem::replace(&mut self.sends, Vec::new(alloc))),
            say: mem::replace(&mut self.say, None),
            replies: ReplyList::from_vec(mem::replace(&mut self.replies, Vec::new(alloc))),
            put: mem::replace(&mut self.put, None),
        }
    }

    /// Requests are sent, and the count of sends grows by their number.
    pub fn send(&mut self, sends: SendList) -> Result<(), NoMemory>
        requires { self.old.node.sends + length sends < 2 ^ 32 }
        ensures { OnOk result (self.new ≡ with_sends sends self.old) }
    {
        self.node.sends += sends.len() as u32;
        let mut sends = sends.into_vec();
        self.sends.append(&mut sends)?;
        Ok(())
    }

    /// A guest's request is replied to, among the others by ascending request.
    pub fn reply(&mut self, req: u32, reply: GuestRsp) -> Result<(), NoMemory>
        ensures { OnOk result (self.new ≡ with_guest_reply req reply self.old) }
    {
        insert_reply(&mut self.replies, req, reply)
    }

    /// An entry stands at the outbox's end.
    pub fn put_later(&mut self, entry: Entry) -> Result<(), NoMemory>
        ensures { OnOk result (self.new ≡ with_outbox_entry entry self.old) }
    {
        self.node.outbox.push_back(entry)?;
        Ok(())
    }

    /// An entry, if there is one, stands there.
    pub fn put_later_if_some(&mut self, entry: Option<Entry>) -> Result<(), NoMemory>
        ensures { OnOk result (self.new ≡ with_optional_entry entry self.old) }
    {
        match entry {
            Some(entry) => self.put_later(entry),
            None => Ok(()),
        }
    }

    /// The session of a number, as it is by now, to be changed and put back.
    pub fn take_session(&mut self, number: u32) -> Session
        ensures session { result ≡ session_in number self.old }
        ensures others { self.new ≡ without_session number self.old }
    {
        let alloc = self.node.alloc;
        self.node.sessions.take(alloc, number)
    }

    pub fn put_session(&mut self, number: u32, session: Session) -> Result<(), NoMemory>
        ensures { OnOk result (self.new ≡ with_session number session self.old) }
    {
        self.node.sessions.put(number, session)
    }

    /// A session has this disk open, or none.
    pub fn set_disk(&mut self, number: u32, disk: Option<Disk>) -> Result<(), NoMemory>
        ensures { OnOk result (self.new ≡ with_disk number disk self.old) }
    {
        let mut session = self.take_session(number);
        session.disk = disk;
        self.put_session(number, session)
    }

    /// A request, if it is there, is taken out, to go on and be put back.
    pub fn take_request(&mut self, req: u32) -> Option<Request>
        ensures request { result ≡ tree.get self.old.node.requests req }
        ensures others { self.new ≡ step_without req self.old }
    {
        self.node.requests.remove(req)
    }

    /// A request of a session is there.
    pub fn set_course(&mut self, number: u32, req: u32, course: Course) -> Result<(), NoMemory>
        ensures { OnOk result (self.new ≡ with_course number req course self.old) }
    {
        let request = Request {
            session: number,
            course,
        };
        self.node.requests.put(req, request)
    }

    /// A request is there, and is alone in its session.
    pub fn set_sole_request(
        &mut self,
        number: u32,
        req: u32,
        course: Course,
    ) -> Result<(), NoMemory>
        ensures { OnOk result (self.new ≡ with_sole_request number req course self.old) }
    {
        self.set_course(number, req, course)?;
        let mut session = self.take_session(number);
        session.command = Some(req);
        self.put_session(number, session)
    }

    /// The gateway forgets a request, and it leaves the requests.
    fn remove_course(&mut self, req: u32)
        requires { tree.get self.old.node.gateway.works req ≡ None }
        ensures { self.new ≡ without_course req self.old }
    {
        self.node.gateway.end(req);
        drop(self.node.requests.remove(req));
    }

    /// A request is no more.
    fn remove_request(&mut self, number: u32, req: u32) -> Result<(), NoMemory>
        requires { tree.get self.old.node.gateway.works req ≡ None }
        ensures { OnOk result (self.new ≡ without_request number req self.old) }
    {
        self.remove_course(req);
        let mut session = self.take_session(number);
        session.end_request(req);
        self.put_session(number, session)
    }

    /// A request ends with its reply.
    pub fn end_request(&mut self, number: u32, req: u32, reply: GuestRsp) -> Result<(), NoMemory>
        requires { tree.get self.old.node.gateway.works req ≡ None }
        ensures { OnOk result (self.new ≡ request_ended number req reply self.old) }
    {
        self.remove_request(number, req)?;
        self.reply(req, reply)
    }
}

/// Where a reply to a request stands among replies, if not at their end: before the first one to a later request.
fn place_of(replies: &[(u32, GuestRsp)], req: u32) -> Option<usize>
    ensures { result ≡ position (is_reply_behind req) replies.now }
{
    replies.iter().position(|reply| req < reply.0)
}

fn insert_reply(
    replies: &mut Vec<(u32, GuestRsp)>,
    req: u32,
    reply: GuestRsp,
) -> Result<(), NoMemory>
    ensures { OnOk result (replies.new.items ≡ replies_in_order (req, reply) replies.old.items) }
{
    match place_of(replies.as_slice(), req) {
        Some(place) => replies.insert(place, (req, reply))?,
        None => replies.push((req, reply))?,
    }
    Ok(())
}
