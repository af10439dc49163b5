//! The works of requests at the gateway: one begins, or waits in its session's line; and how a request ends whose work is refused.

ghost use Rattle.std.specs.Prelude.{◌≡◌, ◌-◌, ◌^◌, nat_le, None, Some, IfOk, IsTrue, OnOk};
ghost use Rattle.object_id.specs.declared.limits.TheConstants.{NODES_MAX};
ghost use Rattle.peer_proto.specs.Work.{IsWork};
ghost use Rattle.gateway.specs.State.{MaySend, MayStart};
ghost use Rattle.std.specs.Option.{option_map_or};
ghost use Rattle.std.specs.FinMap as tree;
ghost use Rattle.sheep_node.specs.declared.course.Request.{Request as TheRequest};
ghost use Rattle.sheep_node.specs.Kept.{end_of_refused};
ghost use Rattle.sheep_node.specs.RequestWorks.{command_refused, course_refused, queue_left, after_start, start_of, work_begun, work_asked};
ghost use Rattle.sheep_node.specs.MayBegin.{MayBeginWork, MayBeFollowed};
ghost use Rattle.guest_driver.specs.InodeQueue.{may_open_work, queue_with_open, queue_with_waiting};
ghost use Rattle.sheep_node.specs.StepState.{session_in, with_inode_queue};

use crate::state::NodeState;
use crate::step_state::StepState;
use gateway::Act;
use object_id::{Cause, NODES_MAX, NoMemory};
use peer_proto::ObjWork;
use vdi_ops::OpEnd;

impl NodeState {
    /// Whether there are numbers for the messages of an attempt.
    fn has_numbers(&self) -> bool
        ensures { result ≡ nat_le self.now.sends (2 ^ 32 - NODES_MAX) }
    {
        self.sends <= u32::MAX - NODES_MAX + 1
    }

    /// The gateway starts a request's work in the node's epoch.
    fn start_work(&mut self, req: u32, work: ObjWork) -> Result<Act, NoMemory>
        requires may_send { MaySend self.old.gateway self.old.epochs self.old.sends (record { 0 = self.old.peer.epoch }) }
        requires may_start { MayStart self.old.gateway req work }
        ensures act { IfOk result (λ act. act ≡ (start_of req work self.old).act) }
        ensures node { OnOk result (self.new ≡ record self.old { gateway = (start_of req work self.old).gateway }) }
    {
        let epoch = self.rows.peer.epoch();
        self.gateway
            .start(req, work, self.sends, epoch, &self.rows.place)
    }
}

impl StepState {
    /// A request ends since its work is refused.
    fn end_refused(&mut self, number: u32, req: u32, end: OpEnd) -> Result<(), NoMemory>
        requires { tree.get self.old.node.gateway.works req ≡ None }
        ensures { OnOk result (self.new ≡ command_refused number req (Some end) self.old) }
    {
        self.put_later_if_some(end.unlock)?;
        self.end_request(number, req, end.reply)
    }

    /// The session of a request, and how the request ends if its work is refused.
    fn end_of_refused(&self, req: u32, cause: Cause) -> Option<(u32, OpEnd)>
        ensures { result ≡ end_of_refused cause (tree.get self.now.node.requests req) }
    {
        match self.node.requests.get(req) {
            Some(request) => match request.course.on_refused(cause) {
                Some(end) => Some((request.session, end)),
                None => None,
            },
            None => None,
        }
    }

    /// A request ends with the refusal of its work, if it is there and has one.
    pub fn refuse_request(&mut self, req: u32, cause: Cause) -> Result<(), NoMemory>
        requires { tree.get self.old.node.gateway.works req ≡ None }
        ensures { OnOk result (self.new ≡ option_map_or
            (λ (request : TheRequest). course_refused request.session req cause request.course self.old)
            (tree.get self.old.node.requests req) self.old) }
    {
        match self.end_of_refused(req, cause) {
            Some((number, end)) => self.end_refused(number, req, end),
            None => Ok(()),
        }
    }

    /// A work of the session has ended, and leaves the line.
    pub fn leave_queue(&mut self, number: u32, work: &ObjWork) -> Result<(), NoMemory>
        ensures { OnOk result (self.new ≡ queue_left number work.now self.old) }
    {
        let mut session = self.take_session(number);
        session.inode_queue.end(work);
        self.put_session(number, session)
    }

    /// What the start of a work came to: its messages are sent, or for want of members it waits or its request is refused. It isn't done
    /// at once.
    fn after_start(&mut self, number: u32, act: Act) -> Result<(), NoMemory>
        requires { MayBeFollowed act self.old.node }
        ensures { OnOk result (self.new ≡ after_start number act self.old) }
    {
        match act {
            Act::Send(sends) => self.send(sends.list),
            Act::Wait => Ok(()),
            Act::Done { .. } => Ok(()),
            Act::Refused { work, req, cause } => {
                self.leave_queue(number, &work)?;
                self.refuse_request(req, cause)
            }
        }
    }

    /// A request's work begins. What no number is left for is answered as out of memory.
    pub fn begin_work(&mut self, number: u32, req: u32, work: ObjWork) -> Result<(), NoMemory>
        requires { MayBeginWork req work self.old.node }
        ensures { OnOk result (self.new ≡ work_begun number req work self.old) }
    {
        if !self.node.has_numbers() {
            return Err(NoMemory);
        }
        let act = self.node.start_work(req, work)?;
        self.after_start(number, act)
    }

    /// Whether a work may begin at once in a session: it isn't on an inode, or no other such work is open.
    fn may_open(&self, number: u32, work: &ObjWork) -> bool
        ensures { result ≡ may_open_work (session_in number self.now).inode_queue work.now }
    {
        match self.node.sessions.get(number) {
            Some(session) => session.inode_queue.may_open(work),
            None => true,
        }
    }

    /// A work that begins at once is the open one of its session's line, if it is on the inode.
    fn open_in_line(&mut self, number: u32, req: u32, work: &ObjWork) -> Result<(), NoMemory>
        requires { IsTrue (may_open_work (session_in number self.old).inode_queue work.now) }
        ensures { OnOk result (self.new
            ≡ with_inode_queue number (queue_with_open (session_in number self.old).inode_queue req work.now) self.old) }
    {
        let mut session = self.take_session(number);
        session.inode_queue.open(req, work);
        self.put_session(number, session)
    }

    /// A work waits in its session's line.
    fn wait_in_line(&mut self, number: u32, req: u32, work: ObjWork) -> Result<(), NoMemory>
        requires { IsWork work }
        ensures { OnOk result (self.new
            ≡ with_inode_queue number (queue_with_waiting (session_in number self.old).inode_queue req work) self.old) }
    {
        let mut session = self.take_session(number);
        session.inode_queue.wait(req, work)?;
        self.put_session(number, session)
    }

    /// A request comes to a work: that begins, or waits in the session's line.
    pub fn ask_work(&mut self, number: u32, req: u32, work: ObjWork) -> Result<(), NoMemory>
        requires { MayBeginWork req work self.old.node }
        ensures { OnOk result (self.new ≡ work_asked number req work self.old) }
    {
        if self.may_open(number, &work) {
            self.open_in_line(number, req, &work)?;
            self.begin_work(number, req, work)
        } else {
            self.wait_in_line(number, req, work)
        }
    }
}
