//! What waited begins in the step that ends its waiting: first the request whose work ended goes on, then a work that waits for the inode
//! begins, then the session's reads and writes that wait.

ghost use Rattle.std.specs.Prelude.{◌≡◌, map, Some, IfOk, IsTrue, OnOk, is_some};
ghost use Rattle.std.specs.Option.{option_copied, option_map, option_map_or};
ghost use Rattle.std.specs.FinMap as tree;
ghost use Rattle.guest_driver.specs.InodeQueue.{next_work};
ghost use Rattle.guest_driver.specs.Driver.{begin_driver};
ghost use Rattle.guest_driver.specs.Pieces.{is_ask};
ghost use Rattle.gateway_queue.specs.Queue.{may_run};
ghost use Rattle.gateway_queue.specs.declared.queue.Queued.{Queued as TheQueued};
ghost use Rattle.guest_driver.specs.declared.disk.Disk.{Disk as TheDisk};
ghost use Rattle.sheep_node.specs.declared.course.Request.{Request as TheRequest};
ghost use Rattle.sheep_node.specs.StepState.{at_first, session_in, with_course};
ghost use Rattle.sheep_node.specs.LogReading.{on_log_entry};
ghost use Rattle.sheep_node.specs.declared.input.Input.TheVariants as inputs;
ghost use Rattle.sheep_node.specs.May.{May};
ghost use Rattle.sheep_node.specs.NodeInvariant.{IsSoundNode};
ghost use Rattle.sheep_node.specs.Courses.{driver_stepped};
ghost use Rattle.sheep_node.specs.MayBegin.{MayComeToWork};
ghost use Rattle.sheep_node.specs.InStep.{IsInStep, MayFinish, MayFinishIfThere, MayRefuseIfThere, MayGoOnBy};
ghost use Rattle.sheep_node.specs.InStep.{MayBeTold, MayBeToldIfThere, MayBeToldIfAsked};
ghost use Rattle.sheep_node.specs.Kept.{step_without, ask_of_waiting, turn_of, told_at, told_if_asked};
ghost use Rattle.sheep_node.specs.Waiting.{next_begun, queued_requests, begun_if_may, passed_over, let_begin};
ghost use Rattle.sheep_node.specs.Waiting.{work_done, work_refused, after_act};

use crate::course::{Course, Request};
use crate::step_state::StepState;
use gateway::Act;
use gateway_queue::Queued;
use guest_driver::{Disk, begin_disk};
use object_id::{Cause, Entry, NoMemory};
use peer_proto::{DiskAsk, ObjWork, WorkDone};
use std::alloc::Global;
use vdi_directory::Decision;

impl StepState {
    /// Whether a work that waits for the session's inode may begin.
    fn has_next(&self, number: u32) -> bool
        ensures { result ≡ is_some (next_work (session_in number self.now).inode_queue) }
    {
        match self.node.sessions.get(number) {
            Some(session) => session.inode_queue.has_next(),
            None => false,
        }
    }

    /// The work that waits for the session's inode, if one may, begins.
    fn begin_next(&mut self, number: u32) -> Result<(), NoMemory>
        requires { IsInStep self.old }
        ensures { OnOk result (self.new ≡ next_begun number (next_work (session_in number self.old).inode_queue) self.old) }
    {
        if !self.has_next(number) {
            return Ok(());
        }
        let mut session = self.take_session(number);
        let next = session.inode_queue.start();
        self.put_session(number, session)?;
        match next {
            Some(waiting) => self.begin_work(number, waiting.req, waiting.work),
            None => Ok(()),
        }
    }

    /// Whether no earlier read or write of a session has an object in common with this one.
    #[tactic(auto, using(crate::proofs::TurnSteps::may_not_run))]
    fn may_run(&self, number: u32, req: u32) -> bool
        ensures { result ≡ may_run req (session_in number self.now).queue }
    {
        match self.node.sessions.get(number) {
            Some(session) => session.queue.is_queued(req) && session.queue.may_run(req),
            None => false,
        }
    }

    /// The disk that a session has open.
    pub fn disk(&self, number: u32) -> Option<&Disk>
        ensures { option_copied result ≡ (session_in number self.now).disk }
    {
        match self.node.sessions.get(number) {
            Some(session) => session.disk.as_ref(),
            None => None,
        }
    }

    /// A read or write begins on the disk that its session has open, if it has one.
    fn begin_on_disk(&mut self, number: u32, req: u32, ask: DiskAsk) -> Result<(), NoMemory>
        requires may { MayComeToWork req self.old.node }
        requires ask { IsTrue (is_ask ask) }
        ensures { OnOk result (self.new ≡ option_map_or
            (λ (disk : TheDisk). driver_stepped number req disk (begin_driver disk ask) self.old)
            (session_in number self.old).disk self.old) }
    {
        let (driver, act) = match self.disk(number) {
            Some(disk) => begin_disk(self.node.alloc, disk, ask)?,
            None => return Ok(()),
        };
        self.set_course(number, req, Course::Driving(driver))?;
        self.driver_act(number, req, act)
    }

    /// The session of a request that waits, if its turn has come and the session has a disk open.
    fn turn_of(&self, req: u32) -> Option<u32>
        ensures { result ≡ turn_of req (tree.get self.now.node.requests req) self.now }
    {
        match self.node.requests.get(req) {
            Some(request) => {
                let number = request.session;
                if request.course.waits_for_turn()
                    && self.may_run(number, req)
                    && self.disk(number).is_some()
                {
                    Some(number)
                } else {
                    None
                }
            }
            None => None,
        }
    }

    /// A request that waits for its turn is taken out, to begin.
    fn take_ask(&mut self, req: u32) -> Option<DiskAsk>
        ensures ask { result ≡ ask_of_waiting (tree.get self.old.node.requests req) }
        ensures others { self.new ≡ step_without req self.old }
    {
        match self.take_request(req) {
            Some(request) => request.course.into_ask(),
            None => None,
        }
    }

    /// A request begins whose turn has come.
    fn begin_in_turn(&mut self, number: u32, req: u32) -> Result<(), NoMemory>
        requires step { IsInStep self.old }
        requires turn { turn_of req (tree.get self.old.node.requests req) self.old ≡ Some number }
        ensures { OnOk result (self.new ≡ begun_if_may self.old req) }
    {
        match self.take_ask(req) {
            Some(ask) => self.begin_on_disk(number, req, ask),
            None => Ok(()),
        }
    }

    /// A request begins, if it is there and waits for its turn, and its turn has come.
    pub fn begin_if_may(&mut self, req: u32) -> Result<(), NoMemory>
        requires { IsInStep self.old }
        ensures { OnOk result (self.new ≡ begun_if_may self.old req) }
    {
        match self.turn_of(req) {
            Some(number) => self.begin_in_turn(number, req),
            None => Ok(()),
        }
    }

    /// The numbers of a session's reads and writes without reply, as they came.
    fn queued_requests(&self, number: u32) -> Result<Vec<u32>, NoMemory>
        ensures { IfOk result (λ reqs. reqs.items ≡ queued_requests (session_in number self.now)) }
    {
        match self.node.sessions.get(number) {
            Some(session) => numbers_of(self.node.alloc, session.queue.as_slice()),
            None => Ok(Vec::new(self.node.alloc)),
        }
    }

    /// Requests begin in one pass, in this order, where they may.
    fn pass_over(&mut self, reqs: &[u32]) -> Result<(), NoMemory>
        requires { IsInStep self.old }
        ensures { OnOk result (self.new ≡ passed_over reqs.now self.old) }
    {
        for req in reqs {
            self.begin_if_may(*req)?;
        }
        Ok(())
    }

    /// What waited in the session begins.
    pub fn let_begin(&mut self, number: u32) -> Result<(), NoMemory>
        requires { IsInStep self.old }
        ensures { OnOk result (self.new ≡ let_begin number self.old) }
    {
        let reqs = self.queued_requests(number)?;
        self.begin_next(number)?;
        self.pass_over(reqs.as_slice())
    }

    /// A request, which was taken out, goes on with what its work gave, and what waited for the work begins.
    fn finish_request(
        &mut self,
        request: Request,
        work: &ObjWork,
        done: WorkDone,
    ) -> Result<(), NoMemory>
        requires { MayFinish work.now done.req done.bytes request
            (with_course request.session done.req request.course self.old) }
        ensures { OnOk result (self.new ≡ work_done work.now done.req done.bytes (Some request)
            (with_course request.session done.req request.course self.old)) }
    {
        let number = request.session;
        self.leave_queue(number, work)?;
        self.go_on(number, request.course, done)?;
        self.let_begin(number)
    }

    /// A request goes on with what its work gave, if it is there, and what waited for the work begins.
    fn finish_work(&mut self, work: ObjWork, done: WorkDone) -> Result<(), NoMemory>
        requires { MayFinishIfThere work done.req done.bytes (tree.get self.old.node.requests done.req) self.old }
        ensures { OnOk result (self.new ≡ work_done work done.req done.bytes (tree.get self.old.node.requests done.req) self.old) }
    {
        match self.take_request(done.req) {
            Some(request) => self.finish_request(request, &work, done),
            None => Ok(()),
        }
    }

    /// A request, which was taken out, goes on by the decision on its entry, and what waited for its end begins.
    fn tell_request(
        &mut self,
        req: u32,
        request: Request,
        decision: Decision,
    ) -> Result<(), NoMemory>
        requires { MayBeTold req decision request (with_course request.session req request.course self.old) }
        ensures { OnOk result (self.new ≡ told_at req decision (Some request)
            (with_course request.session req request.course self.old)) }
    {
        let number = request.session;
        self.decide(number, req, request.course, decision)?;
        self.let_begin(number)
    }

    /// A request goes on by the decision on its entry, if it is there.
    fn tell(&mut self, req: u32, decision: Decision) -> Result<(), NoMemory>
        requires { MayBeToldIfThere req decision (tree.get self.old.node.requests req) self.old }
        ensures { OnOk result (self.new ≡ told_at req decision (tree.get self.old.node.requests req) self.old) }
    {
        match self.take_request(req) {
            Some(request) => self.tell_request(req, request, decision),
            None => Ok(()),
        }
    }

    /// It does, if somebody asked for the entry.
    pub fn tell_if_asked(&mut self, asker: Option<u32>, decision: Decision) -> Result<(), NoMemory>
        requires { MayBeToldIfAsked asker decision self.old }
        ensures { OnOk result (self.new ≡ told_if_asked asker decision self.old) }
    {
        match asker {
            Some(req) => self.tell(req, decision),
            None => Ok(()),
        }
    }

    /// The next entry of the log is read, and the request that waits for it is told the decision.
    pub fn on_log_entry(&mut self, entry: &Entry) -> Result<(), NoMemory>
        requires start { self.old ≡ at_first self.old.node }
        requires may { May (inputs.LogEntry entry.now) self.old.node }
        requires sound { IsSoundNode self.old.node }
        ensures { OnOk result (self.new ≡ on_log_entry entry.now self.old) }
    {
        let asker = self.asker(entry);
        match self.read_entry(entry) {
            Ok(decision) => self.tell_if_asked(asker, decision),
            Err(NoMemory) => Err(NoMemory),
        }
    }

    /// The session of a request.
    fn session_of(&self, req: u32) -> Option<u32>
        ensures { result ≡ option_map (λ (request : TheRequest). request.session) (tree.get self.now.node.requests req) }
    {
        match self.node.requests.get(req) {
            Some(request) => Some(request.session),
            None => None,
        }
    }

    /// A request ends since its work is refused, if it is there, and what waited for the work begins.
    fn refuse_work(&mut self, work: ObjWork, req: u32, cause: Cause) -> Result<(), NoMemory>
        requires { MayRefuseIfThere work req cause (tree.get self.old.node.requests req) self.old }
        ensures { OnOk result (self.new ≡ work_refused work req cause (tree.get self.old.node.requests req) self.old) }
    {
        let Some(number) = self.session_of(req) else {
            return Ok(());
        };
        self.leave_queue(number, &work)?;
        self.refuse_request(req, cause)?;
        self.let_begin(number)
    }

    /// What an act of the gateway comes to.
    pub fn after_act(&mut self, act: Act) -> Result<(), NoMemory>
        requires { MayGoOnBy act self.old }
        ensures { OnOk result (self.new ≡ after_act act self.old) }
    {
        match act {
            Act::Send(sends) => self.send(sends.list),
            Act::Wait => Ok(()),
            Act::Done { work, done } => self.finish_work(work, done),
            Act::Refused { work, req, cause } => self.refuse_work(work, req, cause),
        }
    }
}

/// The numbers of requests in a queue.
fn numbers_of(alloc: Global, queue: &[Queued]) -> Result<Vec<u32>, NoMemory>
    ensures { IfOk result (λ reqs. reqs.items ≡ map (λ (queued : TheQueued). queued.req) queue.now) }
{
    let mut reqs = Vec::new(alloc);
    for queued in queue {
        reqs.push(queued.req)?;
    }
    Ok(reqs)
}
