//! How a request goes on, and what its session has open then.

ghost use Rattle.std.specs.Prelude.{◌≡◌, length, None, Some, IfOk, OnOk};
ghost use Rattle.std.specs.Option.{option_copied};
ghost use Rattle.disk_check.specs.Check.{IsCheck, check_bytes_wanted, CheckBeginsWork};
ghost use Rattle.guest_driver.specs.BegunWorks.{BeginsWork};
ghost use Rattle.vdi_ops.specs.InodeWorks.{CommandBeginsWork};
ghost use Rattle.std.specs.FinMap as tree;
ghost use Rattle.vdi_ops.specs.Op.{op_bytes_wanted, IsAwaitedAtOpStage};
ghost use Rattle.vdi_ops.specs.Steps.{on_decision};
ghost use Rattle.peer_service.specs.State.{effects_of};
ghost use Rattle.vdi_ops.specs.declared.act.OpAct.TheVariants.{Reply};
ghost use Rattle.sheep_node.specs.Courses.{driver_acted, command_stepped, check_acted, course_went_on, course_decided, inode_open};
ghost use Rattle.sheep_node.specs.Courses.{work_reply, decision_reply};
ghost use Rattle.sheep_node.specs.declared.course.Course.TheVariants.{Driving, Commanding, Checking};
ghost use Rattle.sheep_node.specs.MayBegin.{MayComeToWork, MayGoOn};
ghost use Rattle.sheep_node.specs.StepState.{session_in, with_course, with_disk, with_sole_request};

use crate::course::Course;
use crate::step_state::StepState;
use disk_check::{CheckAct, CheckOp};
use guest_driver::{Disk, Driver, DriverAct};
use inode::Inode;
use object_id::{Bytes, NoMemory};
use peer_proto::{GuestRsp, ObjWork, WorkDone};
use vdi_directory::Decision;
use vdi_ops::{OpAct, VdiOp};

/// What a client without a script is told of its work: a read's bytes.
pub(crate) fn work_reply(work: &ObjWork, bytes: Bytes) -> GuestRsp
    ensures { result ≡ work_reply work.now bytes }
{
    match work {
        ObjWork::Create { .. } => GuestRsp::Done,
        ObjWork::Write { .. } => GuestRsp::Done,
        ObjWork::Read { .. } => GuestRsp::Piece(bytes),
        ObjWork::ReadAll { .. } => GuestRsp::Piece(bytes),
    }
}

/// What it is told of its entry.
pub(crate) fn decision_reply(decision: Decision) -> GuestRsp
    ensures { result ≡ decision_reply decision }
{
    match decision {
        Decision::None => GuestRsp::Done,
        Decision::Granted { vid } => GuestRsp::Granted { vid },
        Decision::Refused(cause) => GuestRsp::Refused(cause),
    }
}

impl StepState {
    /// A driver's act: a work is come to, or the request ends.
    pub fn driver_act(&mut self, number: u32, req: u32, act: DriverAct) -> Result<(), NoMemory>
        requires may { MayComeToWork req self.old.node }
        requires work { BeginsWork act }
        ensures { OnOk result (self.new ≡ driver_acted number req act self.old) }
    {
        match act {
            DriverAct::Work(work) => self.ask_work(number, req, work),
            DriverAct::Reply(reply) => self.end_request(number, req, reply),
        }
    }

    /// A read or write has taken a step on the disk that its session has open.
    pub fn step_driver(
        &mut self,
        number: u32,
        req: u32,
        disk: Disk,
        driver: Driver,
        act: DriverAct,
    ) -> Result<(), NoMemory>
        requires may { MayComeToWork req self.old.node }
        requires work { BeginsWork act }
        ensures { OnOk result (self.new
            ≡ driver_acted number req act (with_course number req (Driving driver) (with_disk number (Some disk) self.old))) }
    {
        self.set_disk(number, Some(disk))?;
        self.set_course(number, req, Course::Driving(driver))?;
        self.driver_act(number, req, act)
    }

    /// A command has its reply: with it another disk may be open, and the request ends.
    fn reply_to_command(
        &mut self,
        number: u32,
        req: u32,
        op: VdiOp,
        reply: GuestRsp,
    ) -> Result<(), NoMemory>
        requires { tree.get self.old.node.gateway.works req ≡ None }
        ensures { OnOk result (self.new ≡ command_stepped number req (record { op = op; act = Reply reply }) self.old) }
    {
        let mut session = self.take_session(number);
        session.open_by(op);
        self.put_session(number, session)?;
        self.end_request(number, req, reply)
    }

    /// A command has taken a step: its entry stands in the outbox, a work is come to, or the request ends, and with its reply another disk
    /// may be open.
    pub fn step_command(
        &mut self,
        number: u32,
        req: u32,
        op: VdiOp,
        act: OpAct,
    ) -> Result<(), NoMemory>
        requires may { MayComeToWork req self.old.node }
        requires work { CommandBeginsWork act }
        requires awaited { IsAwaitedAtOpStage act op.stage }
        ensures { OnOk result (self.new ≡ command_stepped number req (record { op = op; act = act }) self.old) }
    {
        match act {
            OpAct::Append(entry) => {
                self.set_sole_request(number, req, Course::Commanding(op))?;
                self.put_later(entry)
            }
            OpAct::Work(work) => {
                self.set_sole_request(number, req, Course::Commanding(op))?;
                self.ask_work(number, req, work)
            }
            OpAct::Reply(reply) => self.reply_to_command(number, req, op, reply),
        }
    }

    /// A check's act: a work is come to, or the request ends with what was found.
    fn check_act(&mut self, number: u32, req: u32, act: CheckAct) -> Result<(), NoMemory>
        requires may { MayComeToWork req self.old.node }
        requires work { CheckBeginsWork act }
        ensures { OnOk result (self.new ≡ check_acted number req act self.old) }
    {
        match act {
            CheckAct::Work(work) => self.ask_work(number, req, work),
            CheckAct::Reply(found) => self.end_request(number, req, GuestRsp::Checked(found)),
        }
    }

    /// A check has taken a step.
    pub fn step_check(
        &mut self,
        number: u32,
        req: u32,
        check: CheckOp,
        act: CheckAct,
    ) -> Result<(), NoMemory>
        requires may { MayComeToWork req self.old.node }
        requires work { CheckBeginsWork act }
        ensures { OnOk result (self.new ≡ check_acted number req act (with_sole_request number req (Checking check) self.old)) }
    {
        self.set_sole_request(number, req, Course::Checking(check))?;
        self.check_act(number, req, act)
    }

    /// A read or write goes on, on the disk that its session has open.
    fn drive_on(&mut self, number: u32, mut driver: Driver, done: &WorkDone) -> Result<(), NoMemory>
        requires may { MayComeToWork done.now.req self.old.node }
        requires goes_on { MayGoOn (inode_open (session_in number self.old).disk) (Driving driver) done.now.bytes }
        ensures { OnOk result (self.new ≡ course_went_on number done.now.req done.now.bytes (Driving driver)
            (with_course number done.now.req (Driving driver) self.old)) }
    {
        let alloc = self.node.alloc;
        let mut session = self.take_session(number);
        let Some(disk) = &mut session.disk else {
            return Ok(());
        };
        let act = driver.on_done(alloc, disk, done)?;
        self.put_session(number, session)?;
        self.set_course(number, done.req, Course::Driving(driver))?;
        self.driver_act(number, done.req, act)
    }

    /// A command goes on.
    fn command_on(&mut self, number: u32, mut op: VdiOp, done: &WorkDone) -> Result<(), NoMemory>
        requires may { MayComeToWork done.now.req self.old.node }
        requires goes_on { op_bytes_wanted op ≡ Some (length done.now.bytes) }
        ensures { OnOk result (self.new ≡ course_went_on number done.now.req done.now.bytes (Commanding op)
            (with_course number done.now.req (Commanding op) self.old)) }
    {
        let act = op.on_done(self.node.alloc, done)?;
        self.step_command(number, done.req, op, act)
    }

    /// A check goes on.
    fn check_on(&mut self, number: u32, mut check: CheckOp, done: &WorkDone) -> Result<(), NoMemory>
        requires may { MayComeToWork done.now.req self.old.node }
        requires goes_on { IsCheck check → check_bytes_wanted check ≡ Some (length done.now.bytes) }
        ensures { OnOk result (self.new ≡ course_went_on number done.now.req done.now.bytes (Checking check)
            (with_course number done.now.req (Checking check) self.old)) }
    {
        let act = check.on_done(self.node.alloc, done)?;
        self.step_check(number, done.req, check, act)
    }

    /// A request's work is done, and the request, which was taken out, goes on with the bytes that it gave.
    pub fn go_on(&mut self, number: u32, course: Course, done: WorkDone) -> Result<(), NoMemory>
        requires may { MayComeToWork done.req self.old.node }
        requires goes_on { MayGoOn (inode_open (session_in number self.old).disk) course done.bytes }
        ensures { OnOk result (self.new
            ≡ course_went_on number done.req done.bytes course (with_course number done.req course self.old)) }
    {
        match course {
            Course::Waiting(ask) => self.set_course(number, done.req, Course::Waiting(ask)),
            Course::Driving(driver) => self.drive_on(number, driver, &done),
            Course::Commanding(op) => self.command_on(number, op, &done),
            Course::Checking(check) => self.check_on(number, check, &done),
            Course::DoingWork(work) => {
                self.end_request(number, done.req, work_reply(&work, done.bytes))
            }
            Course::AwaitingDecision(entry) => {
                self.set_course(number, done.req, Course::AwaitingDecision(entry))
            }
        }
    }

    /// The inode of what a session has open.
    pub fn inode(&self, number: u32) -> Option<&Inode>
        ensures { option_copied result ≡ inode_open (session_in number self.now).disk }
    {
        match self.disk(number) {
            Some(disk) => Some(disk.inode()),
            None => None,
        }
    }

    /// What a command comes to by the decision on its entry, which the directory has read. In a cluster a command that waits for an entry
    /// always has such a step: a session holds the disk that it has open, so a snapshot that it is granted has that disk's spec. A log that
    /// grants another one ends the node as want of memory does.
    fn command_act(
        &self,
        number: u32,
        op: &mut VdiOp,
        decision: &Decision,
    ) -> Result<OpAct, NoMemory>
        ensures step { IfOk result (λ act. on_decision (effects_of self.now.node.peer)
            (inode_open (session_in number self.now).disk) decision.now op.old ≡ Some (record { op = op.new; act = act })) }
        ensures work { IfOk result CommandBeginsWork }
    {
        let directory = self.node.rows.peer.directory();
        let disk = self.inode(number);
        if !op.has_step(decision, directory, disk) {
            return Err(NoMemory);
        }
        op.on_decision(self.node.alloc, decision, directory, disk)
    }

    /// A command goes on by the decision on its entry.
    fn command_decided(
        &mut self,
        number: u32,
        req: u32,
        mut op: VdiOp,
        decision: &Decision,
    ) -> Result<(), NoMemory>
        requires { MayComeToWork req self.old.node }
        ensures { OnOk result (self.new
            ≡ course_decided number req decision.now (Commanding op) (with_course number req (Commanding op) self.old)) }
    {
        let act = self.command_act(number, &mut op, decision)?;
        self.step_command(number, req, op, act)
    }

    /// The entry that a request waits for was decided, and the request, which was taken out, goes on.
    pub fn decide(
        &mut self,
        number: u32,
        req: u32,
        course: Course,
        decision: Decision,
    ) -> Result<(), NoMemory>
        requires { MayComeToWork req self.old.node }
        ensures { OnOk result (self.new ≡ course_decided number req decision course (with_course number req course self.old)) }
    {
        match course {
            Course::Waiting(ask) => self.set_course(number, req, Course::Waiting(ask)),
            Course::Driving(driver) => self.set_course(number, req, Course::Driving(driver)),
            Course::Commanding(op) => self.command_decided(number, req, op, &decision),
            Course::Checking(check) => self.set_course(number, req, Course::Checking(check)),
            Course::DoingWork(work) => self.set_course(number, req, Course::DoingWork(work)),
            Course::AwaitingDecision(_) => {
                self.end_request(number, req, decision_reply(decision))
            }
        }
    }
}
