ghost use Rattle.std.specs.Prelude.{◌≡◌, true, false, length, IfOk, IfSome, IsOk, OnErr};
ghost use Rattle.peer_proto.specs.Work.{IsWork};
ghost use Rattle.gateway.specs.Work.{is_making, bytes_of_work};
ghost use Rattle.gateway.specs.Attempt.{is_unanswered, messages_with_status};
ghost use Rattle.gateway.specs.State.{is_awaited_in, may_try};
ghost use Rattle.gateway.specs.Messages.{AreMessagesFor, IsPieceFor};
ghost use Rattle.gateway.specs.Stage.{work_stage, IsStageFor, IsOpenWork, IsOpenStage};
ghost use Rattle.gateway.specs.Kept.{stage_with_status, work_with_status, work_failed, work_by, outcome_with, outcome_at, failure_outcome, IsUndone};
ghost use Rattle.gateway.specs.Kept.{bytes_if_done, bytes_if_done_at, may_be_done_at};

use crate::given::bytes_given;
use crate::message::{Message, Status};
use crate::messages::{Messages, first_failure, is_done, is_over, may_be_done};
use crate::outcome::Outcome;
use crate::stage::{Stage, set_status};
use object_id::{Bytes, Cause, Epoch, NoMemory};
use peer_proto::ObjWork;
use std::alloc::Global;
use std::marker::Model;

/// A work that isn't done.
#[derive(Debug)]
pub(crate) struct OpenWork {
    work: ObjWork,
    /// How many of its attempts have ended.
    ended: u64,
    stage: Stage,
}

/// Written out, so that letting one go is one call wherever it is done, and no cases there.
impl Drop for OpenWork {
    fn drop(self) {
        let OpenWork {
            work,
            ended: _,
            stage,
        } = self;
        drop(work);
        drop(stage);
    }
}

impl Model for OpenWork {
    ghost use Rattle.gateway.specs.State.{Work};
    ghost use Rattle.gateway.specs.Stage.{work_stage, IsOpenWork};

    ghost Value = { Work };

    ghost view = { λ kept. record { work = kept.work; ended = kept.ended; stage = work_stage kept.stage } };

    ghost invariant = { λ kept. IsOpenWork (record { work = kept.work; ended = kept.ended; stage = work_stage kept.stage }) };
}

impl OpenWork {
    /// A work of which no attempt has ended.
    pub fn new(work: ObjWork, stage: Stage) -> OpenWork
        requires work { IsWork work }
        requires stage { IsStageFor work 0 (work_stage stage) }
        ensures { result ≡ record { work = work; ended = 0; stage = work_stage stage } }
    {
        OpenWork {
            work,
            ended: 0,
            stage,
        }
    }

    pub fn work(&self) -> &ObjWork
        ensures value { result.now ≡ self.now.work }
        ensures valid { IsWork self.now.work }
        ensures open { IsOpenWork self.now }
    {
        &self.work
    }

    pub fn ended(&self) -> u64
        ensures { result ≡ self.now.ended }
    {
        self.ended
    }

    pub fn into_work(self) -> ObjWork
        ensures { result ≡ self.work }
    {
        let OpenWork {
            work,
            ended: _,
            stage,
        } = self;
        drop(stage);
        work
    }

    /// Whether the message of a number is an unanswered one of the work.
    pub fn waits_for(&self, number: u32) -> bool
        ensures { result ≡ is_awaited_in number self.now }
    {
        match &self.stage {
            Stage::Open { messages, .. } => messages.waits_for(number),
            _ => false,
        }
    }

    /// Whether the work may be tried in an epoch.
    pub fn may_try(&self, epoch: Epoch) -> bool
        ensures { result ≡ may_try epoch self.now.stage }
    {
        match &self.stage {
            Stage::Open { .. } => false,
            Stage::Ended => true,
            Stage::WaitsForMembers(since) => since.0 < epoch.0,
        }
    }

    pub fn set_stage(&mut self, stage: Stage)
        requires { IsStageFor self.old.work self.old.ended (work_stage stage) }
        ensures { self.new ≡ record self.old { stage = work_stage stage } }
    {
        self.stage = stage;
    }

    /// What the message of a number came to is known.
    fn set_status(&mut self, number: u32, status: Status)
        requires { IsPieceFor self.old.work status }
        ensures { self.new ≡ work_with_status number status self.old }
    {
        set_status(&mut self.stage, number, status);
    }

    /// The last attempt has ended, and isn't done.
    fn fail(&mut self)
        requires { IsOpenStage self.old.stage }
        ensures { self.new ≡ work_failed self.old }
    {
        self.ended += 1;
        self.stage = Stage::Ended;
    }

    /// What the work's attempt comes to.
    fn outcome(&self, alloc: Global, tries: u32, touched: bool) -> Result<Outcome, NoMemory>
        ensures ok { IfOk result (λ outcome. outcome ≡ outcome_at tries touched self.now self.now.stage) }
        ensures memory { is_making self.now.work ≡ true → IsOk result }
        ensures undone { IsUndone (outcome_at tries touched self.now self.now.stage) → IsOk result }
    {
        match &self.stage {
            Stage::Open { epoch, messages } => {
                let refused = self.ended + 1 >= tries as u64 && !touched;
                outcome_of(alloc, &self.work, *epoch, messages.as_slice(), refused)
            }
            _ => Ok(Outcome::Awaited),
        }
    }

    /// What a message came to is known, and what follows from it for the work. Looks at each message of the attempt. The end of a
    /// read takes its bytes; nothing else takes memory. Without memory the work stays as it was.
    pub fn end_message(
        &mut self,
        alloc: Global,
        number: u32,
        status: Status,
        tries: u32,
        touched: bool,
    ) -> Result<Outcome, NoMemory>
        requires awaited { is_awaited_in number self.old ≡ true }
        requires known { is_unanswered status ≡ false }
        requires piece { IsPieceFor self.old.work status }
        ensures outcome { IfOk result (λ outcome. outcome
            ≡ outcome_at tries touched self.old (work_with_status number status self.old).stage) }
        ensures ok { IfOk result (λ outcome. self.new ≡ work_by outcome (work_with_status number status self.old)) }
        ensures err { OnErr result (self.new ≡ self.old) }
        ensures memory { is_making self.old.work ≡ true → IsOk result }
        ensures undone { IsUndone (outcome_at tries touched self.old (work_with_status number status self.old).stage) → IsOk result }
    {
        let _ = &self.work;
        self.set_status(number, status);
        match self.outcome(alloc, tries, touched) {
            Ok(outcome) => {
                if let Outcome::Failed = outcome {
                    self.fail();
                }
                Ok(outcome)
            }
            Err(NoMemory) => {
                self.set_status(number, Status::Unanswered);
                Err(NoMemory)
            }
        }
    }

    /// Whether the work may be done where the message of a number succeeds or doesn't; else it isn't.
    pub fn may_be_done(&self, number: u32, success: bool) -> bool
        ensures { result ≡ may_be_done_at number success self.now.work self.now.stage }
    {
        match &self.stage {
            Stage::Open { messages, .. } => {
                may_be_done(&self.work, number, success, messages.as_slice())
            }
            _ => false,
        }
    }

    /// The bytes that the work gives if it is done by what the message of a number came to. Takes a copy of the messages, with the pieces
    /// that they gave, and the bytes given.
    pub fn bytes_if_done(
        &self,
        alloc: Global,
        number: u32,
        status: Status,
    ) -> Result<Option<Bytes>, NoMemory>
        requires { IsPieceFor self.now.work status }
        ensures done { IfOk result (λ bytes. bytes ≡ bytes_if_done_at self.now.work (stage_with_status number status self.now.stage)) }
        ensures given { IfOk result (λ bytes. IfSome bytes (λ bytes. length bytes ≡ bytes_of_work self.now.work)) }
    {
        match &self.stage {
            Stage::Open { messages, .. } => bytes_with(alloc, &self.work, messages, number, status),
            _ => Ok(None),
        }
    }
}

/// The bytes that a work gives if these messages do it, once it is known what the one of a number came to.
fn bytes_with(
    alloc: Global,
    work: &ObjWork,
    messages: &Messages,
    number: u32,
    status: Status,
) -> Result<Option<Bytes>, NoMemory>
    requires work { IsWork work.now }
    requires messages { AreMessagesFor work.now messages.now }
    requires piece { IsPieceFor work.now status }
    ensures done { IfOk result (λ bytes. bytes ≡ bytes_if_done work.now (messages_with_status number status messages.now)) }
    ensures given { IfOk result (λ bytes. IfSome bytes (λ bytes. length bytes ≡ bytes_of_work work.now)) }
{
    let mut told = messages.copy(alloc)?;
    told.set_status(number, status);
    bytes_if_done(alloc, work, told.as_slice())
}

/// The bytes that a work gives if these messages do it.
fn bytes_if_done(
    alloc: Global,
    work: &ObjWork,
    messages: &[Message],
) -> Result<Option<Bytes>, NoMemory>
    requires work { IsWork work.now }
    requires messages { AreMessagesFor work.now messages.now }
    ensures done { IfOk result (λ bytes. bytes ≡ bytes_if_done work.now messages.now) }
    ensures given { IfOk result (λ bytes. IfSome bytes (λ bytes. length bytes ≡ bytes_of_work work.now)) }
{
    if is_over(messages) && is_done(work, messages) {
        Ok(Some(bytes_given(alloc, work, messages)?))
    } else {
        Ok(None)
    }
}

/// What an attempt of these messages comes to, where its request may be refused or not.
fn outcome_of(
    alloc: Global,
    work: &ObjWork,
    epoch: Epoch,
    messages: &[Message],
    may_refuse: bool,
) -> Result<Outcome, NoMemory>
    requires work { IsWork work.now }
    requires messages { AreMessagesFor work.now messages.now }
    ensures ok { IfOk result (λ outcome. outcome ≡ outcome_with work.now epoch messages.now may_refuse) }
    ensures memory { is_making work.now ≡ true → IsOk result }
    ensures undone { IsUndone (outcome_with work.now epoch messages.now may_refuse) → IsOk result }
{
    if !is_over(messages) {
        Ok(Outcome::Awaited)
    } else if is_done(work, messages) {
        Ok(Outcome::Done(bytes_given(alloc, work, messages)?))
    } else if may_refuse {
        Ok(failure_outcome(first_failure(work, epoch, messages)))
    } else {
        Ok(Outcome::Failed)
    }
}

/// What a failed attempt comes to: a refusal with a cause, if there is one.
fn failure_outcome(cause: Option<Cause>) -> Outcome
    ensures { result ≡ failure_outcome cause }
{
    match cause {
        Some(cause) => Outcome::Refused(cause),
        None => Outcome::Failed,
    }
}
