ghost use Rattle.std.specs.Prelude.{◌≡◌, true, false, IfOk, IfSome, IsOk, OnOk, OnErr};
ghost use Rattle.std.specs.Option.{option_copied};
ghost use Rattle.std.specs.FinMap as tree;
ghost use Rattle.gateway.specs.declared.act.Act.TheVariants.{Refused};
ghost use Rattle.gateway.specs.Work.{is_making};
ghost use Rattle.gateway.specs.Attempt.{is_unanswered};
ghost use Rattle.gateway.specs.State.{is_awaited_in};
ghost use Rattle.gateway.specs.Messages.{IsPieceFor};
ghost use Rattle.gateway.specs.Stage.{work_stage, IsStageFor};
ghost use Rattle.gateway.specs.Kept.{work_with_status, work_by, works_left, outcome_at, act_by, next_req, IsUndone, MessageEnds};

use crate::act::Act;
use crate::message::Status;
use crate::open_work::OpenWork;
use crate::outcome::Outcome;
use crate::stage::Stage;
use object_id::{Cause, Epoch, NoMemory};
use peer_proto::WorkDone;
use std::alloc::Global;
use std::collections::BTreeMap;
use std::marker::Model;

/// The works that aren't done, by the numbers of their requests. Contracts see the finite map.
pub(crate) struct Works {
    by_request: BTreeMap<u32, OpenWork>,
}

/// Written out, so that letting one go is one call wherever it is done, and no cases there.
impl Drop for Works {
    fn drop(self) {
        let Works { by_request } = self;
        drop(by_request);
    }
}

impl Model for Works {
    ghost use Rattle.std.specs.Coded.{codes, coded_ℕ};
    ghost use Rattle.std.specs.FinMap as tree;
    ghost use Rattle.std.specs.Ordering.{nat_cmp};
    ghost use Rattle.gateway.specs.State.{Work};

    ghost Value = { tree.FinMap nat_cmp Work };

    ghost coded = { tree.code coded_ℕ (Prim.hlevel codes) };

    ghost view = { λ works. tree.from_entries works.by_request.entries };
}

impl Works {
    pub fn new(alloc: Global) -> Works
        ensures { result ≡ tree.empty }
    {
        Works {
            by_request: BTreeMap::new(alloc),
        }
    }

    pub fn get(&self, req: u32) -> Option<&OpenWork>
        ensures { option_copied result ≡ tree.get self.now req }
    {
        self.by_request.get(&req)
    }

    pub fn put(&mut self, req: u32, work: OpenWork) -> Result<(), NoMemory>
        ensures ok { OnOk result (self.new ≡ tree.insert self.old req work) }
        ensures err { OnErr result (self.new ≡ self.old) }
    {
        self.by_request.insert(req, work)?;
        Ok(())
    }

    pub fn remove(&mut self, req: u32) -> Option<OpenWork>
        ensures value { result ≡ tree.get self.old req }
        ensures gone { self.new ≡ tree.remove self.old req }
    {
        self.by_request.remove(&req)
    }

    /// The smallest request whose work may be tried in an epoch. Looks at each work up to that one.
    pub fn next_try(&self, epoch: Epoch) -> Option<u32>
        ensures { result ≡ next_req epoch self.now }
    {
        for (req, work) in self.by_request.iter() {
            if work.may_try(epoch) {
                return Some(*req);
            }
        }
        None
    }

    /// A work stands differently.
    pub fn set_stage(&mut self, req: u32, stage: Stage)
        requires { IfSome (tree.get self.old req) (λ work. IsStageFor work.work work.ended (work_stage stage)) }
        ensures { IfSome (tree.get self.old req) (λ work. self.new ≡ tree.insert self.old req (record work { stage = work_stage stage })) }
    {
        let Some(work) = self.by_request.get_mut(&req) else {
            return;
        };
        work.set_stage(stage);
    }

    /// What a message of a request's work came to is known.
    fn end_message(
        &mut self,
        alloc: Global,
        req: u32,
        number: u32,
        status: Status,
        tries: u32,
        touched: bool,
    ) -> Result<Outcome, NoMemory>
        requires awaited { IfSome (tree.get self.old req) (λ work. is_awaited_in number work ≡ true) }
        requires known { is_unanswered status ≡ false }
        requires piece { IfSome (tree.get self.old req) (λ work. IsPieceFor work.work status) }
        ensures outcome { IfOk result (λ outcome. IfSome (tree.get self.old req) (λ work. outcome
            ≡ outcome_at tries touched work (work_with_status number status work).stage)) }
        ensures ok { IfOk result (λ outcome. IfSome (tree.get self.old req) (λ work. self.new
            ≡ tree.insert self.old req (work_by outcome (work_with_status number status work)))) }
        ensures err { OnErr result (self.new ≡ self.old) }
        ensures memory { IfSome (tree.get self.old req) (λ work. is_making work.work ≡ true → IsOk result) }
        ensures undone { IfSome (tree.get self.old req) (λ work.
            IsUndone (outcome_at tries touched work (work_with_status number status work).stage) → IsOk result) }
    {
        let Some(work) = self.by_request.get_mut(&req) else {
            return Ok(Outcome::Awaited);
        };
        work.end_message(alloc, number, status, tries, touched)
    }

    /// What is told of a request when this is what an attempt of its work comes to; a work that is done or refused goes.
    fn tell(&mut self, req: u32, outcome: Outcome) -> Act
        ensures works { IfSome (tree.get self.old req) (λ work. self.new ≡ works_left req outcome self.old) }
        ensures act { IfSome (tree.get self.old req) (λ work. result ≡ act_by req work.work outcome) }
    {
        match outcome {
            Outcome::Awaited => Act::Wait,
            Outcome::Failed => Act::Wait,
            Outcome::Done(bytes) => match self.remove(req) {
                Some(work) => Act::Done {
                    work: work.into_work(),
                    done: WorkDone { req, bytes },
                },
                None => Act::Wait,
            },
            Outcome::Refused(cause) => self.refuse(req, cause),
        }
    }

    /// A request is refused, and its work goes.
    pub fn refuse(&mut self, req: u32, cause: Cause) -> Act
        ensures works { self.new ≡ tree.remove self.old req }
        ensures act { IfSome (tree.get self.old req) (λ work. result ≡ Refused work.work req cause) }
    {
        match self.remove(req) {
            Some(work) => Act::Refused {
                work: work.into_work(),
                req,
                cause,
            },
            None => Act::Wait,
        }
    }

    /// What a message of a request's work came to is known, and what follows. Costs the logarithm of the works, and looks at each
    /// message of the attempt. The end of a read takes its bytes; nothing else takes memory. Without memory all stays as it was.
    pub fn end_and_tell(
        &mut self,
        alloc: Global,
        req: u32,
        number: u32,
        status: Status,
        tries: u32,
        touched: bool,
    ) -> Result<Act, NoMemory>
        requires awaited { IfSome (tree.get self.old req) (λ work. is_awaited_in number work ≡ true) }
        requires known { is_unanswered status ≡ false }
        requires piece { IfSome (tree.get self.old req) (λ work. IsPieceFor work.work status) }
        ensures ok { IfOk result (λ act. IfSome (tree.get self.old req) (λ work.
            MessageEnds req number status tries touched work self.old self.new act)) }
        ensures err { OnErr result (self.new ≡ self.old) }
        ensures memory { IfSome (tree.get self.old req) (λ work. is_making work.work ≡ true → IsOk result) }
        ensures undone { IfSome (tree.get self.old req) (λ work.
            IsUndone (outcome_at tries touched work (work_with_status number status work).stage) → IsOk result) }
    {
        let outcome = self.end_message(alloc, req, number, status, tries, touched)?;
        Ok(self.tell(req, outcome))
    }
}
