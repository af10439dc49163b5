ghost use Rattle.std.specs.Prelude.{◌≡◌, ℕ, ◌&&◌, false, Some, IfOk, IfSome, IsOk, OnErr, IsTrue, not};
ghost use Rattle.std.specs.Option.{option_map};
ghost use Rattle.peer_proto.specs.Work.{IsWork};
ghost use Rattle.gateway.specs.Work.{is_making as makes_something};
ghost use Rattle.gateway.specs.Attempt.{is_unanswered, is_success, may_be_made, status_by};
ghost use Rattle.gateway.specs.State.{initial_gateway, asker, has_work, gateway_awaits, fits_work, fits_gateway, can_retry};
ghost use Rattle.gateway.specs.State.{Work as TheWork, MaySend, MayStart};
ghost use Rattle.gateway.specs.Messages.{IsPieceFor};
ghost use Rattle.gateway.specs.Kept.{next_req, may_be_done_by};
ghost use Rattle.gateway.specs.Outcomes.{RefusesWork, HasNoPiece, GivesItsBytes, work_done_in, IsWorkDone};
ghost use Rattle.gateway.specs.Step.{start_step, retry_step, message_ended, gateway_on_reply, gateway_on_loss, without_touch};

use crate::act::Act;
use crate::askers::Askers;
use crate::asking::{is_making, is_piece};
use crate::beginning::{Beginning, begin_attempt};
use crate::message::Status;
use crate::open_work::OpenWork;
use crate::stage::Stage;
use crate::touched::Touched;
use crate::works::Works;
use object_id::{Bytes, Epoch, NoMemory, NodeId};
use peer_proto::{ObjWork, PeerRsp, PeerSay, WorkDone};
use std::alloc::Global;
use std::marker::Model;
use vnode_table::Placement;

/// The works of a node's requests on single objects, and which requests are touched.
pub struct Gateway {
    pub(crate) alloc: Global,
    pub(crate) me: NodeId,
    pub(crate) tries: u32,
    pub(crate) works: Works,
    pub(crate) touched: Touched,
    /// Of which request each unanswered message is. It may have numbers of messages that were never sent, since memory was wanted.
    pub(crate) askers: Askers,
}

/// Written out, so that letting one go is one call wherever it is done, and no cases there.
impl Drop for Gateway {
    fn drop(self) {
        let Gateway {
            alloc: _,
            me: _,
            tries: _,
            works,
            touched,
            askers,
        } = self;
        drop(works);
        drop(touched);
        drop(askers);
    }
}

impl Model for Gateway {
    ghost use Rattle.std.specs.Coded.{codes, coded_ℕ};
    ghost use Rattle.std.specs.FinMap as tree;
    ghost use Rattle.std.specs.FinSet as set;
    ghost use Rattle.std.specs.Ordering.{nat_cmp};
    ghost use Rattle.gateway.specs.State.{Work, Gateway as TheGateway};
    ghost use Rattle.gateway.specs.Kept.{AreAskers};

    ghost Value = { TheGateway };

    ghost coded = { Prim.hlevel (codes, tree.code {X = Work} {R = nat_cmp} coded_ℕ (Prim.hlevel codes), set.code {R = nat_cmp} coded_ℕ) };

    ghost view = { λ gateway. record {
      me = gateway.me;
      tries = gateway.tries;
      works = gateway.works;
      touched = gateway.touched;
    } };

    ghost invariant = { λ gateway. AreAskers gateway.askers gateway.works };
}

/// Whether a node may say this to a message of a work.
fn fits_work(work: &ObjWork, say: &PeerSay) -> bool
    requires { IsWork work.now }
    ensures { result ≡ fits_work work.now say.now }
{
    match say {
        PeerSay::Success => is_making(work),
        PeerSay::Piece(bytes) => is_piece(work, bytes.len()),
        PeerSay::Objects(_) => false,
        PeerSay::Row(_) => false,
        PeerSay::NoRow => false,
        PeerSay::Refused(_) => true,
    }
}

/// What a reply says of its message. Takes the bytes of a piece.
fn status_by(alloc: Global, say: &PeerSay) -> Result<Status, NoMemory>
    ensures ok { IfOk result (λ status. status ≡ status_by say.now) }
    ensures memory { HasNoPiece say.now → IsOk result }
{
    Ok(match say {
        PeerSay::Success => Status::Succeeded(Bytes::new(alloc)),
        PeerSay::Piece(bytes) => Status::Succeeded(bytes.copy(alloc)?),
        PeerSay::Objects(_) => Status::Unanswered,
        PeerSay::Row(_) => Status::Unanswered,
        PeerSay::NoRow => Status::Unanswered,
        PeerSay::Refused(refusal) => Status::Refused(*refusal),
    })
}

/// Whether a message succeeded of which a reply says this.
fn is_success(say: &PeerSay) -> bool
    ensures { result ≡ is_success (status_by say.now) }
{
    match say {
        PeerSay::Success => true,
        PeerSay::Piece(_) => true,
        PeerSay::Objects(_) => false,
        PeerSay::Row(_) => false,
        PeerSay::NoRow => false,
        PeerSay::Refused(_) => false,
    }
}

/// Whether a message that came to this touches its request.
fn touches(work: &ObjWork, status: &Status) -> bool
    ensures { result ≡ (makes_something work.now && may_be_made status.now) }
{
    if is_making(work) {
        status.may_be_made()
    } else {
        false
    }
}

impl Gateway {
    /// A gateway without works, where no request is touched. Takes no memory, and costs nothing.
    pub fn new(alloc: Global, me: NodeId, tries: u32) -> Gateway
        ensures { result ≡ initial_gateway me tries }
    {
        Gateway {
            alloc,
            me,
            tries,
            works: Works::new(alloc),
            touched: Touched::new(alloc),
            askers: Askers::new(alloc),
        }
    }

    /// The request, with its work, that an unanswered message belongs to. Costs two look-ups.
    fn asked(&self, number: u32) -> Option<(u32, &OpenWork)>
        ensures { option_map (λ found. (found.0, found.1.now)) result ≡ asker number self.now }
    {
        let Some(req) = self.askers.request(number) else {
            return None;
        };
        let Some(work) = self.works.get(req) else {
            return None;
        };
        if work.waits_for(number) {
            Some((req, work))
        } else {
            None
        }
    }

    /// Whether the message of a number was sent from here and is unanswered. Takes no memory. Costs two look-ups.
    pub fn waits_for(&self, number: u32) -> bool
        ensures { result ≡ gateway_awaits number self.now }
    {
        self.asked(number).is_some()
    }

    /// Whether a reply answers an unanswered message that was sent from here, and fits what that asked. Takes no memory. Costs two
    /// look-ups.
    pub fn fits(&self, rsp: &PeerRsp) -> bool
        ensures { result ≡ fits_gateway rsp.now self.now }
    {
        match self.asked(rsp.number) {
            Some((_, work)) => fits_work(work.work(), &rsp.say),
            None => false,
        }
    }

    /// The request that an unanswered message belongs to. Takes no memory. Costs two look-ups.
    pub fn asker(&self, number: u32) -> Option<u32>
        ensures { result ≡ option_map (λ (found : ℕ × TheWork). found.0) (asker number self.now) }
    {
        match self.asked(number) {
            Some((req, _)) => Some(req),
            None => None,
        }
    }

    /// Whether the work that an unanswered message belongs to may be done where that succeeds or doesn't; else it isn't.
    fn may_be_done(&self, number: u32, success: bool) -> bool
        ensures { result ≡ may_be_done_by number success (asker number self.now) }
    {
        match self.asked(number) {
            Some((_, work)) => work.may_be_done(number, success),
            None => false,
        }
    }

    /// The work that a reply does, with what it gives: what [`Gateway::on_reply`] would tell as done; `None` if that would tell nothing or
    /// something else. The gateway stays as it is. Costs four look-ups, and looks at each message of the attempt. It takes memory only
    /// where no other message is unanswered, and of a create, a write and a read of all parts only where each has succeeded: a copy of the
    /// messages, with the pieces that they gave, and the bytes given.
    pub fn work_done_by(&self, rsp: &PeerRsp) -> Result<Option<WorkDone>, NoMemory>
        requires { IsTrue (fits_gateway rsp.now self.now) }
        ensures done { IfOk result (λ done. done ≡ work_done_in (gateway_on_reply self.now rsp.now).act) }
        ensures given { IfOk result (λ done. IfSome done (IsWorkDone self.now)) }
        ensures memory { may_be_done_by rsp.now.number (is_success (status_by rsp.now.say)) (asker rsp.now.number self.now) ≡ false
            → IsOk result }
    {
        if !self.may_be_done(rsp.number, is_success(&rsp.say)) {
            return Ok(None);
        }
        let status = status_by(self.alloc, &rsp.say)?;
        self.work_done_with(rsp.number, status)
    }

    /// The work that is done by what a message came to, if one is.
    fn work_done_with(&self, number: u32, status: Status) -> Result<Option<WorkDone>, NoMemory>
        requires { IfSome (asker number self.now) (λ found. IsPieceFor found.1.work status) }
        ensures done { IfOk result (λ done. done ≡ work_done_in (message_ended self.now number status).act) }
        ensures given { IfOk result (λ done. IfSome done (IsWorkDone self.now)) }
    {
        let Some((req, work)) = self.asked(number) else {
            return Ok(None);
        };
        match work.bytes_if_done(self.alloc, number, status)? {
            Some(bytes) => Ok(Some(WorkDone { req, bytes })),
            None => Ok(None),
        }
    }

    /// How many attempts of an untouched request may fail before it is refused. Costs nothing.
    pub fn tries(&self) -> u32
        ensures { result ≡ self.now.tries }
    {
        self.tries
    }

    /// Whether a work may be tried again in an epoch. Takes no memory. Looks at each work up to the first of these.
    pub fn can_retry(&self, epoch: Epoch) -> bool
        ensures { result ≡ can_retry epoch self.now }
    {
        self.works.next_try(epoch).is_some()
    }

    /// Begins a request's work on an object with its first attempt, whose messages are numbered upwards from `first`. Costs a look-up
    /// of the object's targets and takes the messages, with the bytes that they send. Without memory, and where the request is
    /// refused, nothing changes; a refusal takes no memory.
    pub fn start(
        &mut self,
        req: u32,
        work: ObjWork,
        first: u32,
        epoch: Epoch,
        place: &Placement,
    ) -> Result<Act, NoMemory>
        requires may_send { MaySend self.old place.now first epoch }
        requires may_start { MayStart self.old req work }
        ensures ok { IfOk result (λ act. start_step place.now self.old req work first epoch ≡ record { gateway = self.new; act = act }) }
        ensures refused { IfOk result (λ act. RefusesWork act → self.new ≡ self.old) }
        ensures memory { RefusesWork (start_step place.now self.old req work first epoch).act → IsOk result }
        ensures err { OnErr result (self.new ≡ self.old) }
    {
        let touched = self.touched.has(req);
        let beginning = begin_attempt(self.alloc, self.me, &work, 0, touched, first, epoch, place)?;
        match beginning {
            Beginning::Sends { messages, sends } => {
                self.askers.put_all(messages.as_slice(), req)?;
                let stage = Stage::Open { epoch, messages };
                self.works.put(req, OpenWork::new(work, stage))?;
                Ok(Act::Send(sends))
            }
            Beginning::Waits => {
                let stage = Stage::WaitsForMembers(epoch);
                self.works.put(req, OpenWork::new(work, stage))?;
                Ok(Act::Wait)
            }
            Beginning::Refused(cause) => Ok(Act::Refused { work, req, cause }),
        }
    }

    /// Tries the work again that may be tried in the epoch, of the smallest request. Looks at each work up to that one, and costs
    /// and takes what [`Gateway::start`] does; where its request is refused it takes no memory. Without memory nothing changes.
    pub fn retry(&mut self, first: u32, epoch: Epoch, place: &Placement) -> Result<Act, NoMemory>
        requires may_send { MaySend self.old place.now first epoch }
        ensures ok { IfOk result (λ act. retry_step place.now self.old first epoch ≡ record { gateway = self.new; act = act }) }
        ensures memory { RefusesWork (retry_step place.now self.old first epoch).act → IsOk result }
        ensures err { OnErr result (self.new ≡ self.old) }
    {
        match self.works.next_try(epoch) {
            Some(req) => self.retry_of(req, first, epoch, place),
            None => Ok(Act::Wait),
        }
    }

    /// Begins the next attempt of a request's work.
    fn retry_of(
        &mut self,
        req: u32,
        first: u32,
        epoch: Epoch,
        place: &Placement,
    ) -> Result<Act, NoMemory>
        requires may_send { MaySend self.old place.now first epoch }
        requires next { next_req epoch self.old.works ≡ Some req }
        ensures ok { IfOk result (λ act. retry_step place.now self.old first epoch ≡ record { gateway = self.new; act = act }) }
        ensures memory { RefusesWork (retry_step place.now self.old first epoch).act → IsOk result }
        ensures err { OnErr result (self.new ≡ self.old) }
    {
        let Some(work) = self.works.get(req) else {
            return Ok(Act::Wait);
        };
        let count = work.ended();
        let touched = self.touched.has(req);
        let beginning = begin_attempt(
            self.alloc,
            self.me,
            work.work(),
            count,
            touched,
            first,
            epoch,
            place,
        )?;
        match beginning {
            Beginning::Sends { messages, sends } => {
                // An attempt that no count has room for is answered as out of memory.
                if count == u64::MAX {
                    return Err(NoMemory);
                }
                self.askers.put_all(messages.as_slice(), req)?;
                self.works.set_stage(req, Stage::Open { epoch, messages });
                Ok(Act::Send(sends))
            }
            Beginning::Waits => {
                self.works.set_stage(req, Stage::WaitsForMembers(epoch));
                Ok(Act::Wait)
            }
            Beginning::Refused(cause) => Ok(self.works.refuse(req, cause)),
        }
    }

    /// A reply to a message came. Costs two look-ups, and looks at each message of the attempt. It takes the bytes of a piece, for the
    /// end of a read also the read's bytes, and the touch of a request: where the request is refused, the bytes of a piece alone. Without
    /// memory nothing changes.
    pub fn on_reply(&mut self, rsp: &PeerRsp) -> Result<Act, NoMemory>
        requires { IsTrue (fits_gateway rsp.now self.old) }
        ensures ok { IfOk result (λ act. gateway_on_reply self.old rsp.now ≡ record { gateway = self.new; act = act }) }
        ensures given { IfOk result GivesItsBytes }
        ensures memory { HasNoPiece rsp.now.say → RefusesWork (gateway_on_reply self.old rsp.now).act → IsOk result }
        ensures err { OnErr result (self.new ≡ self.old) }
    {
        let status = status_by(self.alloc, &rsp.say)?;
        self.message_ended(rsp.number, status)
    }

    /// A message, or the reply to it, was lost. Costs and takes what [`Gateway::on_reply`] does, without the piece: so it takes nothing
    /// where the request is refused. Without memory nothing changes.
    pub fn on_lost(&mut self, number: u32) -> Result<Act, NoMemory>
        requires { IsTrue (gateway_awaits number self.old) }
        ensures ok { IfOk result (λ act. gateway_on_loss self.old number ≡ record { gateway = self.new; act = act }) }
        ensures given { IfOk result GivesItsBytes }
        ensures memory { RefusesWork (gateway_on_loss self.old number).act → IsOk result }
        ensures err { OnErr result (self.new ≡ self.old) }
    {
        self.message_ended(number, Status::Lost)
    }

    /// What a message came to is known.
    fn message_ended(&mut self, number: u32, status: Status) -> Result<Act, NoMemory>
        requires known { is_unanswered status ≡ false }
        requires piece { IfSome (asker number self.old) (λ found. IsPieceFor found.1.work status) }
        ensures ok { IfOk result (λ act. message_ended self.old number status ≡ record { gateway = self.new; act = act }) }
        ensures given { IfOk result GivesItsBytes }
        ensures memory { RefusesWork (message_ended self.old number status).act → IsOk result }
        ensures err { OnErr result (self.new ≡ self.old) }
    {
        let Some((req, work)) = self.asked(number) else {
            return Ok(Act::Wait);
        };
        let made = touches(work.work(), &status);
        self.touched.touch(req, made)?;
        let touched = self.touched.has(req);
        let act = self
            .works
            .end_and_tell(self.alloc, req, number, status, self.tries, touched)?;
        self.askers.remove(number);
        Ok(act)
    }

    /// A request was answered: one that gets its number later is untouched. Takes no memory. Costs the logarithm of the touched
    /// requests.
    pub fn end(&mut self, req: u32)
        requires { IsTrue (not (has_work req self.old)) }
        ensures { self.new ≡ without_touch req self.old }
    {
        self.touched.forget(req);
    }
}
