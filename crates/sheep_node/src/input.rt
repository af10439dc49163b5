ghost use Rattle.std.specs.Prelude.{◌≡◌, IfOk, OnOk};
ghost use Rattle.sheep_node.specs.StepState.{at_first};
ghost use Rattle.sheep_node.specs.May.{May};
ghost use Rattle.sheep_node.specs.NodeInvariant.{IsSoundNode};
ghost use Rattle.sheep_node.specs.Step.{on_input};

use crate::ask::Ask;
use crate::step_state::StepState;
use epoch_log::EntryList;
use object_id::{Entry, NoMemory};
use peer_proto::{PeerReq, PeerRsp};
use std::alloc::Global;

/// What a node steps on. Each step is one of these, taken whole.
#[derive(Debug)]
pub enum Input {
    /// A session's request, by its number.
    Guest { req: u32, session: u32, ask: Ask },
    /// Another node's request, or the node's own to itself.
    Request(PeerReq),
    Reply(PeerRsp),
    /// The message of this number, or the reply to it, was lost.
    Lost { number: u32 },
    /// The next entry of the log.
    LogEntry(Entry),
    /// The first entry of the outbox goes into the log.
    Put,
    RecoverTick,
    RetryTick,
    /// A lost node comes back with its store. These are all entries of the log.
    Back { entries: EntryList },
}

/// Written out, so that letting an input go is one call wherever it is done, and no case for each kind of input there.
impl Drop for Input {
    fn drop(self) {
        match self {
            Input::Guest {
                req: _,
                session: _,
                ask: _,
            } => {}
            Input::Request(_) => {}
            Input::Reply(_) => {}
            Input::Lost { number: _ } => {}
            Input::LogEntry(_) => {}
            Input::Put => {}
            Input::RecoverTick => {}
            Input::RetryTick => {}
            Input::Back { entries: _ } => {}
        }
    }
}

impl Input {
    pub fn copy(&self, alloc: Global) -> Result<Self, NoMemory>
        ensures { IfOk result (λ copy. copy ≡ self.now) }
    {
        Ok(match self {
            Input::Guest { req, session, ask } => Input::Guest {
                req: *req,
                session: *session,
                ask: ask.copy(alloc)?,
            },
            Input::Request(request) => Input::Request(request.copy(alloc)?),
            Input::Reply(reply) => Input::Reply(reply.copy(alloc)?),
            Input::Lost { number } => Input::Lost { number: *number },
            Input::LogEntry(entry) => Input::LogEntry(entry.copy(alloc)?),
            Input::Put => Input::Put,
            Input::RecoverTick => Input::RecoverTick,
            Input::RetryTick => Input::RetryTick,
            Input::Back { entries } => Input::Back {
                entries: entries.copy(alloc)?,
            },
        })
    }

    /// What the input does to a node in its step.
    #[tactic(auto, unfolding(crate::specs::Step::on_input))]
    pub(crate) fn act_on(self, state: &mut StepState) -> Result<(), NoMemory>
        requires start { state.old ≡ at_first state.old.node }
        requires may { May self state.old.node }
        requires sound { IsSoundNode state.old.node }
        ensures { OnOk result (state.new ≡ on_input self state.old) }
    {
        match self {
            Input::Guest { req, session, ask } => state.on_guest(req, session, ask),
            Input::Request(request) => state.on_request(&request),
            Input::Reply(rsp) => state.on_reply(&rsp),
            Input::Lost { number } => state.on_loss(number),
            Input::LogEntry(entry) => state.on_log_entry(&entry),
            Input::Put => {
                state.on_put();
                Ok(())
            }
            Input::RecoverTick => state.on_recover_tick(),
            Input::RetryTick => state.on_retry_tick(),
            Input::Back { entries } => state.on_back(entries.as_slice()),
        }
    }
}
