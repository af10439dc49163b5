//! The messages of an attempt: what is known of them, and what they come to.

ghost use Rattle.std.specs.Prelude.{◌≡◌, ◌==◌, ◌++◌, ◌∷◌, [], nat_le, length, IfOk, OnOk, OnErr};
ghost use Rattle.std.specs.List.{list_any, list_all, position};
ghost use Rattle.peer_proto.specs.Work.{IsWork};
ghost use Rattle.gateway.specs.declared.message.Message.{Message as TheMessage};
ghost use Rattle.gateway.specs.Attempt.{is_unanswered, is_success, is_awaited_message, cause_by, messages_with_status, successes, is_over, is_done, failure, first_failure};
ghost use Rattle.gateway.specs.Messages.{NumbersDiffer};
ghost use Rattle.gateway.specs.Kept.{succeeds_with, is_answered_with, may_be_done};

use crate::message::{Message, Status};
use object_id::{Cause, Epoch, NoMemory, NodeId};
use peer_proto::{ObjWork, Refusal};
use std::alloc::Global;
use std::marker::Model;

/// The messages of an attempt, in the order of its targets. Contracts see the list.
#[derive(Debug)]
pub(crate) struct Messages {
    items: Vec<Message>,
}

/// Written out, so that letting one go is one call wherever it is done, and no cases there.
impl Drop for Messages {
    fn drop(self) {
        let Messages { items } = self;
        drop(items);
    }
}

impl Model for Messages {
    ghost use Rattle.std.specs.Prelude.{List};
    ghost use Rattle.gateway.specs.declared.message.Message.{Message as TheMessage};

    ghost Value = { List TheMessage };

    ghost view = { λ m. m.items.items };
}

impl Messages {
    pub fn new(alloc: Global) -> Self
        ensures { result ≡ [] }
    {
        Messages {
            items: Vec::new(alloc),
        }
    }

    pub fn push(&mut self, message: Message) -> Result<(), NoMemory>
        ensures ok { OnOk result (self.new ≡ self.old ++ message ∷ []) }
        ensures err { OnErr result (self.new ≡ self.old) }
    {
        self.items.push(message)?;
        Ok(())
    }

    pub fn as_slice(&self) -> &[Message]
        ensures { result.now ≡ self.now }
    {
        self.items.as_slice()
    }

    pub fn copy(&self, alloc: Global) -> Result<Self, NoMemory>
        ensures { IfOk result (λ copy. copy ≡ self.now) }
    {
        Ok(Messages {
            items: copied(alloc, self.as_slice())?,
        })
    }

    /// Whether the message of a number is unanswered.
    pub fn waits_for(&self, number: u32) -> bool
        ensures { result ≡ list_any (is_awaited_message number) self.now }
    {
        waits_for(self.as_slice(), number)
    }

    /// What the message of a number came to is known.
    pub fn set_status(&mut self, number: u32, status: Status)
        requires { NumbersDiffer self.old }
        ensures { self.new ≡ messages_with_status number status self.old }
    {
        set_status(self.items.as_mut_slice(), number, status);
    }
}

fn copied(alloc: Global, messages: &[Message]) -> Result<Vec<Message>, NoMemory>
    ensures { IfOk result (λ copy. copy.items ≡ messages.now) }
{
    let mut copy = Vec::new(alloc);
    for message in messages {
        copy.push(message.copy(alloc)?)?;
    }
    Ok(copy)
}

fn waits_for(messages: &[Message], number: u32) -> bool
    ensures { result ≡ list_any (is_awaited_message number) messages.now }
{
    messages.iter().any(|message| message.is_awaited(number))
}

fn place_of(messages: &[Message], number: u32) -> Option<usize>
    ensures { result ≡ position (λ (message : TheMessage). message.number == number) messages.now }
{
    messages.iter().position(|message| message.number == number)
}

fn set_status(messages: &mut [Message], number: u32, status: Status)
    requires { NumbersDiffer messages.old }
    ensures { messages.new ≡ messages_with_status number status messages.old }
{
    if let Some(place) = place_of(messages, number) {
        messages[place].status = status;
    }
}

/// Whether none of the messages is unanswered.
pub(crate) fn is_over(messages: &[Message]) -> bool
    ensures { result ≡ is_over messages.now }
{
    !has_unanswered(messages)
}

fn has_unanswered(messages: &[Message]) -> bool
    ensures { result ≡ list_any (λ (message : TheMessage). is_unanswered message.status) messages.now }
{
    messages
        .iter()
        .any(|message| message.status.is_unanswered())
}

fn have_all_succeeded(messages: &[Message]) -> bool
    ensures { result ≡ list_all (λ (message : TheMessage). is_success message.status) messages.now }
{
    messages.iter().all(|message| message.status.is_success())
}

/// Whether at least so many messages succeeded.
fn has_successes(messages: &[Message], need: usize) -> bool
    ensures { result ≡ nat_le need (length (successes messages.now)) }
{
    let mut missing = need;
    for message in messages {
        if message.status.is_success() {
            missing = missing.saturating_sub(1);
        }
    }
    missing == 0
}

/// Whether an attempt of these messages has done its work. Looks at each message.
pub(crate) fn is_done(work: &ObjWork, messages: &[Message]) -> bool
    requires { IsWork work.now }
    ensures { result ≡ is_done work.now messages.now }
{
    match work {
        ObjWork::Create { .. } => have_all_succeeded(messages),
        ObjWork::Write { .. } => have_all_succeeded(messages),
        ObjWork::Read { oid, policy, .. } => {
            has_successes(messages, policy.need(oid.kind()) as usize)
        }
        ObjWork::ReadAll { .. } => have_all_succeeded(messages),
    }
}

fn have_succeeded_with(messages: &[Message], number: u32, success: bool) -> bool
    ensures { result ≡ list_all (succeeds_with number success) messages.now }
{
    messages
        .iter()
        .all(|message| message.succeeds_with(number, success))
}

fn are_answered_with(messages: &[Message], number: u32) -> bool
    ensures { result ≡ list_all (is_answered_with number) messages.now }
{
    messages
        .iter()
        .all(|message| message.is_answered_with(number))
}

/// Whether an attempt of these messages may be done where the one of a number succeeds or doesn't; else it isn't. Looks at each message.
pub(crate) fn may_be_done(work: &ObjWork, number: u32, success: bool, messages: &[Message]) -> bool
    ensures { result ≡ may_be_done work.now number success messages.now }
{
    match work {
        ObjWork::Create { .. } => have_succeeded_with(messages, number, success),
        ObjWork::Write { .. } => have_succeeded_with(messages, number, success),
        ObjWork::Read { .. } => are_answered_with(messages, number),
        ObjWork::ReadAll { .. } => have_succeeded_with(messages, number, success),
    }
}

/// The cause in which a node's refusal of an attempt's message is told.
fn cause_by(work: &ObjWork, epoch: Epoch, node: NodeId, refusal: Refusal) -> Cause
    ensures { result ≡ cause_by work.now epoch node refusal }
{
    match refusal {
        Refusal::OldEpoch { own } => Cause::OldEpoch {
            node,
            own: epoch,
            peer: own,
        },
        Refusal::NewEpoch { own } => Cause::NewEpoch {
            node,
            own: epoch,
            peer: own,
        },
        Refusal::Recovery => Cause::Recovery { node, epoch },
        Refusal::NoObj => Cause::NoObj {
            node,
            oid: work.oid(),
        },
    }
}

/// Why a message didn't succeed; `None` if it did, or is unanswered.
fn failure(work: &ObjWork, epoch: Epoch, message: &Message) -> Option<Cause>
    ensures { result ≡ failure work.now epoch message.now.node message.now.status }
{
    match &message.status {
        Status::Unanswered => None,
        Status::Succeeded(_) => None,
        Status::Refused(refusal) => Some(cause_by(work, epoch, message.node, *refusal)),
        Status::Lost => Some(Cause::Link { node: message.node }),
    }
}

/// Why the first message that didn't succeed didn't. Looks at the messages up to that one.
pub(crate) fn first_failure(work: &ObjWork, epoch: Epoch, messages: &[Message]) -> Option<Cause>
    ensures { result ≡ first_failure work.now epoch messages.now }
{
    for message in messages {
        let cause = failure(work, epoch, message);
        if cause.is_some() {
            return cause;
        }
    }
    None
}
