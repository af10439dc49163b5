ghost use Rattle.std.specs.Prelude.{◌≡◌, IfOk};
ghost use Rattle.gateway.specs.Attempt.{is_unanswered, is_success, may_be_made, bytes_in, is_awaited_message};
ghost use Rattle.gateway.specs.Kept.{succeeds_with, is_answered_with};

use object_id::{Bytes, NoMemory, NodeId};
use peer_proto::Refusal;
use std::alloc::Global;

/// What is known of a message.
#[derive(Debug, Drop)]
pub enum Status {
    Unanswered,
    /// The node did as it was asked; of a read, with the bytes that it gave.
    Succeeded(Bytes),
    Refused(Refusal),
    Lost,
}

impl Status {
    /// Whether nothing came of the message yet.
    pub fn is_unanswered(&self) -> bool
        ensures { result ≡ is_unanswered self.now }
    {
        matches!(self, Status::Unanswered)
    }

    /// Whether the message succeeded.
    pub fn is_success(&self) -> bool
        ensures { result ≡ is_success self.now }
    {
        matches!(self, Status::Succeeded(_))
    }

    /// Whether the node made what it was asked for, or may have made it.
    pub fn may_be_made(&self) -> bool
        ensures { result ≡ may_be_made self.now }
    {
        match self {
            Status::Unanswered => false,
            Status::Succeeded(_) => true,
            Status::Refused(_) => false,
            Status::Lost => true,
        }
    }

    /// The bytes that the message gave; none if it didn't succeed.
    pub fn bytes(&self) -> &[u8]
        ensures { result.now ≡ bytes_in self.now }
    {
        match self {
            Status::Succeeded(bytes) => bytes.as_slice(),
            _ => &[],
        }
    }

    /// A copy, which takes no memory but for the bytes that the message gave.
    fn copy(&self, alloc: Global) -> Result<Self, NoMemory>
        ensures { IfOk result (λ copy. copy ≡ self.now) }
    {
        Ok(match self {
            Status::Unanswered => Status::Unanswered,
            Status::Succeeded(bytes) => Status::Succeeded(bytes.copy(alloc)?),
            Status::Refused(refusal) => Status::Refused(*refusal),
            Status::Lost => Status::Lost,
        })
    }
}

/// A message of an attempt: its number, the node that it goes to, and the index of the part that it asks for.
#[derive(Debug)]
pub struct Message {
    pub number: u32,
    pub node: NodeId,
    pub index: u8,
    pub status: Status,
}

/// Written out, so that letting one go is one call wherever it is done, and no cases there.
impl Drop for Message {
    fn drop(self) {
        let Message {
            number: _,
            node: _,
            index: _,
            status,
        } = self;
        drop(status);
    }
}

impl Message {
    /// Whether this is the message of a number, and unanswered.
    pub fn is_awaited(&self, number: u32) -> bool
        ensures { result ≡ is_awaited_message number self.now }
    {
        if self.number == number {
            self.status.is_unanswered()
        } else {
            false
        }
    }

    /// Whether the message succeeds, where the one of a number does or doesn't.
    pub(crate) fn succeeds_with(&self, number: u32, success: bool) -> bool
        ensures { result ≡ succeeds_with number success self.now }
    {
        if self.number == number {
            success
        } else {
            self.status.is_success()
        }
    }

    /// Whether the message is answered, where the one of a number is.
    pub(crate) fn is_answered_with(&self, number: u32) -> bool
        ensures { result ≡ is_answered_with number self.now }
    {
        if self.number == number {
            true
        } else {
            !self.status.is_unanswered()
        }
    }

    pub(crate) fn copy(&self, alloc: Global) -> Result<Self, NoMemory>
        ensures { IfOk result (λ copy. copy ≡ self.now) }
    {
        Ok(Message {
            number: self.number,
            node: self.node,
            index: self.index,
            status: self.status.copy(alloc)?,
        })
    }
}
