ghost use Rattle.std.specs.Prelude.{◌≡◌, IfOk};

use object_id::{Cause, NoMemory};
use peer_proto::{ObjWork, SendList, WorkDone};
use std::alloc::Global;

/// What a step of a gateway comes to.
#[derive(Debug, Drop)]
pub enum Act {
    /// An attempt begins, with these messages.
    Send(Sends),
    /// Nothing is sent: a message is unanswered, or the work waits for its next attempt.
    Wait,
    /// The work is done.
    Done {
        work: ObjWork,
        done: WorkDone,
    },
    /// The request is refused, and its work has ended.
    Refused {
        work: ObjWork,
        req: u32,
        cause: Cause,
    },
}

/// The messages of an attempt in the order of their numbers, each with the node that it goes to.
#[derive(Debug, Drop)]
pub struct Sends {
    pub list: SendList,
}

impl Sends {
    pub fn copy(&self, alloc: Global) -> Result<Self, NoMemory>
        ensures { IfOk result (λ copy. copy ≡ self.now) }
    {
        Ok(Sends {
            list: self.list.copy(alloc)?,
        })
    }
}

impl Act {
    pub fn copy(&self, alloc: Global) -> Result<Self, NoMemory>
        ensures { IfOk result (λ copy. copy ≡ self.now) }
    {
        Ok(match self {
            Act::Send(sends) => Act::Send(sends.copy(alloc)?),
            Act::Wait => Act::Wait,
            Act::Done { work, done } => Act::Done {
                work: work.copy(alloc)?,
                done: done.copy(alloc)?,
            },
            Act::Refused { work, req, cause } => Act::Refused {
                work: work.copy(alloc)?,
                req: *req,
                cause: *cause,
            },
        })
    }
}
