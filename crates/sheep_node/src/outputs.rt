ghost use Rattle.std.specs.Prelude.{◌≡◌, IfOk};

use crate::replies::ReplyList;
use object_id::{Entry, NoMemory};
use peer_proto::{PeerRsp, SendList};
use std::alloc::Global;

/// What a step gives.
#[derive(Debug)]
pub struct Outputs {
    /// The requests that the step sends, in the order of their numbers.
    pub sends: SendList,
    /// The reply to the request that the step served.
    pub say: Option<PeerRsp>,
    /// The replies to guests, by ascending request.
    pub replies: ReplyList,
    /// What goes into the log.
    pub put: Option<Entry>,
}

/// Written out, so that letting outputs go is one call wherever it is done.
impl Drop for Outputs {
    fn drop(self) {
        let Outputs {
            sends,
            say,
            replies,
            put,
        } = self;
        drop(sends);
        drop(say);
        drop(replies);
        drop(put);
    }
}

impl Outputs {
    pub fn copy(&self, alloc: Global) -> Result<Self, NoMemory>
        ensures { IfOk result (λ copy. copy ≡ self.now) }
    {
        let say = match &self.say {
            Some(reply) => Some(reply.copy(alloc)?),
            None => None,
        };
        let put = match &self.put {
            Some(entry) => Some(entry.copy(alloc)?),
            None => None,
        };
        Ok(Outputs {
            sends: self.sends.copy(alloc)?,
            say,
            replies: self.replies.copy(alloc)?,
            put,
        })
    }
}
