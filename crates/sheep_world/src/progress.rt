//! What the cluster knows of a script's sessions, and of a client's last ask.

ghost use Rattle.std.specs.Prelude.{◌≡◌, IfOk};
ghost use Rattle.std.specs.Option.{option_copied};
ghost use Rattle.sheep_world.specs.NodeSteps.{reply_among, ask_after_replies};

use object_id::{Items, NoMemory};
use peer_proto::GuestRsp;
use sheep_node::ReplyList;
use std::alloc::Global;

/// A request that was started and has no reply: its number, and the disk that its session had open then.
#[derive(Clone, Copy, Debug, PartialEq, Eq)]
pub struct StartedRequest {
    pub req: u32,
    pub disk: Option<u32>,
}

/// A session, as the world sees it: how many of its requests were started, and which of them have no reply.
#[derive(Debug, Drop)]
pub struct SessionProgress {
    pub begun: u32,
    pub unanswered: Items<StartedRequest>,
}

/// What a client without a script asked last: the number of its request, and the reply, once there is one.
#[derive(Debug)]
pub struct ClientAsk {
    pub req: u32,
    pub reply: Option<GuestRsp>,
}

/// Written out, so that letting an ask go is one call wherever a world is let go.
impl Drop for ClientAsk {
    fn drop(self) {
        let ClientAsk { req: _, reply } = self;
        drop(reply);
    }
}

/// The reply to the request of a number among some.
fn reply_among(req: u32, replies: &ReplyList) -> Option<&GuestRsp>
    ensures { option_copied result ≡ reply_among req replies.now }
{
    match replies.as_slice().iter().find(|reply| reply.0 == req) {
        Some((_, rsp)) => Some(rsp),
        None => None,
    }
}

impl ClientAsk {
    /// The ask, once these replies were given.
    pub(crate) fn after_replies(
        self,
        alloc: Global,
        replies: &ReplyList,
    ) -> Result<ClientAsk, NoMemory>
        ensures { IfOk result (λ after. after ≡ ask_after_replies replies.now self) }
    {
        let ClientAsk { req, reply } = self;
        let reply = match reply {
            Some(rsp) => Some(rsp),
            None => match reply_among(req, replies) {
                Some(rsp) => Some(rsp.copy(alloc)?),
                None => None,
            },
        };
        Ok(ClientAsk { req, reply })
    }
}
