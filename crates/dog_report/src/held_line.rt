//! The line of a request that has its reply, made as soon as the reply is there.

ghost use Rattle.std.specs.Prelude.{◌≡◌, IfOk};
ghost use Rattle.dog_report.specs.Fates.{Answered};
ghost use Rattle.dog_report.specs.Counts.{is_refused};
ghost use Rattle.dog_report.specs.ToldPart.{held_line};

use crate::fates::push_answered;
use object_id::{Bytes, NoMemory};
use peer_proto::GuestRsp;
use std::alloc::Global;

/// The line of a request that has its reply, with its end, and whether it was refused. A reply is kept as its line, and not as its bytes:
/// a run of equal bytes takes one word.
#[derive(Debug, Drop)]
pub struct HeldLine {
    pub refused: bool,
    pub text: Bytes,
}

/// Whether a reply refuses its request.
fn is_refused(rsp: &GuestRsp) -> bool
    ensures { result ≡ is_refused (Answered rsp.now) }
{
    matches!(rsp, GuestRsp::Refused(_))
}

/// The line of a request by its reply.
pub fn held_line(alloc: Global, number: u32, rsp: &GuestRsp) -> Result<HeldLine, NoMemory>
    ensures { IfOk result (λ line. line ≡ held_line number rsp.now) }
{
    let mut text = Vec::new(alloc);
    push_answered(&mut text, number, rsp)?;
    Ok(HeldLine {
        refused: is_refused(rsp),
        text: Bytes::from_vec(text),
    })
}
