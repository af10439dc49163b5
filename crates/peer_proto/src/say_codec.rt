ghost use Rattle.std.specs.Prelude.{◌≡◌, ◌++◌, true, Ok, OnOk, IfOk};
ghost use Rattle.peer_proto.specs.Header.{AnswersBytes};
ghost use Rattle.peer_proto.specs.Say.{form_of, say_body, say_head_at, say_bytes, refusal_of, to_epoch, peer_say_of, peer_reply_of};
ghost use Rattle.peer_proto.specs.Say.{reply_in, say_in, fits_say, IsPeerRsp};

use crate::fault::PeerFault;
use crate::header::header_in;
use crate::ids::{ids_in, put_ids};
use crate::say::{PeerRsp, PeerSay, Refusal};
use crate::say_head::{Form, SayHead, fits_say, say_head, say_head_at, say_head_bytes};
use object_id::{Bytes, Epoch, NoMemory};
use object_store::RowCopy;
use sheep_proto::HEADER_BYTES;
use std::alloc::Global;

/// Adds the bytes that stand behind the header.
fn put_body(out: &mut Vec<u8>, say: &PeerSay) -> Result<(), NoMemory>
    ensures { OnOk result (out.new.items ≡ out.old.items ++ say_body say.now) }
{
    match say {
        PeerSay::Success => Ok(()),
        PeerSay::Piece(bytes) => Ok(out.extend_from_slice(bytes.as_slice())?),
        PeerSay::Objects(oids) => put_ids(out, oids),
        PeerSay::Row(row) => Ok(out.extend_from_slice(row.bytes.as_slice())?),
        PeerSay::NoRow => Ok(()),
        PeerSay::Refused(_) => Ok(()),
    }
}

/// The bytes of a reply. A refusal's own epoch is the reply's, and isn't spelled.
pub fn encode_say(alloc: Global, rsp: &PeerRsp) -> Result<Bytes, NoMemory>
    ensures { IfOk result (λ bytes. bytes ≡ say_bytes rsp.now) }
{
    let mut out = Vec::with_capacity(alloc, HEADER_BYTES)?;
    out.extend_from_slice(&say_head_bytes(&say_head(rsp)))?;
    put_body(&mut out, &rsp.say)?;
    Ok(Bytes::from_vec(out))
}

/// The refusal of one of the four results.
fn refusal_of(result_number: u32, own: Epoch) -> Refusal
    ensures { result ≡ refusal_of result_number own }
{
    match result_number {
        0x81 => Refusal::OldEpoch { own },
        0x82 => Refusal::NewEpoch { own },
        0x83 => Refusal::Recovery,
        _ => Refusal::NoObj,
    }
}

fn to_epoch(to: u32) -> Option<Epoch>
    ensures { result ≡ to_epoch to }
{
    if to == 0 { None } else { Some(Epoch(to)) }
}

/// What a header that fits answers.
fn say_of(alloc: Global, form: Form, head: &SayHead, body: &[u8]) -> Result<PeerSay, NoMemory>
    requires { fits_say form head.now body.now ≡ true }
    ensures { IfOk result (λ say. say ≡ peer_say_of form head.now body.now) }
{
    Ok(match form {
        Form::Success => PeerSay::Success,
        Form::Piece => PeerSay::Piece(Bytes::from_slice(alloc, body)?),
        Form::Objects => PeerSay::Objects(ids_in(alloc, body)?),
        Form::Row => PeerSay::Row(RowCopy {
            index: head.row.index,
            from: Epoch(head.row.from),
            to: to_epoch(head.row.to),
            length: head.row.size,
            bytes: Bytes::from_slice(alloc, body)?,
        }),
        Form::NoRow => PeerSay::NoRow,
        Form::Refused => PeerSay::Refused(refusal_of(head.result, Epoch(head.common.epoch))),
    })
}

/// Reads what stands behind a header of this form.
fn reply_in(
    alloc: Global,
    form: Option<Form>,
    head: &SayHead,
    body: &[u8],
) -> Result<PeerRsp, PeerFault>
    ensures { AnswersBytes (reply_in form head.now body.now) result }
{
    let Some(form) = form else {
        return Err(PeerFault::BadField);
    };
    if !fits_say(form, head, body) {
        return Err(PeerFault::BadField);
    }
    Ok(PeerRsp {
        number: head.common.id,
        epoch: Epoch(head.common.epoch),
        say: say_of(alloc, form, head, body)?,
    })
}

/// Reads the header, and then what stands behind it.
fn read_say(alloc: Global, bytes: &[u8]) -> Result<PeerRsp, PeerFault>
    ensures { AnswersBytes (say_in bytes.now) result }
{
    let (_, common) = header_in(bytes)?;
    let head = say_head_at(common, bytes);
    reply_in(
        alloc,
        Form::from_byte(head.form),
        &head,
        &bytes[HEADER_BYTES..],
    )
}

/// The reply that bytes spell, all of the bytes. Only for bytes that spell one can memory be wanting.
pub fn decode_say(alloc: Global, bytes: &[u8]) -> Result<PeerRsp, PeerFault>
    // What is read is spelled so.
    ensures ok { IfOk result (λ rsp. IsPeerRsp rsp × (bytes.now ≡ say_bytes rsp)) }
    // What is spelled so is read.
    ensures only { (rsp : PeerRsp) → IsPeerRsp rsp → bytes.now ≡ say_bytes rsp → AnswersBytes (Ok rsp) result }
    // Which refusal it is.
    ensures refused { AnswersBytes (say_in bytes.now) result }
{
    read_say(alloc, bytes)
}
