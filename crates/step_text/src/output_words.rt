//! The words of what a step gives.

use crate::entry_words::write_entry;
use crate::words::write_bytes;
use object_id::{Cause, NoMemory, NodeId};
use peer_proto::{Checked, GuestRsp, PeerReq, encode_ask, encode_say};
use sheep_node::Outputs;
use std::alloc::{AllocError, Global};
use std::fmt::Write;

/// The outputs of a step on one line: what it sends, says, replies and puts, each ended by `;`. Messages stand as their bytes.
pub fn outputs_line(alloc: Global, given: &Outputs) -> Result<String, NoMemory> {
    let mut out = String::new(alloc);
    write_messages(alloc, &mut out, given)?;
    write_told(&mut out, given)?;
    Ok(out)
}

/// Writes what a step sends and says.
fn write_messages(alloc: Global, out: &mut String, given: &Outputs) -> Result<(), NoMemory> {
    for (to, request) in given.sends.as_slice() {
        write_send(alloc, out, *to, request)?;
    }
    if let Some(reply) = &given.say {
        out.push_str("say ")?;
        write_bytes(out, encode_say(alloc, reply)?.as_slice())?;
        out.push(';')?;
    }
    Ok(())
}

fn write_send(
    alloc: Global,
    out: &mut String,
    to: NodeId,
    request: &PeerReq,
) -> Result<(), NoMemory> {
    write!(out, "send {} ", to.0)?;
    write_bytes(out, encode_ask(alloc, request)?.as_slice())?;
    Ok(out.push(';')?)
}

/// Writes what a step replies and puts.
fn write_told(out: &mut String, given: &Outputs) -> Result<(), AllocError> {
    for (req, reply) in given.replies.as_slice() {
        write!(out, "reply {req} ")?;
        write_reply(out, reply)?;
        out.push(';')?;
    }
    if let Some(entry) = &given.put {
        out.push_str("put ")?;
        write_entry(out, entry)?;
        out.push(';')?;
    }
    Ok(())
}

/// Writes a guest's reply: its kind, and what it gives.
pub fn write_reply(out: &mut String, reply: &GuestRsp) -> Result<(), AllocError> {
    match reply {
        GuestRsp::Done => out.push_str("done"),
        GuestRsp::Piece(piece) => {
            out.push_str("piece ")?;
            write_bytes(out, piece.as_slice())
        }
        GuestRsp::Refused(cause) => {
            out.push_str("refused ")?;
            write_cause(out, *cause)
        }
        GuestRsp::Granted { vid } => write!(out, "granted {}", vid.0),
        GuestRsp::Checked(found) => write_checked(out, found),
    }
}

fn write_checked(out: &mut String, found: &Checked) -> Result<(), AllocError> {
    write!(out, "checked {} {}", found.objects, found.inherited)?;
    for oid in found.differed.as_slice() {
        write!(out, " {}", oid.as_u64())?;
    }
    Ok(())
}

fn write_cause(out: &mut String, cause: Cause) -> Result<(), AllocError> {
    match cause {
        Cause::VdiLocked { session } => write!(out, "VDI_LOCKED {session}"),
        Cause::NoVdi => out.push_str("NO_VDI"),
        Cause::NoTag => out.push_str("NO_TAG"),
        Cause::NoBaseVdi => out.push_str("NO_BASE_VDI"),
        Cause::VdiExist => out.push_str("VDI_EXIST"),
        Cause::Readonly => out.push_str("READONLY"),
        Cause::VdiNotLocked => out.push_str("VDI_NOT_LOCKED"),
        Cause::FullVdi => out.push_str("FULL_VDI"),
        Cause::InvalidParms => out.push_str("INVALID_PARMS"),
        Cause::Halt { members, wanted } => write!(out, "HALT {members} {wanted}"),
        Cause::OldEpoch { node, own, peer } => {
            write!(out, "OLD_EPOCH {} {} {}", node.0, own.0, peer.0)
        }
        Cause::NewEpoch { node, own, peer } => {
            write!(out, "NEW_EPOCH {} {} {}", node.0, own.0, peer.0)
        }
        Cause::Recovery { node, epoch } => write!(out, "RECOVERY {} {}", node.0, epoch.0),
        Cause::Link { node } => write!(out, "LINK {}", node.0),
        Cause::NoObj { node, oid } => write!(out, "NO_OBJ {} {}", node.0, oid.as_u64()),
    }
}
