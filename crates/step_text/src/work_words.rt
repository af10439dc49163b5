//! The words of a work on an object, read and written.

use crate::fault::Fault;
use crate::words::{Words, write_bytes, write_policy};
use object_id::{Oid, Policy};
use peer_proto::ObjWork;
use std::alloc::AllocError;
use std::fmt::Write;

/// The work that the next words spell.
pub(crate) fn read_work(words: &mut Words) -> Result<ObjWork, Fault> {
    let kind = words.word()?;
    let oid = words.oid()?;
    let policy = words.policy()?;
    match kind {
        "create" => Ok(ObjWork::Create {
            oid,
            policy,
            length: words.number()?,
            offset: words.number()?,
            bytes: words.bytes()?,
        }),
        "write" => Ok(ObjWork::Write {
            oid,
            policy,
            offset: words.number()?,
            bytes: words.bytes()?,
        }),
        "read" => Ok(ObjWork::Read {
            oid,
            policy,
            offset: words.number()?,
            length: words.number()?,
        }),
        "read_all" => Ok(ObjWork::ReadAll {
            oid,
            policy,
            length: words.number()?,
        }),
        _ => Err(Fault::Word),
    }
}

/// Writes a work on an object: its kind, the object's id and policy, and the other fields in order.
pub fn write_work(out: &mut String, work: &ObjWork) -> Result<(), AllocError> {
    match work {
        ObjWork::Create {
            oid,
            policy,
            length,
            offset,
            bytes,
        } => {
            write_head(out, "create", *oid, *policy)?;
            write!(out, " {length} {offset} ")?;
            write_bytes(out, bytes.as_slice())
        }
        ObjWork::Write {
            oid,
            policy,
            offset,
            bytes,
        } => {
            write_head(out, "write", *oid, *policy)?;
            write!(out, " {offset} ")?;
            write_bytes(out, bytes.as_slice())
        }
        ObjWork::Read {
            oid,
            policy,
            offset,
            length,
        } => {
            write_head(out, "read", *oid, *policy)?;
            write!(out, " {offset} {length}")
        }
        ObjWork::ReadAll {
            oid,
            policy,
            length,
        } => {
            write_head(out, "read_all", *oid, *policy)?;
            write!(out, " {length}")
        }
    }
}

fn write_head(out: &mut String, kind: &str, oid: Oid, policy: Policy) -> Result<(), AllocError> {
    write!(out, "{kind} {} ", oid.as_u64())?;
    write_policy(out, policy)
}
