//! The words of what the history gains.

use crate::words::write_bytes;
use disk_history::HistEvent;
use std::alloc::AllocError;
use std::fmt::Write;

/// Writes an event of the history as a line: its kind, and its fields in order.
pub(crate) fn write_history(out: &mut String, event: &HistEvent) -> Result<(), AllocError> {
    out.push_str("history ")?;
    write_kind(out, event)?;
    out.push('\n')
}

fn write_kind(out: &mut String, event: &HistEvent) -> Result<(), AllocError> {
    match event {
        HistEvent::Create { disk, blocks } => write!(out, "create {disk} {blocks}"),
        HistEvent::Copy { old, new } => write!(out, "copy {old} {new}"),
        HistEvent::Delete { disk } => write!(out, "delete {disk}"),
        HistEvent::WriteStart {
            req,
            disk,
            block,
            coded,
            bytes,
        } => {
            let kind = if *coded { "coded" } else { "copies" };
            write!(out, "start {req} {disk} {block} {kind} ")?;
            write_bytes(out, bytes.as_slice())
        }
        HistEvent::WriteDone { req } => write!(out, "done {req}"),
        HistEvent::WriteRefused { req } => write!(out, "refused {req}"),
        HistEvent::WriterLost { req } => write!(out, "lost {req}"),
        HistEvent::Read { disk, block, bytes } => {
            write!(out, "read {disk} {block} ")?;
            write_bytes(out, bytes.as_slice())
        }
    }
}
