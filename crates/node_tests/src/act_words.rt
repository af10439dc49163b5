//! What the parts of a node do, act by act, as words: each act is ended by `;`.

use guest_driver::DriverAct;
use peer_proto::{GuestRsp, ObjWork};
use std::alloc::AllocError;
use step_text::{write_entry, write_reply, write_work};
use vdi_ops::{OpAct, OpEnd};

/// Writes an act of a command.
pub(crate) fn write_op_act(out: &mut String, act: &OpAct) -> Result<(), AllocError> {
    match act {
        OpAct::Append(entry) => {
            out.push_str("append ")?;
            write_entry(out, entry)?;
            out.push(';')
        }
        OpAct::Work(work) => write_begun(out, work),
        OpAct::Reply(reply) => write_replied(out, reply),
    }
}

/// Writes an act of a read or write.
pub(crate) fn write_driver_act(out: &mut String, act: &DriverAct) -> Result<(), AllocError> {
    match act {
        DriverAct::Work(work) => write_begun(out, work),
        DriverAct::Reply(reply) => write_replied(out, reply),
    }
}

/// Writes how a command ends whose work was refused.
pub(crate) fn write_end(out: &mut String, end: &OpEnd) -> Result<(), AllocError> {
    if let Some(entry) = &end.unlock {
        out.push_str("append ")?;
        write_entry(out, entry)?;
        out.push(';')?;
    }
    write_replied(out, &end.reply)
}

fn write_begun(out: &mut String, work: &ObjWork) -> Result<(), AllocError> {
    write_work(out, work)?;
    out.push(';')
}

fn write_replied(out: &mut String, reply: &GuestRsp) -> Result<(), AllocError> {
    out.push_str("reply ")?;
    write_reply(out, reply)?;
    out.push(';')
}
