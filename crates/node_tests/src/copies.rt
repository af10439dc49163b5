//! Each copy with ample memory: a body that never finds any would meet the contracts too.

use crate::act_words::{write_driver_act, write_end, write_op_act};
use guest_driver::DriverAct;
use object_id::{Bytes, Cause, Entry, NodeId, Oid, Policy, Vid};
use peer_proto::{GuestRsp, ObjWork, PeerRsp, SendList};
use sheep_node::{Input, Outputs, ReplyList};
use std::alloc::Global;
use std::test::Fail;
use step_text::{Fault, input_of, outputs_line, write_input};
use vdi_ops::{OpAct, OpEnd};

/// A request to read, and a refusal, as `peer_proto` spells them.
const REQUEST: &str = "request 01a20000050000000800*7.020000000900*4.040000030000000100*8.0200*6.";

const REPLY: &str = "reply 01a10000050000000600*7.8300*4.0500*26.";

/// What an input says.
fn input_line(alloc: Global, input: &Input) -> Result<String, Fault> {
    let mut told = String::new(alloc);
    write_input(alloc, &mut told, input)?;
    Ok(told)
}

/// What the copy of an input says.
fn copied_line(alloc: Global, input: &Input) -> Result<String, Fault> {
    let copy = input.copy(alloc)?;
    input_line(alloc, &copy)
}

/// What the copy of a line's input says.
fn copied_input(alloc: Global, line: &str) -> Result<String, Fault> {
    let input = input_of(alloc, line)?;
    copied_line(alloc, &input)
}

#[test]
fn copies_inputs(rt: HostRuntime) -> Result<(), Fail> {
    for line in [
        "guest 4 7 disk read 512 1024",
        "guest 4 7 disk write 512 07*512.",
        "guest 4 7 vdi create 766d 4096 3 12",
        "guest 4 7 vdi open 766d 74",
        "guest 4 7 vdi close",
        "guest 4 7 vdi snapshot 74",
        "guest 4 7 vdi clone 766d 74 77",
        "guest 4 7 vdi delete 766d .",
        "guest 4 7 vdi check",
        "guest 4 7 object read 38654705666 4:2 512 1024",
        "guest 4 7 entry unlock 3 7 9",
        REQUEST,
        REPLY,
        "lost 8",
        "log unlock 3 7 9",
        "put",
        "recover_tick",
        "retry_tick",
        "back 2 format 2 0 0 64 1 0 32 leave 1",
    ] {
        let told = copied_input(rt.alloc(), line)?;
        assert_eq!(rt; told.as_str(), line);
    }
    Ok(())
}

fn an_entry() -> Entry {
    Entry::Unlock {
        by: NodeId(3),
        session: 7,
        vid: Vid(9),
    }
}

/// The request, to be sent to node 1.
fn a_send(alloc: Global) -> Result<SendList, Fault> {
    let mut sends = SendList::new(alloc);
    if let Input::Request(request) = &input_of(alloc, REQUEST)? {
        sends.push((NodeId(1), request.copy(alloc)?))?;
    }
    Ok(sends)
}

/// The reply.
fn a_reply(alloc: Global) -> Result<Option<PeerRsp>, Fault> {
    match &input_of(alloc, REPLY)? {
        Input::Reply(reply) => Ok(Some(reply.copy(alloc)?)),
        _ => Ok(None),
    }
}

/// What the copy of outputs says that have one of each kind.
fn copied_outputs(alloc: Global) -> Result<String, Fault> {
    let sends = a_send(alloc)?;
    let say = a_reply(alloc)?;
    let mut replies = ReplyList::new(alloc);
    replies.push((4, GuestRsp::Refused(Cause::Readonly)))?;
    let outputs = Outputs {
        sends,
        say,
        replies,
        put: Some(an_entry()),
    };
    Ok(outputs_line(alloc, &outputs.copy(alloc)?)?)
}

#[test]
fn copies_outputs(rt: HostRuntime) -> Result<(), Fail> {
    let told = copied_outputs(rt.alloc())?;
    assert_eq!(rt;
        told.as_str(),
        "send 1 01a20000050000000800*7.020000000900*4.040000030000000100*8.0200*6.;\
         say 01a10000050000000600*7.8300*4.0500*26.;reply 4 refused READONLY;put unlock 3 7 9;"
    );
    Ok(())
}

/// Whether the copy of a command's act says this.
fn is_copied(alloc: Global, act: OpAct, said: &str) -> Result<bool, Fault> {
    let copy = act.copy(alloc)?;
    let mut told = String::new(alloc);
    write_op_act(&mut told, &copy)?;
    Ok(told.as_str() == said)
}

fn a_read() -> ObjWork {
    ObjWork::Read {
        oid: Oid::inode(Vid(9)),
        policy: Policy::Copies(3),
        offset: 0,
        length: 4_668,
    }
}

#[test]
fn copies_acts_of_commands(rt: HostRuntime) -> Result<(), Fail> {
    let append = OpAct::Append(an_entry());
    assert!(rt; is_copied(rt.alloc(), append, "append unlock 3 7 9;")?);
    let read = OpAct::Work(a_read());
    assert!(rt; is_copied(rt.alloc(), read, "read 9223372075509481472 3 0 4668;")?);
    let reply = OpAct::Reply(GuestRsp::Refused(Cause::NoTag));
    assert!(rt; is_copied(rt.alloc(), reply, "reply refused NO_TAG;")?);
    Ok(())
}

/// What the copy of a command's end says.
fn copied_end(alloc: Global) -> Result<String, Fault> {
    let end = OpEnd {
        unlock: Some(an_entry()),
        reply: GuestRsp::Refused(Cause::Link { node: NodeId(1) }),
    };
    let copy = end.copy(alloc)?;
    let mut told = String::new(alloc);
    write_end(&mut told, &copy)?;
    Ok(told)
}

#[test]
fn copies_ends_of_commands(rt: HostRuntime) -> Result<(), Fail> {
    let told = copied_end(rt.alloc())?;
    assert_eq!(rt; told.as_str(), "append unlock 3 7 9;reply refused LINK 1;");
    Ok(())
}

/// Whether the copy of an act of a read or write says this.
fn is_driver_copied(alloc: Global, act: DriverAct, said: &str) -> Result<bool, Fault> {
    let copy = act.copy(alloc)?;
    let mut told = String::new(alloc);
    write_driver_act(&mut told, &copy)?;
    Ok(told.as_str() == said)
}

fn a_write(alloc: Global) -> Result<ObjWork, Fault> {
    Ok(ObjWork::Write {
        oid: Oid::object(Vid(9), 2),
        policy: Policy::Copies(3),
        offset: 512,
        bytes: Bytes::from_slice(alloc, b"piece")?,
    })
}

#[test]
fn copies_acts_of_disk_requests(rt: HostRuntime) -> Result<(), Fail> {
    let write = DriverAct::Work(a_write(rt.alloc())?);
    assert!(rt; is_driver_copied(rt.alloc(), write, "write 38654705666 3 512 7069656365;")?);
    let reply = DriverAct::Reply(GuestRsp::Refused(Cause::Readonly));
    assert!(rt; is_driver_copied(rt.alloc(), reply, "reply refused READONLY;")?);
    Ok(())
}
