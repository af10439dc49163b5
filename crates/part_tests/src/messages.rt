//! What no clause says: that each call comes through with ample memory.

use object_id::{Bytes, Epoch, NodeId, Oid, Policy, Vid};
use object_store::{Key, OidList};
use peer_proto::{
    Checked, DiskAsk, GuestRsp, ObjWork, PeerAsk, PeerFault, PeerReq, PeerRsp, PeerSay, SendList,
    VdiAsk, WorkDone, decode_ask, encode_ask,
};
use std::alloc::Global;
use std::test::*;

/// A request to write two bytes into a row.
fn short_write(alloc: Global) -> Result<PeerReq, Fail> {
    Ok(PeerReq {
        from: NodeId(3),
        number: 9,
        epoch: Epoch(4),
        ask: PeerAsk::Write {
            key: Key {
                oid: Oid::object(Vid(0x01_ec8c), 2),
                index: 1,
            },
            offset: 512,
            bytes: Bytes::from_slice(alloc, &[7, 8])?,
        },
    })
}

/// A copy of a list of one request, to node 5.
fn copied_sends(alloc: Global) -> Result<SendList, Fail> {
    let mut sends = SendList::new(alloc);
    sends.push((NodeId(5), short_write(alloc)?))?;
    Ok(sends.copy(alloc)?)
}

#[test]
fn a_new_list_is_empty(rt: HostRuntime) -> Result<(), Fail> {
    assert!(rt; SendList::new(rt.alloc()).is_empty());
    Ok(())
}

#[test]
fn copies_lists_of_requests(rt: HostRuntime) -> Result<(), Fail> {
    let copy = copied_sends(rt.alloc())?;
    assert_eq!(rt; (copy.len(), copy.get(1).is_none()), (1, true));
    let Some((to, req)) = copy.get(0) else {
        return Ok(assert!(rt; false, "nothing is sent"));
    };
    assert_eq!(rt; *to, NodeId(5));
    assert!(rt; is_spelled_alike(rt.alloc(), req)?);
    Ok(())
}

/// Whether a request has the bytes of the short write.
fn is_spelled_alike(alloc: Global, req: &PeerReq) -> Result<bool, Fail> {
    let write = short_write(alloc)?;
    let spelled = encode_ask(alloc, &write)?;
    let bytes = encode_ask(alloc, req)?;
    Ok(bytes.as_slice() == spelled.as_slice())
}

/// A copy of a reply.
fn copied_piece(alloc: Global) -> Result<PeerRsp, Fail> {
    let rsp = PeerRsp {
        number: 9,
        epoch: Epoch(4),
        say: PeerSay::Piece(Bytes::from_slice(alloc, &[7, 8])?),
    };
    Ok(rsp.copy(alloc)?)
}

#[test]
fn copies_replies(rt: HostRuntime) -> Result<(), Fail> {
    let copy = copied_piece(rt.alloc())?;
    assert!(rt;
        matches!(&copy.say, PeerSay::Piece(bytes) if bytes.as_slice() == [7, 8].as_slice())
    );
    Ok(())
}

/// A request with a piece of 2^20 bytes.
fn longest_write(alloc: Global) -> Result<PeerReq, Fail> {
    Ok(PeerReq {
        from: NodeId(63),
        number: 1,
        epoch: Epoch(1),
        ask: PeerAsk::Write {
            key: Key {
                oid: Oid::object(Vid(16_777_215), 1_048_575),
                index: 30,
            },
            offset: 0,
            bytes: Bytes::from_vec(vec![in alloc; 7; 1_048_576]?),
        },
    })
}

/// The bytes of that request.
fn longest_spelling(alloc: Global) -> Result<Bytes, Fail> {
    let write = longest_write(alloc)?;
    Ok(encode_ask(alloc, &write)?)
}

// A body that gives up at a long piece would meet every contract.
#[test]
fn spells_a_piece_of_the_greatest_length(rt: HostRuntime) -> Result<(), Fail> {
    let spelled = longest_spelling(rt.alloc())?;
    assert_eq!(rt; spelled.as_slice().len(), 1_048_624);
    let Ok(read) = decode_ask(rt.alloc(), spelled.as_slice()) else {
        return Ok(assert!(rt; false, "not a request"));
    };
    assert!(rt;
        matches!(&read.ask, PeerAsk::Write { key, bytes, .. } if key.index == 30 && bytes.len() == 1_048_576)
    );
    Ok(())
}

/// A copy of the work to write an inode.
fn copied_write(alloc: Global) -> Result<ObjWork, Fail> {
    let work = ObjWork::Write {
        oid: Oid::inode(Vid(1)),
        policy: Policy::Copies(3),
        offset: 512,
        bytes: Bytes::from_slice(alloc, b"inode")?,
    };
    Ok(work.copy(alloc)?)
}

#[test]
fn copies_a_write(rt: HostRuntime) -> Result<(), Fail> {
    let copy = copied_write(rt.alloc())?;
    assert!(rt;
        matches!(&copy, ObjWork::Write { offset: 512, bytes, .. } if bytes.as_slice() == b"inode".as_slice())
    );
    assert_eq!(rt;
        (copy.oid(), copy.policy()),
        (Oid::inode(Vid(1)), Policy::Copies(3))
    );
    Ok(())
}

#[test]
fn copies_a_read(rt: HostRuntime) -> Result<(), Fail> {
    let all = ObjWork::ReadAll {
        oid: Oid::object(Vid(1), 3),
        policy: Policy::Copies(2),
        length: 4_096,
    };
    assert!(rt;
        matches!(
            &all.copy(rt.alloc())?,
            ObjWork::ReadAll { length: 4_096, .. }
        )
    );
    assert_eq!(rt;
        (all.oid(), all.policy()),
        (Oid::object(Vid(1), 3), Policy::Copies(2))
    );
    Ok(())
}

#[test]
fn copies_what_was_read(rt: HostRuntime) -> Result<(), Fail> {
    let done = WorkDone {
        req: 2,
        bytes: Bytes::from_slice(rt.alloc(), b"read")?,
    };
    assert_eq!(rt; done.copy(rt.alloc())?.bytes.as_slice(), b"read".as_slice());
    Ok(())
}

#[test]
fn copies_what_disks_are_asked(rt: HostRuntime) -> Result<(), Fail> {
    let ask = DiskAsk::Write {
        offset: 4096,
        bytes: Bytes::from_slice(rt.alloc(), b"disk")?,
    };
    let copy = ask.copy(rt.alloc())?;
    assert!(rt;
        matches!(&copy, DiskAsk::Write { offset: 4096, bytes } if bytes.as_slice() == b"disk".as_slice())
    );
    Ok(())
}

/// A copy of what opens a snapshot.
fn copied_attach(alloc: Global) -> Result<VdiAsk, Fail> {
    let tag = Bytes::from_slice(alloc, b"old")?;
    let ask = VdiAsk::Attach {
        name: Bytes::from_slice(alloc, b"vm")?,
        tag: Some(tag),
    };
    Ok(ask.copy(alloc)?)
}

#[test]
fn copies_what_guests_ask(rt: HostRuntime) -> Result<(), Fail> {
    let copy = copied_attach(rt.alloc())?;
    assert!(rt;
        matches!(&copy, VdiAsk::Attach { name, tag: Some(tag) } if name.as_slice() == b"vm".as_slice() && tag.as_slice() == b"old".as_slice())
    );
    assert!(rt; matches!(VdiAsk::Check.copy(rt.alloc())?, VdiAsk::Check));
    Ok(())
}

#[test]
fn copies_what_guests_are_told(rt: HostRuntime) -> Result<(), Fail> {
    let granted = GuestRsp::Granted { vid: Vid(7) };
    let copy = granted.copy(rt.alloc())?;
    assert!(rt; matches!(&copy, GuestRsp::Granted { vid: Vid(7) }));
    Ok(())
}

/// A copy of a check's answer, with one object that differed.
fn copied_check(alloc: Global) -> Result<GuestRsp, Fail> {
    let mut differed = OidList::new(alloc);
    differed.push(Oid::object(Vid(1), 0))?;
    let checked = GuestRsp::Checked(Checked {
        objects: 2,
        inherited: 1,
        differed,
    });
    Ok(checked.copy(alloc)?)
}

#[test]
fn copies_checks(rt: HostRuntime) -> Result<(), Fail> {
    let copy = copied_check(rt.alloc())?;
    assert!(rt;
        matches!(&copy, GuestRsp::Checked(Checked { objects: 2, inherited: 1, differed }) if differed.len() == 1)
    );
    Ok(())
}

const FAULTS: [PeerFault; 5] = [
    PeerFault::ShortHeader,
    PeerFault::VerMismatch,
    PeerFault::UnknownOpcode,
    PeerFault::BadField,
    PeerFault::NoMemory,
];

const FAULTS_TEXT: &str = "less than a header\n\
not this version\n\
no opcode of peer messages\n\
a field that no message has\n\
no memory\n";

/// What the faults say, a line each.
fn faults_text(alloc: Global) -> Result<String, Fail> {
    let mut text = String::new(alloc);
    for fault in FAULTS {
        text.push_str(format!(in alloc; "{fault}\n")?.as_str())?;
    }
    Ok(text)
}

#[test]
fn says_why_bytes_are_no_message(rt: HostRuntime) -> Result<(), Fail> {
    assert_eq!(rt; faults_text(rt.alloc())?.as_str(), FAULTS_TEXT);
    Ok(())
}
