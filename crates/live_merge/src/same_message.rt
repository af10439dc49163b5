//! Whether two messages between nodes are the same.

ghost use Rattle.std.specs.Prelude.{◌≡◌, ◌↔◌, IsTrue};

use object_id::Oid;
use object_store::RowCopy;
use peer_proto::{PeerAsk, PeerReq, PeerRsp, PeerSay};

fn same_peer_ask(one: &PeerAsk, other: &PeerAsk) -> bool
    ensures { IsTrue result ↔ (one.now ≡ other.now) }
{
    match (one, other) {
        (
            PeerAsk::Create {
                key,
                length,
                offset,
                bytes,
            },
            PeerAsk::Create {
                key: place,
                length: size,
                offset: from,
                bytes: written,
            },
        ) => key == place && length == size && offset == from && bytes.same(written),
        (
            PeerAsk::Write { key, offset, bytes },
            PeerAsk::Write {
                key: place,
                offset: from,
                bytes: written,
            },
        ) => key == place && offset == from && bytes.same(written),
        (
            PeerAsk::Read {
                key,
                offset,
                length,
            },
            PeerAsk::Read {
                key: place,
                offset: from,
                length: count,
            },
        ) => key == place && offset == from && length == count,
        (PeerAsk::List, PeerAsk::List) => true,
        (
            PeerAsk::RecoverRead { oid, level },
            PeerAsk::RecoverRead {
                oid: object,
                level: epoch,
            },
        ) => oid == object && level == epoch,
        _ => false,
    }
}

/// Whether both are the same request.
pub(crate) fn same_request(one: &PeerReq, other: &PeerReq) -> bool
    ensures { IsTrue result ↔ (one.now ≡ other.now) }
{
    one.from == other.from
        && one.number == other.number
        && one.epoch == other.epoch
        && same_peer_ask(&one.ask, &other.ask)
}

/// Whether both lists have the same ids in the same order.
pub(crate) fn same_ids(one: &[Oid], other: &[Oid]) -> bool
    ensures { IsTrue result ↔ (one.now ≡ other.now) }
{
    if one.len() != other.len() {
        return false;
    }
    for place in 0..one.len() {
        if one[place] != other[place] {
            return false;
        }
    }
    true
}

fn same_row(one: &RowCopy, other: &RowCopy) -> bool
    ensures { IsTrue result ↔ (one.now ≡ other.now) }
{
    one.index == other.index
        && one.from == other.from
        && one.to == other.to
        && one.length == other.length
        && one.bytes.same(&other.bytes)
}

fn same_say(one: &PeerSay, other: &PeerSay) -> bool
    ensures { IsTrue result ↔ (one.now ≡ other.now) }
{
    match (one, other) {
        (PeerSay::Success, PeerSay::Success) => true,
        (PeerSay::Piece(bytes), PeerSay::Piece(others)) => bytes.same(others),
        (PeerSay::Objects(list), PeerSay::Objects(others)) => {
            same_ids(list.as_slice(), others.as_slice())
        }
        (PeerSay::Row(row), PeerSay::Row(copy)) => same_row(row, copy),
        (PeerSay::NoRow, PeerSay::NoRow) => true,
        (PeerSay::Refused(refusal), PeerSay::Refused(other)) => refusal == other,
        _ => false,
    }
}

/// Whether both are the same reply.
pub(crate) fn same_reply(one: &PeerRsp, other: &PeerRsp) -> bool
    ensures { IsTrue result ↔ (one.now ≡ other.now) }
{
    one.number == other.number && one.epoch == other.epoch && same_say(&one.say, &other.say)
}
