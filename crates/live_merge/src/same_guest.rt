//! Whether two asks of guests are the same, or what they are answered.

ghost use Rattle.std.specs.Prelude.{◌≡◌, ◌↔◌, IsTrue};

use crate::same_message::same_ids;
use object_id::Bytes;
use peer_proto::{Checked, DiskAsk, GuestRsp, ObjWork, VdiAsk};

/// Whether both ask the same of a disk.
pub(crate) fn same_disk_ask(one: &DiskAsk, other: &DiskAsk) -> bool
    ensures { IsTrue result ↔ (one.now ≡ other.now) }
{
    match (one, other) {
        (
            DiskAsk::Read { offset, length },
            DiskAsk::Read {
                offset: from,
                length: count,
            },
        ) => offset == from && length == count,
        (
            DiskAsk::Write { offset, bytes },
            DiskAsk::Write {
                offset: from,
                bytes: written,
            },
        ) => offset == from && bytes.same(written),
        _ => false,
    }
}

/// Whether both are the same command on disks.
pub(crate) fn same_vdi_ask(one: &VdiAsk, other: &VdiAsk) -> bool
    ensures { IsTrue result ↔ (one.now ≡ other.now) }
{
    match (one, other) {
        (
            VdiAsk::Create { name, spec },
            VdiAsk::Create {
                name: named,
                spec: wanted,
            },
        ) => name.same(named) && spec == wanted,
        (
            VdiAsk::Attach { name, tag },
            VdiAsk::Attach {
                name: named,
                tag: label,
            },
        ) => name.same(named) && Bytes::same_option(tag, label),
        (VdiAsk::Close, VdiAsk::Close) => true,
        (VdiAsk::Snapshot { tag }, VdiAsk::Snapshot { tag: label }) => tag.same(label),
        (
            VdiAsk::Clone { base, tag, name },
            VdiAsk::Clone {
                base: source,
                tag: label,
                name: named,
            },
        ) => base.same(source) && tag.same(label) && name.same(named),
        (
            VdiAsk::Delete { name, tag },
            VdiAsk::Delete {
                name: named,
                tag: label,
            },
        ) => name.same(named) && Bytes::same_option(tag, label),
        (VdiAsk::Check, VdiAsk::Check) => true,
        _ => false,
    }
}

/// Whether both are the same work.
pub(crate) fn same_work(one: &ObjWork, other: &ObjWork) -> bool
    ensures { IsTrue result ↔ (one.now ≡ other.now) }
{
    match (one, other) {
        (
            ObjWork::Create {
                oid,
                policy,
                length,
                offset,
                bytes,
            },
            ObjWork::Create {
                oid: object,
                policy: rule,
                length: size,
                offset: from,
                bytes: written,
            },
        ) => {
            oid == object
                && policy == rule
                && length == size
                && offset == from
                && bytes.same(written)
        }
        (
            ObjWork::Write {
                oid,
                policy,
                offset,
                bytes,
            },
            ObjWork::Write {
                oid: object,
                policy: rule,
                offset: from,
                bytes: written,
            },
        ) => oid == object && policy == rule && offset == from && bytes.same(written),
        (
            ObjWork::Read {
                oid,
                policy,
                offset,
                length,
            },
            ObjWork::Read {
                oid: object,
                policy: rule,
                offset: from,
                length: count,
            },
        ) => oid == object && policy == rule && offset == from && length == count,
        (
            ObjWork::ReadAll {
                oid,
                policy,
                length,
            },
            ObjWork::ReadAll {
                oid: object,
                policy: rule,
                length: size,
            },
        ) => oid == object && policy == rule && length == size,
        _ => false,
    }
}

fn same_checked(one: &Checked, other: &Checked) -> bool
    ensures { IsTrue result ↔ (one.now ≡ other.now) }
{
    one.objects == other.objects
        && one.inherited == other.inherited
        && same_ids(one.differed.as_slice(), other.differed.as_slice())
}

/// Whether both are the same reply to a guest.
pub(crate) fn same_answer(one: &GuestRsp, other: &GuestRsp) -> bool
    ensures { IsTrue result ↔ (one.now ≡ other.now) }
{
    match (one, other) {
        (GuestRsp::Done, GuestRsp::Done) => true,
        (GuestRsp::Piece(bytes), GuestRsp::Piece(others)) => bytes.same(others),
        (GuestRsp::Refused(cause), GuestRsp::Refused(other)) => cause == other,
        (GuestRsp::Granted { vid }, GuestRsp::Granted { vid: other }) => vid == other,
        (GuestRsp::Checked(checked), GuestRsp::Checked(other)) => same_checked(checked, other),
        _ => false,
    }
}
