//! Whether an entry is the one of its kind with given fields, a kind at a time.
ghost use Rattle.std.specs.Prelude.{◌≡◌};
ghost use Rattle.object_id.specs.declared.entry.Entry.TheVariants as entries;
ghost use Rattle.object_id.specs.Same.{is_same_entry};

use crate::bytes::Bytes;
use crate::entry::{Entry, MemberList, Origin};
use crate::node::{Epoch, NodeId};
use crate::oid::Vid;
use crate::same::same_members;

/// Whether the entry is the `Format` of these members.
pub(crate) fn is_format(members: &MemberList, entry: &Entry) -> bool
    ensures { result ≡ is_same_entry (entries.Format members.now) entry.now }
{
    match entry {
        Entry::Format { members: others } => same_members(members, others),
        _ => false,
    }
}

/// Whether the entry is the `Join` of this node, in this zone, with this weight.
pub(crate) fn is_join(node: NodeId, zone: u32, vnodes: u16, entry: &Entry) -> bool
    ensures { result ≡ is_same_entry (entries.Join node zone vnodes) entry.now }
{
    match entry {
        Entry::Join {
            node: other,
            zone: place,
            vnodes: weight,
        } => node == *other && zone == *place && vnodes == *weight,
        _ => false,
    }
}

/// Whether the entry is the `Leave` of this node.
pub(crate) fn is_leave(node: NodeId, entry: &Entry) -> bool
    ensures { result ≡ is_same_entry (entries.Leave node) entry.now }
{
    match entry {
        Entry::Leave { node: other } => node == *other,
        _ => false,
    }
}

/// Whether the entry is the `Reweight` of this node to this weight.
pub(crate) fn is_reweight(node: NodeId, vnodes: u16, entry: &Entry) -> bool
    ensures { result ≡ is_same_entry (entries.Reweight node vnodes) entry.now }
{
    match entry {
        Entry::Reweight {
            node: other,
            vnodes: weight,
        } => node == *other && vnodes == *weight,
        _ => false,
    }
}

/// Whether the entry is the `Recovered` of this node in this epoch.
pub(crate) fn is_recovered(node: NodeId, epoch: Epoch, entry: &Entry) -> bool
    ensures { result ≡ is_same_entry (entries.Recovered node epoch) entry.now }
{
    match entry {
        Entry::Recovered {
            node: other,
            epoch: level,
        } => node == *other && epoch == *level,
        _ => false,
    }
}

/// Whether the entry is this session's `Reserve` of this name, for a disk made from this.
pub(crate) fn is_reserve(
    by: NodeId,
    session: u32,
    name: &Bytes,
    origin: &Origin,
    entry: &Entry,
) -> bool
    ensures { result ≡ is_same_entry (entries.Reserve by session name.now origin.now) entry.now }
{
    match entry {
        Entry::Reserve {
            by: node,
            session: number,
            name: text,
            origin: source,
        } => by == *node && session == *number && name.same(text) && origin.same(source),
        _ => false,
    }
}

/// Whether the entry is this node's `Publish` of this disk.
pub(crate) fn is_publish(by: NodeId, vid: Vid, entry: &Entry) -> bool
    ensures { result ≡ is_same_entry (entries.Publish by vid) entry.now }
{
    match entry {
        Entry::Publish { by: node, vid: id } => by == *node && vid == *id,
        _ => false,
    }
}

/// Whether the entry is this node's `Clone` of this disk.
pub(crate) fn is_clone(by: NodeId, vid: Vid, entry: &Entry) -> bool
    ensures { result ≡ is_same_entry (entries.Clone by vid) entry.now }
{
    match entry {
        Entry::Clone { by: node, vid: id } => by == *node && vid == *id,
        _ => false,
    }
}

/// Whether the entry is this node's `Snapshot` of the disk `old`, which goes on as `vid`.
pub(crate) fn is_snapshot(by: NodeId, old: Vid, vid: Vid, entry: &Entry) -> bool
    ensures { result ≡ is_same_entry (entries.Snapshot by old vid) entry.now }
{
    match entry {
        Entry::Snapshot {
            by: node,
            old: before,
            vid: id,
        } => by == *node && old == *before && vid == *id,
        _ => false,
    }
}

/// Whether the entry is this session's `Delete` of the disk with this name, or with a tag of that snapshot.
pub(crate) fn is_delete(
    by: NodeId,
    session: u32,
    name: &Bytes,
    tag: &Option<Bytes>,
    entry: &Entry,
) -> bool
    ensures { result ≡ is_same_entry (entries.Delete by session name.now tag.now) entry.now }
{
    match entry {
        Entry::Delete {
            by: node,
            session: number,
            name: text,
            tag: label,
        } => by == *node && session == *number && name.same(text) && Bytes::same_option(tag, label),
        _ => false,
    }
}

/// Whether the entry is this session's `Lock` of the disk with this name, or with a tag of that snapshot.
pub(crate) fn is_lock(
    by: NodeId,
    session: u32,
    name: &Bytes,
    tag: &Option<Bytes>,
    entry: &Entry,
) -> bool
    ensures { result ≡ is_same_entry (entries.Lock by session name.now tag.now) entry.now }
{
    match entry {
        Entry::Lock {
            by: node,
            session: number,
            name: text,
            tag: label,
        } => by == *node && session == *number && name.same(text) && Bytes::same_option(tag, label),
        _ => false,
    }
}

/// Whether the entry is this session's `Unlock` of this disk.
pub(crate) fn is_unlock(by: NodeId, session: u32, vid: Vid, entry: &Entry) -> bool
    ensures { result ≡ is_same_entry (entries.Unlock by session vid) entry.now }
{
    match entry {
        Entry::Unlock {
            by: node,
            session: number,
            vid: id,
        } => by == *node && session == *number && vid == *id,
        _ => false,
    }
}
