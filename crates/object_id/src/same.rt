//! Whether two entries are the same, and what they are made of.
ghost use Rattle.std.specs.Prelude.{◌≡◌, ◌↔◌, IsTrue};
ghost use Rattle.std.specs.Cmp.Lexicographic.{pointwise};
ghost use Rattle.object_id.specs.Same.{is_same_tag, is_same_origin, is_same_member, is_same_entry};

use crate::bytes::Bytes;
use crate::entry::{Entry, MemberList, Origin};
use crate::same_entry::{
    is_clone, is_delete, is_format, is_join, is_leave, is_lock, is_publish, is_recovered,
    is_reserve, is_reweight, is_snapshot, is_unlock,
};

/// Whether both lists have the same members in the same order.
pub(crate) fn same_members(one: &MemberList, other: &MemberList) -> bool
    ensures value { result ≡ pointwise is_same_member one.now other.now }
    ensures exact { IsTrue result ↔ (one.now ≡ other.now) }
{
    one.as_slice() == other.as_slice()
}

impl Bytes {
    /// Whether both hold the same bytes, or neither any.
    #[tactic(auto, using(crate::proofs::SameLemmas::tags_decided))]
    pub fn same_option(one: &Option<Bytes>, other: &Option<Bytes>) -> bool
        ensures value { result ≡ is_same_tag one.now other.now }
        ensures exact { IsTrue result ↔ (one.now ≡ other.now) }
    {
        match (one, other) {
            (Some(bytes), Some(others)) => bytes.same(others),
            (None, None) => true,
            _ => false,
        }
    }
}

impl Origin {
    /// Whether both are the same.
    #[tactic(auto, using(crate::proofs::SameLemmas::origins_decided))]
    pub fn same(&self, other: &Origin) -> bool
        ensures value { result ≡ is_same_origin self.now other.now }
        ensures exact { IsTrue result ↔ (self.now ≡ other.now) }
    {
        match (self, other) {
            (Origin::Fresh { spec }, Origin::Fresh { spec: wanted }) => spec == wanted,
            (Origin::SnapshotOf { tag }, Origin::SnapshotOf { tag: label }) => tag.same(label),
            (
                Origin::CloneOf { base, tag },
                Origin::CloneOf {
                    base: name,
                    tag: label,
                },
            ) => { base.same(name) && tag.same(label) }
            _ => false,
        }
    }
}

impl Entry {
    /// Whether both are the same entry.
    #[tactic(auto, using(crate::proofs::SameLemmas::entries_decided))]
    pub fn same(&self, other: &Entry) -> bool
        ensures value { result ≡ is_same_entry self.now other.now }
        ensures exact { IsTrue result ↔ (self.now ≡ other.now) }
    {
        self.has_fields_of(other)
    }

    /// Whether both are of one kind, with the same fields.
    fn has_fields_of(&self, other: &Entry) -> bool
        ensures { result ≡ is_same_entry self.now other.now }
    {
        match self {
            Entry::Format { members } => is_format(members, other),
            Entry::Join { node, zone, vnodes } => is_join(*node, *zone, *vnodes, other),
            Entry::Leave { node } => is_leave(*node, other),
            Entry::Reweight { node, vnodes } => is_reweight(*node, *vnodes, other),
            Entry::Recovered { node, epoch } => is_recovered(*node, *epoch, other),
            Entry::Reserve {
                by,
                session,
                name,
                origin,
            } => is_reserve(*by, *session, name, origin, other),
            Entry::Publish { by, vid } => is_publish(*by, *vid, other),
            Entry::Clone { by, vid } => is_clone(*by, *vid, other),
            Entry::Snapshot { by, old, vid } => is_snapshot(*by, *old, *vid, other),
            Entry::Delete {
                by,
                session,
                name,
                tag,
            } => is_delete(*by, *session, name, tag, other),
            Entry::Lock {
                by,
                session,
                name,
                tag,
            } => is_lock(*by, *session, name, tag, other),
            Entry::Unlock { by, session, vid } => is_unlock(*by, *session, *vid, other),
        }
    }
}
