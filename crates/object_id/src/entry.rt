ghost use Rattle.std.specs.Prelude.{◌≡◌, ◌↔◌, IfOk, IsTrue};
ghost use Rattle.object_id.specs.Spec.{IsSpec, IsOrigin};

use crate::bytes::Bytes;
use crate::items::{Duplicate, Items};
use crate::limits::{BLOCK_BYTES, OBJECTS_MAX, SHIFT_MAX, SHIFT_MIN};
use crate::memory::NoMemory;
use crate::name::is_name;
use crate::node::{Epoch, NodeId};
use crate::oid::Vid;
use crate::policy::Policy;
use std::alloc::Global;

/// A member of an epoch: in which zone it stands, and its weight, the number of its virtual nodes.
#[derive(Clone, Copy, Debug, PartialEq, Eq)]
pub struct Member {
    pub node: NodeId,
    pub zone: u32,
    pub vnodes: u16,
}

/// What a disk is made with: its size in bytes, its policy, and the size of its data objects, 2^shift bytes.
#[derive(Clone, Copy, Debug, PartialEq, Eq)]
pub struct VdiSpec {
    pub size: u64,
    pub policy: Policy,
    pub shift: u8,
}

impl VdiSpec {
    /// Whether a disk may be made so: a policy, objects of a size that they may have, and a size in whole blocks that
    /// at most as many objects hold as a disk may have.
    pub fn is_valid(self) -> bool
        ensures { IsTrue result ↔ IsSpec self }
    {
        if self.shift < SHIFT_MIN || SHIFT_MAX < self.shift {
            return false;
        }
        let block = u64::from(BLOCK_BYTES);
        let most = u64::from(OBJECTS_MAX) * (1 << self.shift);
        if self.size < block || most < self.size || self.size % block != 0 {
            return false;
        }
        self.policy.is_valid()
    }
}

pub type NodeList = Items<NodeId>;

pub type MemberList = Items<Member>;

impl Duplicate for NodeId {
    fn duplicate(&self, _alloc: Global) -> Result<Self, NoMemory> {
        Ok(*self)
    }
}

impl Duplicate for Member {
    fn duplicate(&self, _alloc: Global) -> Result<Self, NoMemory> {
        Ok(*self)
    }
}

/// What a new disk is made from.
#[derive(Debug)]
pub enum Origin {
    Fresh { spec: VdiSpec },
    SnapshotOf { tag: Bytes },
    CloneOf { base: Bytes, tag: Bytes },
}

/// Written out, so that letting one go is one call wherever it is done, and no cases there.
impl Drop for Origin {
    fn drop(self) {
        match self {
            Origin::Fresh { spec: _ } => {}
            Origin::SnapshotOf { tag } => drop(tag),
            Origin::CloneOf { base, tag } => {
                drop(base);
                drop(tag);
            }
        }
    }
}

impl Origin {
    /// Whether a disk may be made from this: a spec that is valid, and a name and a tag that are such.
    pub fn is_valid(&self) -> bool
        ensures { IsTrue result ↔ IsOrigin self.now }
    {
        match self {
            Origin::Fresh { spec } => spec.is_valid(),
            Origin::SnapshotOf { tag } => is_name(tag.as_slice()),
            Origin::CloneOf { base, tag } => is_name(base.as_slice()) && is_name(tag.as_slice()),
        }
    }

    pub fn copy(&self, alloc: Global) -> Result<Self, NoMemory>
        ensures { IfOk result (λ copy. copy ≡ self.now) }
    {
        Ok(match self {
            Origin::Fresh { spec } => Origin::Fresh { spec: *spec },
            Origin::SnapshotOf { tag } => Origin::SnapshotOf {
                tag: tag.copy(alloc)?,
            },
            Origin::CloneOf { base, tag } => Origin::CloneOf {
                base: base.copy(alloc)?,
                tag: tag.copy(alloc)?,
            },
        })
    }
}

/// An entry of the membership log. `by` is the node that put it.
#[derive(Debug)]
pub enum Entry {
    /// The opening members; the log's first entry and no other.
    Format {
        members: MemberList,
    },
    Join {
        node: NodeId,
        zone: u32,
        vnodes: u16,
    },
    Leave {
        node: NodeId,
    },
    Reweight {
        node: NodeId,
        vnodes: u16,
    },
    /// The node has recovered what it keeps in this epoch.
    Recovered {
        node: NodeId,
        epoch: Epoch,
    },
    Reserve {
        by: NodeId,
        session: u32,
        name: Bytes,
        origin: Origin,
    },
    Publish {
        by: NodeId,
        vid: Vid,
    },
    Clone {
        by: NodeId,
        vid: Vid,
    },
    Snapshot {
        by: NodeId,
        old: Vid,
        vid: Vid,
    },
    Delete {
        by: NodeId,
        session: u32,
        name: Bytes,
        tag: Option<Bytes>,
    },
    Lock {
        by: NodeId,
        session: u32,
        name: Bytes,
        tag: Option<Bytes>,
    },
    Unlock {
        by: NodeId,
        session: u32,
        vid: Vid,
    },
}

/// Written out, so that letting one go is one call wherever it is done, and no cases there.
impl Drop for Entry {
    fn drop(self) {
        match self {
            Entry::Format { members } => drop(members),
            Entry::Join {
                node: _,
                zone: _,
                vnodes: _,
            } => {}
            Entry::Leave { node: _ } => {}
            Entry::Reweight { node: _, vnodes: _ } => {}
            Entry::Recovered { node: _, epoch: _ } => {}
            Entry::Reserve {
                by: _,
                session: _,
                name,
                origin,
            } => {
                drop(name);
                drop(origin);
            }
            Entry::Publish { by: _, vid: _ } => {}
            Entry::Clone { by: _, vid: _ } => {}
            Entry::Snapshot {
                by: _,
                old: _,
                vid: _,
            } => {}
            Entry::Delete {
                by: _,
                session: _,
                name,
                tag,
            } => {
                drop(name);
                drop(tag);
            }
            Entry::Lock {
                by: _,
                session: _,
                name,
                tag,
            } => {
                drop(name);
                drop(tag);
            }
            Entry::Unlock {
                by: _,
                session: _,
                vid: _,
            } => {}
        }
    }
}

impl Entry {
    pub fn copy(&self, alloc: Global) -> Result<Self, NoMemory>
        ensures { IfOk result (λ copy. copy ≡ self.now) }
    {
        Ok(match self {
            Entry::Format { members } => Entry::Format {
                members: members.copy(alloc)?,
            },
            &Entry::Join { node, zone, vnodes } => Entry::Join { node, zone, vnodes },
            &Entry::Leave { node } => Entry::Leave { node },
            &Entry::Reweight { node, vnodes } => Entry::Reweight { node, vnodes },
            &Entry::Recovered { node, epoch } => Entry::Recovered { node, epoch },
            Entry::Reserve {
                by,
                session,
                name,
                origin,
            } => Entry::Reserve {
                by: *by,
                session: *session,
                name: name.copy(alloc)?,
                origin: origin.copy(alloc)?,
            },
            &Entry::Publish { by, vid } => Entry::Publish { by, vid },
            &Entry::Clone { by, vid } => Entry::Clone { by, vid },
            &Entry::Snapshot { by, old, vid } => Entry::Snapshot { by, old, vid },
            Entry::Delete {
                by,
                session,
                name,
                tag,
            } => Entry::Delete {
                by: *by,
                session: *session,
                name: name.copy(alloc)?,
                tag: Bytes::copy_option(alloc, tag)?,
            },
            Entry::Lock {
                by,
                session,
                name,
                tag,
            } => Entry::Lock {
                by: *by,
                session: *session,
                name: name.copy(alloc)?,
                tag: Bytes::copy_option(alloc, tag)?,
            },
            &Entry::Unlock { by, session, vid } => Entry::Unlock { by, session, vid },
        })
    }
}

impl Duplicate for Entry {
    fn duplicate(&self, alloc: Global) -> Result<Self, NoMemory> {
        self.copy(alloc)
    }
}
