ghost use Rattle.std.specs.Prelude.{◌≡◌, ℕ, ◌<◌, ◌↔◌, IfOk, IsErrOf, IsTrue};
ghost use Rattle.object_id.specs.Oid.{IsOid, IsVid, HasReservedBit, IsFreeOfReserved, vid_of, index_of, kind_of, inode_number};
ghost use Rattle.object_id.specs.Oid.{object_number};

use crate::items::Duplicate;
use crate::limits::{OBJECTS_MAX, VID_MAX};
use crate::memory::NoMemory;
use std::alloc::Global;
use std::marker::Model;

/// The id of a disk, a snapshot or a clone: 1 to [`VID_MAX`].
#[derive(Clone, Copy, Debug, PartialEq, Eq, PartialOrd, Ord)]
pub struct Vid(pub u32);

impl Vid {
    /// Whether the number is a disk's id.
    pub fn is_valid(self) -> bool
        ensures { IsTrue result ↔ IsVid self.0 }
    {
        1 <= self.0 && self.0 <= VID_MAX
    }
}

/// What an object has: blocks of the disk, or the disk's inode.
#[derive(Clone, Copy, Debug, PartialEq, Eq)]
pub enum Kind {
    Block,
    Inode,
}

/// Why a number isn't an object id.
#[derive(Clone, Copy, Debug, PartialEq, Eq)]
pub enum OidFault {
    /// One of bits 20 to 31 or 56 to 62 is set, or bit 63 with one of bits 0 to 19.
    ReservedBits,
    /// No reserved bit is set, and the disk's id is 0.
    ZeroVid,
}

/// The id of an object: the index of a data object in bits 0 to 19, the disk's id in bits 32 to 55, and bit 63
/// for the disk's inode, which has index 0. Contracts see it as its number.
#[derive(Clone, Copy, Debug, PartialEq, Eq, PartialOrd, Ord)]
pub struct Oid {
    raw: u64,
}

impl Model for Oid {
    ghost use Rattle.std.specs.Prelude.{ℕ};
    ghost use Rattle.object_id.specs.Oid.{IsOid};

    ghost Value = { ℕ };

    ghost view = { λ o. o.raw };

    ghost invariant = { λ o. IsOid o.raw };

    ghost inverse = { λ raw. record { raw = raw } };
}

impl Duplicate for Oid {
    fn duplicate(&self, _alloc: Global) -> Result<Self, NoMemory> {
        Ok(*self)
    }
}

impl Oid {
    /// The inode object of a disk.
    pub fn inode(vid: Vid) -> Self
        requires { IsVid vid.0 }
        ensures { result ≡ inode_number vid.0 }
    {
        Oid {
            raw: (1 << 63) + (u64::from(vid.0) << 32),
        }
    }

    /// The data object `index` of a disk, from 0.
    pub fn object(vid: Vid, index: u32) -> Self
        requires vid { IsVid vid.0 }
        requires index { index < OBJECTS_MAX }
        ensures { result ≡ object_number vid.0 index }
    {
        Oid {
            raw: (u64::from(vid.0) << 32) + u64::from(index),
        }
    }

    pub fn kind(self) -> Kind
        ensures { result ≡ kind_of self }
    {
        if self.raw >> 63 == 1 {
            Kind::Inode
        } else {
            Kind::Block
        }
    }

    pub fn vid(self) -> Vid
        ensures value { result.0 ≡ vid_of self }
        ensures valid { IsVid result.0 }
    {
        Vid(((self.raw >> 32) & 0xff_ffff) as u32)
    }

    /// The place of a data object in its disk; 0 of an inode.
    pub fn index(self) -> u32
        ensures value { result ≡ index_of self }
        ensures within { result < OBJECTS_MAX }
    {
        (self.raw & 0xf_ffff) as u32
    }

    pub fn as_u64(self) -> u64
        ensures value { result ≡ self }
        ensures valid { IsOid result }
    {
        self.raw
    }

    /// The object id that a number spells.
    pub fn from_u64(raw: u64) -> Result<Self, OidFault>
        ensures ok { IfOk result (λ oid. oid ≡ raw) }
        // Each id is its own spelling, and it is read.
        ensures only { IsOid raw → result ≡ Ok raw }

        ensures reserved { IsErrOf result OidFault.ReservedBits ↔ HasReservedBit raw }
        ensures zero { IsErrOf result OidFault.ZeroVid ↔ (IsFreeOfReserved raw × (vid_of raw ≡ 0)) }
    {
        let has_reserved = (raw >> 20) & 0xfff != 0
            || (raw >> 56) & 0x7f != 0
            || (raw >> 63 == 1 && raw & 0xf_ffff != 0);
        if has_reserved {
            return Err(OidFault::ReservedBits);
        }
        if (raw >> 32) & 0xff_ffff == 0 {
            return Err(OidFault::ZeroVid);
        }
        Ok(Oid { raw })
    }
}
