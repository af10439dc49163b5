ghost use Rattle.std.specs.Prelude.{◌≡◌, IfOk};

use object_id::{Bytes, Cause, Duplicate, NoMemory, VdiSpec, Vid};
use object_store::OidList;
use std::alloc::Global;

/// What a guest asks of its open disk.
#[derive(Debug, Drop)]
pub enum DiskAsk {
    Read { offset: u64, length: u32 },
    Write { offset: u64, bytes: Bytes },
}

impl DiskAsk {
    pub fn copy(&self, alloc: Global) -> Result<Self, NoMemory>
        ensures { IfOk result (λ copy. copy ≡ self.now) }
    {
        Ok(match self {
            DiskAsk::Read { offset, length } => DiskAsk::Read {
                offset: *offset,
                length: *length,
            },
            DiskAsk::Write { offset, bytes } => DiskAsk::Write {
                offset: *offset,
                bytes: bytes.copy(alloc)?,
            },
        })
    }
}

/// A command on disks.
#[derive(Debug, Drop)]
pub enum VdiAsk {
    Create {
        name: Bytes,
        spec: VdiSpec,
    },
    /// Open a disk, or with a tag a snapshot.
    Attach {
        name: Bytes,
        tag: Option<Bytes>,
    },
    Close,
    Snapshot {
        tag: Bytes,
    },
    Clone {
        base: Bytes,
        tag: Bytes,
        name: Bytes,
    },
    Delete {
        name: Bytes,
        tag: Option<Bytes>,
    },
    /// Read all copies of each own object of the open disk, and write one value back.
    Check,
}

impl VdiAsk {
    pub fn copy(&self, alloc: Global) -> Result<Self, NoMemory>
        ensures { IfOk result (λ copy. copy ≡ self.now) }
    {
        Ok(match self {
            VdiAsk::Create { name, spec } => VdiAsk::Create {
                name: name.copy(alloc)?,
                spec: *spec,
            },
            VdiAsk::Attach { name, tag } => VdiAsk::Attach {
                name: name.copy(alloc)?,
                tag: Bytes::copy_option(alloc, tag)?,
            },
            VdiAsk::Close => VdiAsk::Close,
            VdiAsk::Snapshot { tag } => VdiAsk::Snapshot {
                tag: tag.copy(alloc)?,
            },
            VdiAsk::Clone { base, tag, name } => VdiAsk::Clone {
                base: base.copy(alloc)?,
                tag: tag.copy(alloc)?,
                name: name.copy(alloc)?,
            },
            VdiAsk::Delete { name, tag } => VdiAsk::Delete {
                name: name.copy(alloc)?,
                tag: Bytes::copy_option(alloc, tag)?,
            },
            VdiAsk::Check => VdiAsk::Check,
        })
    }
}

/// What the check of a disk found.
#[derive(Debug)]
pub struct Checked {
    /// How many objects are the disk's own; each was read at every target, and written back.
    pub objects: u32,
    /// How many entries of its table name another disk's object; these weren't looked at.
    pub inherited: u32,
    /// The own objects whose copies differed, ascending.
    pub differed: OidList,
}

/// Written out, so that letting one go is one call wherever it is done, and no cases there.
impl Drop for Checked {
    fn drop(self) {
        let Checked {
            objects: _,
            inherited: _,
            differed,
        } = self;
        drop(differed);
    }
}

impl Checked {
    pub fn copy(&self, alloc: Global) -> Result<Self, NoMemory>
        ensures { IfOk result (λ copy. copy ≡ self.now) }
    {
        Ok(Checked {
            objects: self.objects,
            inherited: self.inherited,
            differed: self.differed.copy(alloc)?,
        })
    }
}

/// The reply to a guest.
#[derive(Debug)]
pub enum GuestRsp {
    Done,
    /// What a read gives.
    Piece(Bytes),
    Refused(Cause),
    /// The disk that a lock was granted on.
    Granted { vid: Vid },
    Checked(Checked),
}

/// Written out, so that letting one go is one call wherever it is done, and no cases there.
impl Drop for GuestRsp {
    fn drop(self) {
        match self {
            GuestRsp::Done => {}
            GuestRsp::Piece(value) => drop(value),
            GuestRsp::Refused(_) => {}
            GuestRsp::Granted { vid: _ } => {}
            GuestRsp::Checked(value) => drop(value),
        }
    }
}

impl GuestRsp {
    pub fn copy(&self, alloc: Global) -> Result<Self, NoMemory>
        ensures { IfOk result (λ copy. copy ≡ self.now) }
    {
        Ok(match self {
            GuestRsp::Done => GuestRsp::Done,
            GuestRsp::Piece(bytes) => GuestRsp::Piece(bytes.copy(alloc)?),
            GuestRsp::Refused(cause) => GuestRsp::Refused(*cause),
            GuestRsp::Granted { vid } => GuestRsp::Granted { vid: *vid },
            GuestRsp::Checked(checked) => GuestRsp::Checked(checked.copy(alloc)?),
        })
    }
}

impl Duplicate for GuestRsp {
    fn duplicate(&self, alloc: Global) -> Result<Self, NoMemory> {
        self.copy(alloc)
    }
}
