ghost use Rattle.std.specs.Prelude.{◌≡◌, IfOk};
ghost use Rattle.peer_proto.specs.Work.{oid_of, policy_of};

use object_id::{Bytes, NoMemory, Oid, Policy};
use std::alloc::Global;

/// One work on one object, which a gateway does by attempts.
#[derive(Debug)]
pub enum ObjWork {
    /// Make the object: `length` bytes, the piece from `offset` on and else zeros.
    Create {
        oid: Oid,
        policy: Policy,
        length: u32,
        offset: u32,
        bytes: Bytes,
    },
    /// Lay the piece over the object.
    Write {
        oid: Oid,
        policy: Policy,
        offset: u32,
        bytes: Bytes,
    },
    Read {
        oid: Oid,
        policy: Policy,
        offset: u32,
        length: u32,
    },
    /// What every target keeps of the object's first `length` bytes.
    ReadAll {
        oid: Oid,
        policy: Policy,
        length: u32,
    },
}

/// Written out, so that letting one go is one call wherever it is done, and no cases there.
impl Drop for ObjWork {
    fn drop(self) {
        match self {
            ObjWork::Create {
                oid: _,
                policy: _,
                length: _,
                offset: _,
                bytes,
            } => drop(bytes),
            ObjWork::Write {
                oid: _,
                policy: _,
                offset: _,
                bytes,
            } => drop(bytes),
            ObjWork::Read {
                oid: _,
                policy: _,
                offset: _,
                length: _,
            } => {}
            ObjWork::ReadAll {
                oid: _,
                policy: _,
                length: _,
            } => {}
        }
    }
}

impl ObjWork {
    /// The object that the work is on.
    pub fn oid(&self) -> Oid
        ensures { result ≡ oid_of self.now }
    {
        match self {
            ObjWork::Create { oid, .. } => *oid,
            ObjWork::Write { oid, .. } => *oid,
            ObjWork::Read { oid, .. } => *oid,
            ObjWork::ReadAll { oid, .. } => *oid,
        }
    }

    /// The policy of the object's disk.
    pub fn policy(&self) -> Policy
        ensures { result ≡ policy_of self.now }
    {
        match self {
            ObjWork::Create { policy, .. } => *policy,
            ObjWork::Write { policy, .. } => *policy,
            ObjWork::Read { policy, .. } => *policy,
            ObjWork::ReadAll { policy, .. } => *policy,
        }
    }

    pub fn copy(&self, alloc: Global) -> Result<Self, NoMemory>
        ensures { IfOk result (λ copy. copy ≡ self.now) }
    {
        Ok(match self {
            ObjWork::Create {
                oid,
                policy,
                length,
                offset,
                bytes,
            } => ObjWork::Create {
                oid: *oid,
                policy: *policy,
                length: *length,
                offset: *offset,
                bytes: bytes.copy(alloc)?,
            },
            ObjWork::Write {
                oid,
                policy,
                offset,
                bytes,
            } => ObjWork::Write {
                oid: *oid,
                policy: *policy,
                offset: *offset,
                bytes: bytes.copy(alloc)?,
            },
            ObjWork::Read {
                oid,
                policy,
                offset,
                length,
            } => ObjWork::Read {
                oid: *oid,
                policy: *policy,
                offset: *offset,
                length: *length,
            },
            ObjWork::ReadAll {
                oid,
                policy,
                length,
            } => ObjWork::ReadAll {
                oid: *oid,
                policy: *policy,
                length: *length,
            },
        })
    }
}

/// A request's work that is done, with the bytes of a read, or the pieces of all targets in their order one behind the
/// other; of any other work they are empty.
#[derive(Debug, Drop)]
pub struct WorkDone {
    pub req: u32,
    pub bytes: Bytes,
}

impl WorkDone {
    pub fn copy(&self, alloc: Global) -> Result<Self, NoMemory>
        ensures { IfOk result (λ copy. copy ≡ self.now) }
    {
        Ok(WorkDone {
            req: self.req,
            bytes: self.bytes.copy(alloc)?,
        })
    }
}
