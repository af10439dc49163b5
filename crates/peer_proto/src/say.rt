ghost use Rattle.std.specs.Prelude.{◌≡◌, IfOk};

use object_id::{Bytes, Epoch, NoMemory};
use object_store::{OidList, RowCopy};
use std::alloc::Global;

/// Why a node refused a request. It changed nothing.
#[derive(Clone, Copy, Debug, PartialEq, Eq)]
pub enum Refusal {
    /// The request's epoch is below the node's own.
    OldEpoch { own: Epoch },
    /// The request's epoch is above the node's own.
    NewEpoch { own: Epoch },
    /// The object isn't recovered yet.
    Recovery,
    /// The object has no open row of this index.
    NoObj,
}

/// What a node answers.
#[derive(Debug)]
pub enum PeerSay {
    /// A create or write was made.
    Success,
    /// What a read gives.
    Piece(Bytes),
    Objects(OidList),
    Row(RowCopy),
    /// No row holds the level.
    NoRow,
    Refused(Refusal),
}

/// Written out, so that letting one go is one call wherever it is done, and no cases there.
impl Drop for PeerSay {
    fn drop(self) {
        match self {
            PeerSay::Success => {}
            PeerSay::Piece(value) => drop(value),
            PeerSay::Objects(value) => drop(value),
            PeerSay::Row(value) => drop(value),
            PeerSay::NoRow => {}
            PeerSay::Refused(_) => {}
        }
    }
}

impl PeerSay {
    pub fn copy(&self, alloc: Global) -> Result<Self, NoMemory>
        ensures { IfOk result (λ copy. copy ≡ self.now) }
    {
        Ok(match self {
            PeerSay::Success => PeerSay::Success,
            PeerSay::Piece(bytes) => PeerSay::Piece(bytes.copy(alloc)?),
            PeerSay::Objects(list) => PeerSay::Objects(list.copy(alloc)?),
            PeerSay::Row(row) => PeerSay::Row(row.copy(alloc)?),
            PeerSay::NoRow => PeerSay::NoRow,
            PeerSay::Refused(refusal) => PeerSay::Refused(*refusal),
        })
    }
}

/// The reply to a request: the request's number, and the epoch of the node that replies.
#[derive(Debug)]
pub struct PeerRsp {
    pub number: u32,
    pub epoch: Epoch,
    pub say: PeerSay,
}

/// Written out, so that letting one go is one call wherever it is done, and no cases there.
impl Drop for PeerRsp {
    fn drop(self) {
        let PeerRsp {
            number: _,
            epoch: _,
            say,
        } = self;
        drop(say);
    }
}

impl PeerRsp {
    pub fn copy(&self, alloc: Global) -> Result<Self, NoMemory>
        ensures { IfOk result (λ copy. copy ≡ self.now) }
    {
        Ok(PeerRsp {
            number: self.number,
            epoch: self.epoch,
            say: self.say.copy(alloc)?,
        })
    }
}
