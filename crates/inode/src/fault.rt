ghost use Rattle.std.specs.Prelude.{◌≡◌};

use object_id::NoMemory;
use thiserror::Error;

/// Why bytes are no inode. Where several hold, the first in the order of the header's checks is given: a header that
/// isn't whole, a name or tag without an end, the shift, the policy, the size or the id, a table that isn't whole, its entries.
#[derive(Clone, Copy, Debug, PartialEq, Eq, Error)]
pub enum InodeFault {
    /// Fewer than 4,664 bytes, or than the table needs.
    #[error("the inode isn't whole")]
    ShortInode,
    /// The name or the tag has no 0 byte.
    #[error("a name or tag has no end")]
    NameNotEnded,
    /// The size of a data object isn't 2^12 to 2^24 bytes.
    #[error("the shift isn't 12 to 24")]
    BadShift,
    #[error("the policy isn't one")]
    BadPolicy,
    /// The size is 0, isn't whole blocks, or is more than the objects that a disk may have hold; or the id isn't one.
    #[error("the size or the id isn't one")]
    BadSize,
    /// An entry of the table is neither 0 nor a disk's id.
    #[error("an entry is no disk's id")]
    BadEntry,
    #[error("no memory")]
    NoMemory,
}

impl From<NoMemory> for InodeFault {
    ghost use Rattle.inode.specs.declared.fault.InodeFault.TheVariants as faults;

    ghost from_gives = { λ _ e. e ≡ faults.NoMemory };

    fn from(_e: NoMemory) -> InodeFault {
        InodeFault::NoMemory
    }
}
