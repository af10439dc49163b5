//! What a command keeps while it waits, and what a step makes of it.
ghost use Rattle.std.specs.Prelude.{◌≡◌};
ghost use Rattle.vdi_ops.specs.Stage.{entry_of_last};

use crate::act::OpAct;
use inode::Inode;
use object_id::{Entry, Items, NodeId, Vid};
use vdi_directory::Header;

/// The entry that ends a command.
#[derive(Clone, Copy, Debug)]
pub(crate) enum LastEntry {
    Publish { by: NodeId, vid: Vid },
    Clone { by: NodeId, vid: Vid },
    Snapshot { by: NodeId, old: Vid, vid: Vid },
}

impl LastEntry {
    /// The entry itself. Takes no memory.
    pub fn entry(self) -> Entry
        ensures { result ≡ entry_of_last self }
    {
        match self {
            LastEntry::Publish { by, vid } => Entry::Publish { by, vid },
            LastEntry::Clone { by, vid } => Entry::Clone { by, vid },
            LastEntry::Snapshot { by, old, vid } => Entry::Snapshot { by, old, vid },
        }
    }
}

/// The work that a command waits for, with what the rest of its course needs.
#[derive(Debug, Drop)]
pub(crate) enum Task {
    /// The inode of a disk, or of a snapshot, is read; `chain` are the ids above it.
    Opening {
        snapshot: bool,
        chain: Items<Vid>,
        header: Header,
    },
    WritingBack {
        inode: Inode,
    },
    Tagging {
        old: Vid,
        inode: Inode,
    },
    /// The inode of a clone's base is read; `chain` are the ids above the clone.
    Copying {
        chain: Items<Vid>,
        header: Header,
    },
    Making {
        entry: LastEntry,
        opened: Option<Inode>,
    },
}

/// What a command leaves of what its session has open.
#[derive(Debug, Drop)]
pub(crate) enum Change {
    Stays,
    Opens { snapshot: bool, inode: Inode },
    Closes,
}

/// What a command waits for.
#[derive(Debug, Drop)]
pub(crate) enum Stage {
    /// The decision on its first entry.
    Asked(Entry),
    /// A work; the id that was granted.
    Working(Vid, Task),
    /// The decision on its last entry; the inode that the session then has open.
    Publishing(LastEntry, Option<Inode>),
    /// Nothing: it has its reply.
    Answered(Change),
}

/// What a step leads to, and what is to be done.
#[derive(Drop)]
pub(crate) struct Next {
    pub stage: Stage,
    pub act: OpAct,
}
