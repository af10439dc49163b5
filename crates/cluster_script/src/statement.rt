use object_id::{Bytes, Policy};

/// What the data of a write is.
#[derive(Clone, Copy, Debug, PartialEq, Eq)]
pub enum Pattern {
    /// Every byte is this one.
    Fill(u8),
    /// Every byte of the first block is this one, and of each later block the next one; 0 follows 255.
    Step(u8),
}

/// A line of a script. Sizes, offsets and lengths are in bytes.
#[derive(Debug)]
pub enum Statement {
    /// Nodes 0 to `nodes` - 1 are the opening members.
    Cluster {
        nodes: u32,
    },
    /// A node has so many virtual nodes at first.
    Vnodes {
        vnodes: u16,
    },
    /// A request has so many attempts.
    Tries {
        tries: u32,
    },
    /// A run takes so many events at most.
    Limit {
        limit: u32,
    },
    /// The session has this node as its gateway.
    Session {
        session: u32,
        node: u32,
    },
    /// The data objects of the new disk have 2^shift bytes.
    Create {
        session: u32,
        policy: Policy,
        shift: u8,
        name: Bytes,
        size: u64,
    },
    /// Opens the disk, or with a tag a snapshot of it.
    OpenDisk {
        session: u32,
        name: Bytes,
        tag: Option<Bytes>,
    },
    /// Closes the disk that the session has open.
    Close {
        session: u32,
    },
    /// Reads a piece of the session's open disk.
    Read {
        session: u32,
        offset: u64,
        length: u32,
    },
    /// Writes a piece of it.
    Write {
        session: u32,
        offset: u64,
        length: u32,
        pattern: Pattern,
    },
    /// Makes a snapshot of it under this tag.
    Snapshot {
        session: u32,
        tag: Bytes,
    },
    /// Makes a disk from a snapshot of another one, the base.
    Clone {
        session: u32,
        base: Bytes,
        tag: Bytes,
        name: Bytes,
    },
    /// Deletes the disk, or with a tag a snapshot of it.
    Delete {
        session: u32,
        name: Bytes,
        tag: Option<Bytes>,
    },
    /// The node is lost.
    Fail {
        node: u32,
    },
    /// The node, never used before, joins.
    Join {
        node: u32,
    },
    /// So many messages more of this phase may be lost.
    Lose {
        count: u32,
    },
    /// Ends the phase.
    Settle,
    /// Ends it, and the members are listed.
    ListNodes,
    /// Ends it, and the disks are listed.
    ListVdis,
    /// Ends it, and the epochs and the members are told.
    ClusterInfo,
    /// Ends it, and every row is listed.
    Dump,
    /// The node stands in this zone.
    Zone {
        node: u32,
        zone: u32,
    },
    /// The node has so many virtual nodes from now on.
    Reweight {
        node: u32,
        vnodes: u16,
    },
    /// The lost node comes back with its rows.
    Back {
        node: u32,
    },
    /// Checks the disk that the session has open: all copies of its own objects are read, and one value is written back.
    Check {
        session: u32,
    },
}

/// Written out, so that letting one go is one call wherever it is done, and no cases there.
impl Drop for Statement {
    fn drop(self) {
        match self {
            Statement::Cluster { nodes: _ } => {}
            Statement::Vnodes { vnodes: _ } => {}
            Statement::Tries { tries: _ } => {}
            Statement::Limit { limit: _ } => {}
            Statement::Session {
                session: _,
                node: _,
            } => {}
            Statement::Create {
                session: _,
                policy: _,
                shift: _,
                name,
                size: _,
            } => drop(name),
            Statement::OpenDisk {
                session: _,
                name,
                tag,
            } => {
                drop(name);
                drop(tag);
            }
            Statement::Close { session: _ } => {}
            Statement::Read {
                session: _,
                offset: _,
                length: _,
            } => {}
            Statement::Write {
                session: _,
                offset: _,
                length: _,
                pattern,
            } => drop(pattern),
            Statement::Snapshot { session: _, tag } => drop(tag),
            Statement::Clone {
                session: _,
                base,
                tag,
                name,
            } => {
                drop(base);
                drop(tag);
                drop(name);
            }
            Statement::Delete {
                session: _,
                name,
                tag,
            } => {
                drop(name);
                drop(tag);
            }
            Statement::Fail { node: _ } => {}
            Statement::Join { node: _ } => {}
            Statement::Lose { count: _ } => {}
            Statement::Settle => {}
            Statement::ListNodes => {}
            Statement::ListVdis => {}
            Statement::ClusterInfo => {}
            Statement::Dump => {}
            Statement::Zone { node: _, zone: _ } => {}
            Statement::Reweight { node: _, vnodes: _ } => {}
            Statement::Back { node: _ } => {}
            Statement::Check { session: _ } => {}
        }
    }
}
