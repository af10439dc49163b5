use crate::header::Header;
use disk_lock::Holder;
use object_id::{Bytes, NodeId, Vid};

/// What a reserved id is to become.
#[derive(Debug, Drop)]
pub enum Source {
    Fresh,
    /// The working disk in the place of `old`, which becomes a snapshot with this tag.
    Snapshot { old: Vid, tag: Bytes },
    Clone,
}

/// A reservation that stands: an id, and the session that may publish it.
#[derive(Debug, Drop)]
pub struct Reservation {
    pub vid: Vid,
    pub by: NodeId,
    pub session: u32,
    pub name: Bytes,
    pub source: Source,
}

/// A reservation, and the header of the disk that it is for.
#[derive(Debug, Drop)]
pub struct Grant {
    pub reservation: Reservation,
    pub header: Header,
}

/// A working disk, `old`, becomes a snapshot, and `vid` the working disk with its holder.
#[derive(Debug, Drop)]
pub struct Snap {
    pub old: Vid,
    pub vid: Vid,
    pub name: Bytes,
    pub tag: Bytes,
    pub holder: Holder,
}

/// What an entry of the log changes.
#[derive(Debug, Drop)]
pub enum Effect {
    Nothing,
    /// An id is used from now on, and reserved.
    Reserved(Grant),
    /// The reserved id becomes the working disk of the name, held by nobody.
    Published { vid: Vid, name: Bytes },
    Snapped(Snap),
    /// The working disk, or a snapshot, of the name goes.
    Deleted { vid: Vid, name: Bytes },
    Held { vid: Vid, holder: Holder },
    /// The lock on the disk is freed.
    Freed { vid: Vid },
    /// The reservation is freed.
    Withdrawn { vid: Vid },
    /// The node's locks and reservations are freed.
    Left { node: NodeId },
}
