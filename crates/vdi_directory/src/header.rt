use object_id::{Bytes, VdiSpec, Vid};

/// What the directory has of a disk, a snapshot or a clone, as it is now. The tag is empty but for a snapshot.
#[derive(Debug, Drop)]
pub struct Header {
    pub name: Bytes,
    pub tag: Bytes,
    /// 1 and the snapshots that had been taken of the name when the id was reserved.
    pub snap_id: u32,
    /// What it was made from.
    pub parent: Option<Vid>,
    pub spec: VdiSpec,
}
