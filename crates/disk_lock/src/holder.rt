use object_id::NodeId;

/// A session of a node, as the holder of a disk.
#[derive(Clone, Copy, Debug, PartialEq, Eq)]
pub struct Holder {
    pub node: NodeId,
    pub session: u32,
}
