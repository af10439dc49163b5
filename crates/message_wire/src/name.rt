use object_id::NodeId;

/// The name of a message in the wire: the node that sent the request, and the number that it gave it. The reply has the
/// same name.
#[derive(Clone, Copy, Debug, PartialEq, Eq, PartialOrd, Ord)]
pub struct MessageName {
    pub sender: NodeId,
    pub number: u32,
}
