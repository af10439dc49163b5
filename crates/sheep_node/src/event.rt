use object_id::NodeId;

/// An event of the cluster: one node's step, or what happens to a node or the log beside the steps. A message is named by
/// its sender and number.
#[derive(Clone, Copy, Debug, PartialEq, Eq)]
pub enum Event {
    /// The session's next request begins.
    Guest { session: u32 },
    /// The message, a request or the reply to it, comes to its receiver.
    Deliver { node: NodeId, number: u32 },
    LoseRequest { node: NodeId, number: u32 },
    LoseReply { node: NodeId, number: u32 },
    /// The node reads the next entry of the log.
    LogNext { node: NodeId },
    /// The first entry of the node's outbox stands at the log's end.
    Put { node: NodeId },
    RecoverTick { node: NodeId },
    RetryTick { node: NodeId },
    /// The node fails.
    Lost { node: NodeId },
    /// The lost node leaves the members.
    Leave { node: NodeId },
    /// A new node joins the members.
    Join { node: NodeId },
    /// The member gets another weight.
    Reweight { node: NodeId },
    /// The lost node comes back with its store, in its next incarnation.
    Back { node: NodeId },
    /// The script's phase ends, and the next one begins.
    Phase,
}
