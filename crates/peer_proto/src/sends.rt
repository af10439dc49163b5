use crate::ask::PeerReq;
use object_id::{Items, NodeId};

/// Requests that a step sends, each with the node that it goes to, in the order of their numbers.
pub type SendList = Items<(NodeId, PeerReq)>;
