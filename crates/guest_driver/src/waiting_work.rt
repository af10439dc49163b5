use peer_proto::ObjWork;

/// A work that waits, with the number of the request that it is of.
#[derive(Debug, Drop)]
pub struct WaitingWork {
    pub req: u32,
    pub work: ObjWork,
}
