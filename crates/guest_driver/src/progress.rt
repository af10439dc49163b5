/// Which work a piece of a write waits for.
#[derive(Clone, Copy, Debug)]
pub(crate) enum Stage {
    /// The disk's own object is written.
    InPlace,
    /// Another disk's object is read whole.
    Fetching,
    /// The disk's own object is created.
    Creating,
    /// Its entry in the inode is written.
    Entering,
}

/// What a driver waits for.
#[derive(Clone, Copy, Debug)]
pub(crate) enum Progress {
    /// The bytes of a piece.
    Reading,
    /// A work on a piece of a write.
    Writing(Stage),
    /// Nothing: the request has its reply.
    Answered,
}
