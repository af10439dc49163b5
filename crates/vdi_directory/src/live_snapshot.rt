use object_id::{Bytes, Vid};

/// A live snapshot of a name. The definitions list them in the order in which they were taken; a directory keeps them by tag.
#[derive(Debug, Drop)]
pub struct LiveSnapshot {
    pub vid: Vid,
    pub tag: Bytes,
}
