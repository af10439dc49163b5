use object_id::{Bytes, Epoch};

/// What the level of a search comes to, once none of its messages is unanswered.
#[derive(Debug, Drop)]
pub enum LevelEnd {
    /// There are enough rows: by them, the node's own part, and its index.
    Found { index: u8, bytes: Bytes },
    /// There are too few, and no level is left.
    Missing,
    /// There are too few, and this level is to be asked.
    Asks(Epoch),
    /// The object's id isn't known or is dead.
    Nothing,
}
