use object_id::Oid;

/// Which row of an object: index 0 of whole copies, the strip's index of coded data.
#[derive(Clone, Copy, Debug, PartialEq, Eq)]
pub struct Key {
    pub oid: Oid,
    pub index: u8,
}
