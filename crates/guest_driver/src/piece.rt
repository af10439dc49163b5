/// A piece of a request: the index of its object, its offset in the object, its place among the request's own bytes, and
/// its size.
#[derive(Clone, Copy, Debug)]
pub(crate) struct Piece {
    pub index: u32,
    pub offset: u32,
    pub place: usize,
    pub size: u32,
}
