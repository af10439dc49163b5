/// A check goes over the own objects of a disk where they have at most so many bytes together, 256 MiB: it is one request,
/// and reads and writes each of them whole.
pub const CHECKED_BYTES_MAX: u64 = 268_435_456;
