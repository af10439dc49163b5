/// How long the field of a name or a tag is, with the 0 that ends it.
pub const TEXT_BYTES: usize = 256;
/// How long the table of children is, which is written as zeros and not read.
pub const CHILDREN_BYTES: usize = 4_096;
/// How many bytes stand before the table.
pub const INODE_HEADER_BYTES: usize = 4_664;
/// How many bytes an inode object has: the header, and four for each of the 2^20 objects that a disk may have.
pub const INODE_BYTES: u32 = 4_198_968;
