//! The limits of a cluster, each with its unit and what it comes from. Every other crate takes these numbers from here.

/// Nodes have the numbers below this one. A number is never given to a second node.
pub const NODES_MAX: u32 = 64;

/// Zones have the numbers below this one: a node of which nothing is said stands in the zone of its own number.
pub const ZONES_MAX: u32 = NODES_MAX;

/// How many nodes a cluster begins with where nothing is said.
pub const NODES_DEFAULT: u32 = 1;

/// The greatest number of a session; the least is 1.
pub const SESSIONS_MAX: u32 = 64;

/// The greatest weight of a member, its number of virtual nodes; the least is 1.
pub const VNODES_MAX: u16 = 256;

/// The weight of a member of which nothing is said.
pub const VNODES_DEFAULT: u16 = 64;

/// The greatest epoch: epochs are numbers of 32 bits, from 1.
pub const EPOCH_MAX: u32 = u32::MAX;

/// The unit of disk sizes, offsets and lengths, in bytes. A history speaks of disks block by block.
pub const BLOCK_BYTES: u32 = 512;

/// The size of a data object is a power of 2: 2^12 bytes at least, 2^24 at most, and 2^22 where nothing is said.
pub const SHIFT_MIN: u8 = 12;

pub const SHIFT_MAX: u8 = 24;

pub const SHIFT_DEFAULT: u8 = 22;

/// The greatest size of a data object, in bytes.
pub const OBJECT_BYTES_MAX: u32 = 1 << SHIFT_MAX;

/// How many data objects a disk may have: an object's id has 20 bits for its index.
pub const OBJECTS_MAX: u32 = 1 << 20;

/// The greatest size of a disk, in bytes: as many objects as there may be, of the greatest size.
pub const SIZE_MAX: u64 = 1 << 44;

/// The greatest id of a disk, since an object's id has 24 bits for it; the least is 1, and 0 is a hole in a disk's table.
pub const VID_MAX: u32 = 0xff_ffff;

/// The longest name and the longest tag, in bytes: the inode keeps each in 256 bytes, of which the last is 0.
pub const NAME_BYTES_MAX: usize = 255;

/// The most whole copies of an object.
pub const COPIES_MAX: u8 = 31;

/// The most data strips of an object, and the most parity strips: the policy byte has four bits for half the former,
/// and four for the latter.
pub const DATA_STRIPS_MAX: u8 = 16;

pub const PARITY_MAX: u8 = 15;

/// On how many nodes an object is kept at most: as many as there are copies, or strips, at most.
pub const TARGETS_MAX: usize = 31;

/// The greatest index of a row, which is the index of its strip; whole copies have index 0.
pub const INDEX_MAX: u8 = 30;

/// The greatest length of a read or a write, in bytes; the least is one block.
pub const LENGTH_MAX: u64 = 1 << 20;

/// The longest input, in bytes: a script, or a script and a trace.
pub const INPUT_BYTES_MAX: usize = 1 << 24;

/// The most requests of a script.
pub const REQUESTS_MAX: u32 = 10_000;

/// The most checks of a script.
pub const CHECKS_MAX: u32 = 4;

/// How many requests of a session may be without reply at once, where they are all reads and writes.
pub const REQUESTS_AT_ONCE: usize = 16;

/// The most bytes that the reads of a script ask for.
pub const READ_BYTES_MAX: u64 = 1 << 28;

/// The most bytes that the writes of a script give.
pub const WRITE_BYTES_MAX: u64 = 1 << 26;

/// The most attempts of a work on an object, and how many it has where nothing is said; the least is 1.
pub const TRIES_MAX: u32 = 1_000;

pub const TRIES_DEFAULT: u32 = 8;

/// The most events of a run, without those that end a phase, and how many it has where nothing is said; the least is 1.
pub const LIMIT_MAX: u32 = 1_000_000;

pub const LIMIT_DEFAULT: u32 = LIMIT_MAX;

/// The most messages that may be lost in a phase.
pub const LOSSES_MAX: u32 = 10_000;
