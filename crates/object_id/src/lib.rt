//! The words that every layer shares: node numbers, epochs, disk and object ids, replication
//! policies, byte strings and lists, the entries of the membership log, and the causes of refusals.
//!
//! The crate stands on nothing but std. Its types are plain values: a number with a rule is a newtype
//! that keeps it, a list is seen as a list, and whatever takes memory says so by [`NoMemory`].
//! The layout of an object id and of a policy byte is accepted exactly, with one spelling a value.
#![tactic(auto)]

mod bytes;
mod cause;
mod entry;
mod fields;
mod hash;
mod items;
mod laws;
mod limits;
mod memory;
mod name;
mod node;
mod oid;
mod piece;
mod policy;
mod same;
mod same_entry;
mod span;

pub use bytes::Bytes;
pub use cause::Cause;
pub use entry::{Entry, Member, MemberList, NodeList, Origin, VdiSpec};
pub use fields::{u16_at, u32_at, u64_at};
pub use hash::{FnvHasher, fnv1a};
pub use items::{Duplicate, Items};
pub use laws::{
    laid_over_laws, limits_in_numbers, read_numbers_fit, read_numbers_stand, sameness_is_decided,
    sizes_within_limits, spelled_numbers_are_read, target_counts,
};
pub use limits::{
    BLOCK_BYTES, CHECKS_MAX, COPIES_MAX, DATA_STRIPS_MAX, EPOCH_MAX, INDEX_MAX, INPUT_BYTES_MAX,
    LENGTH_MAX, LIMIT_DEFAULT, LIMIT_MAX, LOSSES_MAX, NAME_BYTES_MAX, NODES_DEFAULT, NODES_MAX,
    OBJECT_BYTES_MAX, OBJECTS_MAX, PARITY_MAX, READ_BYTES_MAX, REQUESTS_AT_ONCE, REQUESTS_MAX,
    SESSIONS_MAX, SHIFT_DEFAULT, SHIFT_MAX, SHIFT_MIN, SIZE_MAX, TARGETS_MAX, TRIES_DEFAULT,
    TRIES_MAX, VID_MAX, VNODES_DEFAULT, VNODES_MAX, WRITE_BYTES_MAX, ZONES_MAX,
};
pub use memory::NoMemory;
pub use name::{is_name, is_tag};
pub use node::{Epoch, NodeId, is_session, is_weight, is_zone};
pub use oid::{Kind, Oid, OidFault, Vid};
pub use piece::lay_over;
pub use policy::{BadPolicy, Policy};
pub use span::is_span;
