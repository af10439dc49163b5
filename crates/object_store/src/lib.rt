//! The versioned object store: what a node keeps of each object, as rows with the epochs from which and up to
//! which they are the object's.
//!
//! The crate stands on `object_id`. Everything above it names the trait [`ObjStore`] alone: what a store holds is
//! seen as a finite map from object ids to lists of rows, beside it which pieces have room, and each call says
//! what it does to each row, when it is refused and what stays. A call that can't answer `NoMemory` takes no memory.
//! [`RowStore`] is proved against the trait once, for any way of keeping a row's bytes that meets [`RowBytes`];
//! [`PlainStore`] keeps them up to the last one that was ever written or reserved.
#![tactic(auto)]

mod fault;
mod keeps;
mod key;
mod laws;
mod object_rows;
mod oid_list;
mod plain_row;
mod row;
mod row_bytes;
mod row_store;
mod store;

pub use fault::StoreFault;
pub use key::Key;
pub use laws::{
    copies_are_of_the_latest_row, open_rows_are_from_epochs_so_far, other_rows_stay,
    reads_what_was_written_last, rows_are_in_order, rows_of_one_object,
};
pub use oid_list::OidList;
pub use plain_row::{PlainRow, PlainStore, trimmed_len};
pub use row::{Row, RowCopy, RowSummary};
pub use row_bytes::RowBytes;
pub use row_store::RowStore;
pub use store::ObjStore;
