//! A store of sparse rows: what a node keeps of each object, in pages of 4,096 bytes.
//!
//! The crate stands on `object_store`, whose trait [`ObjStore`](object_store::ObjStore) it serves: [`PageStore`] is
//! seen as every store is, as a finite map from object ids to lists of rows. It keeps of each row a map from page
//! number to page. A page that was never written isn't there and reads as zeros, so that a long row of which one
//! page was written takes the memory of that page; a new row makes no page for zeros. Each row owns its pages: what
//! is written to the open row of an object changes no closed row, and no copy that was given.
#![tactic(auto)]

mod page;
mod page_row;
#[cfg(test)]
mod tests;

use object_store::RowStore;
pub use page_row::PageRow;

/// A store in memory that keeps of each row the pages that were written or reserved. A piece costs the logarithm of the pages that its row
/// has, for each page that it is in.
pub type PageStore = RowStore<PageRow>;
