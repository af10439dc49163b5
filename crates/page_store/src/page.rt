ghost use Rattle.std.specs.Prelude.{◌≡◌, ◌+◌, ◌≤◌, length, IfOk};
ghost use Rattle.object_id.specs.Fields.{zeros};
ghost use Rattle.object_id.specs.Piece.{laid_over};

use object_id::{NoMemory, lay_over};
use std::alloc::Global;
use std::marker::Model;

/// How many bytes a page has.
pub const PAGE_BYTES: usize = 4096;

/// One page of a row.
#[derive(Debug, Drop)]
pub struct Page {
    bytes: Vec<u8>,
}

impl Model for Page {
    ghost use Rattle.std.specs.Prelude.{◌≡◌, ℕ, List, length};
    ghost use Rattle.page_store.specs.declared.page.TheConstants.{PAGE_BYTES};

    ghost Value = { List ℕ };

    ghost view = { λ s. s.bytes.items };

    ghost invariant = { λ s. length s.bytes.items ≡ PAGE_BYTES };
}

impl Page {
    /// A page of zeros.
    pub fn new(alloc: Global) -> Result<Page, NoMemory>
        ensures { IfOk result (λ page. page ≡ zeros PAGE_BYTES) }
    {
        Ok(Page {
            bytes: Vec::from_slice(alloc, &[0; PAGE_BYTES])?,
        })
    }

    pub fn as_slice(&self) -> &[u8]
        ensures value { result.now ≡ self.now }
        ensures len { length self.now ≡ PAGE_BYTES }
    {
        self.bytes.as_slice()
    }

    /// Lays a piece over the bytes from `start` on.
    pub fn write(&mut self, start: usize, piece: &[u8])
        requires { start + length piece.now ≤ PAGE_BYTES }
        ensures bytes { self.new ≡ laid_over self.old start piece.now }
        ensures len { length self.old ≡ PAGE_BYTES }
    {
        lay_over(&mut self.bytes, start, piece);
    }
}
