ghost use Rattle.std.specs.Prelude.{◌↔◌, IsTrue};
ghost use Rattle.object_id.specs.Span.{IsSpan};

use crate::limits::{BLOCK_BYTES, LENGTH_MAX};

/// Whether a read or a write may ask for so many bytes from this offset on: whole blocks from a block's start on,
/// [`LENGTH_MAX`] bytes at most. Whether they end on the disk is another question.
pub fn is_span(offset: u64, bytes: u32) -> bool
    ensures { IsTrue result ↔ IsSpan offset bytes }
{
    if offset % u64::from(BLOCK_BYTES) != 0 || bytes % BLOCK_BYTES != 0 {
        return false;
    }
    BLOCK_BYTES <= bytes && u64::from(bytes) <= LENGTH_MAX
}
