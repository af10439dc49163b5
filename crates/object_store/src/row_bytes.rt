ghost use Rattle.std.specs.Prelude.{◌≡◌, ℕ, ◌+◌, ◌≤◌, List, length, IfOk, OnOk};
ghost use Rattle.object_id.specs.Piece.{laid_over};
ghost use Rattle.object_id.specs.Fields.{zeros};
ghost use Rattle.object_id.specs.Hash.{fnv1a_of};
ghost use Rattle.object_store.specs.Bytes.{piece_at, trimmed_bytes, KeepsPieces};

use object_id::{Bytes, NoMemory};
use std::alloc::Global;

/// How the bytes of a row are kept.
pub trait RowBytes: Drop {
    /// The bytes, kept or not.
    ghost bytes: { Self → List ℕ };

    /// Of an offset and a length: that piece is written without memory.
    ghost HasRoom: { Self → ℕ → ℕ → Type 0 };

    /// A piece from `offset` on, in `size` bytes that are else 0.
    fn new(alloc: Global, size: u32, offset: u32, piece: &[u8]) -> Result<Self, NoMemory>
        requires { offset + length piece.now ≤ size }
        ensures { IfOk result (λ kept. bytes kept ≡ laid_over (zeros size) offset piece.now) };

    /// How many bytes there are. Takes no memory.
    fn len(&self) -> u32
        ensures { result ≡ length (bytes self.now) };

    /// Gives a piece room, so that `write` needs no memory for it. No byte changes.
    fn reserve(&mut self, alloc: Global, offset: u32, count: u32) -> Result<(), NoMemory>
        requires { offset + count ≤ length (bytes self.old) }
        ensures bytes { bytes self.new ≡ bytes self.old }
        ensures room { KeepsPieces (HasRoom self.old) (HasRoom self.new) }
        ensures ok { OnOk result (HasRoom self.new offset count) };

    /// Lays a piece that has room over the bytes from `offset` on. Takes no memory.
    fn write(&mut self, offset: u32, piece: &[u8])
        requires within { offset + length piece.now ≤ length (bytes self.old) }
        requires room { HasRoom self.old offset (length piece.now) }
        ensures bytes { bytes self.new ≡ laid_over (bytes self.old) offset piece.now }
        ensures room { KeepsPieces (HasRoom self.old) (HasRoom self.new) };

    /// Copies the bytes from `offset` on into all of `out`. Takes no memory.
    fn read(&self, offset: u32, out: &mut [u8])
        requires { offset + length out.old ≤ length (bytes self.now) }
        ensures { out.new ≡ piece_at (bytes self.now) offset (length out.old) };

    /// The FNV-1a hash of the bytes up to the last one that isn't 0. Takes no memory.
    fn hash(&self) -> u64
        ensures { result ≡ fnv1a_of (trimmed_bytes (bytes self.now)) };

    /// A copy of the bytes up to the last one that isn't 0.
    fn trimmed(&self, alloc: Global) -> Result<Bytes, NoMemory>
        ensures { IfOk result (λ copy. copy ≡ trimmed_bytes (bytes self.now)) };
}
