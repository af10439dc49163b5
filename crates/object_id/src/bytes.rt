ghost use Rattle.std.specs.Prelude.{◌≡◌, ◌↔◌, ℕ, List, [], length, IfOk, IsTrue};
ghost use Rattle.std.specs.Str.{bytes_eq};

use crate::memory::NoMemory;
use std::alloc::Global;
use std::marker::Model;

/// A byte string that owns its bytes: a name, a tag, or a piece of an object.
#[derive(Debug, Drop)]
pub struct Bytes {
    items: Vec<u8>,
}

impl Model for Bytes {
    ghost use Rattle.std.specs.Prelude.{ℕ, List};

    ghost Value = { List ℕ };

    ghost view = { λ b. b.items.items };
}

impl Bytes {
    /// The empty string. Takes no memory.
    pub fn new(alloc: Global) -> Self
        ensures { result ≡ [] }
    {
        Bytes {
            items: Vec::new(alloc),
        }
    }

    pub fn from_slice(alloc: Global, piece: &[u8]) -> Result<Self, NoMemory>
        ensures { IfOk result (λ bytes. bytes ≡ piece.now) }
    {
        Ok(Bytes {
            items: Vec::from_slice(alloc, piece)?,
        })
    }

    /// The bytes of a vector, without copying them.
    pub fn from_vec(items: Vec<u8>) -> Self
        ensures { result ≡ items.items }
    {
        Bytes { items }
    }

    pub fn as_slice(&self) -> &[u8]
        ensures { result.now ≡ self.now }
    {
        self.items.as_slice()
    }

    pub fn len(&self) -> usize
        ensures { result ≡ length self.now }
    {
        self.items.len()
    }

    pub fn is_empty(&self) -> bool
        ensures { IsTrue result ↔ (self.now ≡ []) }
    {
        self.items.is_empty()
    }

    /// Whether both hold the same bytes.
    pub fn same(&self, other: &Bytes) -> bool
        ensures value { result ≡ bytes_eq self.now other.now }
        ensures exact { IsTrue result ↔ (self.now ≡ other.now) }
    {
        self.as_slice() == other.as_slice()
    }

    pub fn copy(&self, alloc: Global) -> Result<Self, NoMemory>
        ensures { IfOk result (λ copy. copy ≡ self.now) }
    {
        Bytes::from_slice(alloc, self.as_slice())
    }

    /// A copy of the bytes if there are any: `None` takes no memory.
    pub fn copy_option(alloc: Global, bytes: &Option<Bytes>) -> Result<Option<Bytes>, NoMemory>
        ensures { IfOk result (λ copy. copy ≡ bytes.now) }
    {
        match bytes {
            Some(bytes) => Ok(Some(bytes.copy(alloc)?)),
            None => Ok(None),
        }
    }
}
