ghost use Rattle.std.specs.Prelude.{◌≡◌, [], fold};
ghost use Rattle.object_id.specs.Hash.{fnv1a_of, fnv1a_step};

use std::marker::Model;

/// What FNV-1a begins with.
pub const FNV_OFFSET: u64 = 0xcbf2_9ce4_8422_2325;
/// What each byte's value is multiplied by.
pub const FNV_PRIME: u64 = 0x100_0000_01b3;

/// The 64-bit FNV-1a hash of bytes that come in pieces.
#[derive(Debug, Drop)]
pub struct FnvHasher {
    hash: u64,
}

impl Model for FnvHasher {
    ghost use Rattle.std.specs.Prelude.{ℕ};

    ghost Value = { ℕ };

    ghost view = { λ s. s.hash };
}

impl FnvHasher {
    /// The hash of no bytes.
    pub fn new() -> FnvHasher
        ensures { result ≡ fnv1a_of [] }
    {
        FnvHasher { hash: FNV_OFFSET }
    }

    /// Takes the next piece.
    pub fn write(&mut self, piece: &[u8])
        ensures { self.new ≡ fold fnv1a_step self.old piece.now }
    {
        for byte in piece {
            self.hash = (self.hash ^ u64::from(*byte)).wrapping_mul(FNV_PRIME);
        }
    }

    /// The hash of the pieces so far.
    pub fn finish(&self) -> u64
        ensures { result ≡ self.now }
    {
        self.hash
    }
}

/// The 64-bit FNV-1a hash of a piece.
pub fn fnv1a(piece: &[u8]) -> u64
    ensures { result ≡ fnv1a_of piece.now }
{
    let mut hash = FnvHasher::new();
    hash.write(piece);
    hash.finish()
}
