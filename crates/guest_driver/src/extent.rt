ghost use Rattle.std.specs.Prelude.{◌≡◌, ◌+◌, ◌<◌, ◌≤◌};
ghost use Rattle.object_id.specs.declared.limits.TheConstants.{OBJECTS_MAX, OBJECT_BYTES_MAX};
ghost use Rattle.guest_driver.specs.Pieces.{AreBlocks};
ghost use Rattle.guest_driver.specs.Extent.{IsExtent, Touches, first_index_of, last_index_of, piece_at_index, piece_of};

use crate::piece::Piece;

/// Where a request is on its disk, whose objects have 2^shift bytes.
#[derive(Clone, Copy, Debug)]
pub(crate) struct Extent {
    pub shift: u8,
    pub offset: u64,
    pub size: usize,
}

impl Extent {
    /// The index of the first object that the request touches.
    pub(crate) fn first(self) -> u32
        requires { IsExtent self }
        ensures { result ≡ first_index_of self }
    {
        (self.offset >> self.shift) as u32
    }

    /// The index of the last one.
    pub(crate) fn last(self) -> u32
        requires { IsExtent self }
        ensures value { result ≡ last_index_of self }
        ensures below { result < OBJECTS_MAX }
    {
        ((self.offset + self.size as u64 - 1) >> self.shift) as u32
    }

    /// Its piece in an object.
    pub(crate) fn piece(self, index: u32) -> Piece
        requires { Touches self index }
        ensures value { piece_of result ≡ piece_at_index self index }
        ensures index { result.index ≡ index }
        ensures within { result.place + result.size ≤ self.size }
        ensures inside { result.offset + result.size ≤ OBJECT_BYTES_MAX }
        ensures blocks { AreBlocks (piece_of result) }
    {
        let low = u64::from(index) << self.shift;
        let high = low + (1 << self.shift);
        let start = self.offset.max(low);
        let end = (self.offset + self.size as u64).min(high);
        Piece {
            index,
            offset: (start - low) as u32,
            place: (start - self.offset) as usize,
            size: (end - start) as u32,
        }
    }
}
