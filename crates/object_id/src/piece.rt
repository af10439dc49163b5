ghost use Rattle.std.specs.Prelude.{◌≡◌, ◌+◌, ◌≤◌, length};
ghost use Rattle.object_id.specs.Piece.{laid_over};

/// Lays a piece over the bytes from `offset` on.
pub fn lay_over(bytes: &mut [u8], offset: usize, piece: &[u8])
    requires { offset + length piece.now ≤ length bytes.old }
    ensures { bytes.new ≡ laid_over bytes.old offset piece.now }
{
    bytes[offset..offset + piece.len()].copy_from_slice(piece);
}
