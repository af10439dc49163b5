ghost use Rattle.std.specs.Prelude.{◌≢◌, ◌↔◌, All, IsTrue};
ghost use Rattle.object_id.specs.Spec.{IsName, IsTag};

use crate::bytes::Bytes;
use crate::limits::NAME_BYTES_MAX;

fn has_no_zero(bytes: &[u8]) -> bool
    ensures { IsTrue result ↔ All (λ byte. byte ≢ 0) bytes.now }
{
    bytes.iter().all(|byte| *byte != 0)
}

/// Whether a disk may have this name, or a snapshot this tag: an inode, which ends each by a 0, gives it back.
pub fn is_name(bytes: &[u8]) -> bool
    ensures { IsTrue result ↔ IsName bytes.now }
{
    if bytes.is_empty() || NAME_BYTES_MAX < bytes.len() {
        return false;
    }
    has_no_zero(bytes)
}

/// Whether a disk may be named with this tag: with none, which is the working disk, or with one that a snapshot may have.
pub fn is_tag(tag: &Option<Bytes>) -> bool
    ensures { IsTrue result ↔ IsTag tag.now }
{
    match tag {
        Some(tag) => is_name(tag.as_slice()),
        None => true,
    }
}
