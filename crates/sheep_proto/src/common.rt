ghost use Rattle.std.specs.Prelude.{◌≡◌, ◌<◌, ◌≤◌, IfOk, length};
ghost use Rattle.object_id.specs.Piece.{laid_over};
ghost use Rattle.object_id.specs.Fields.{Stands};
ghost use Rattle.sheep_proto.specs.Headers.{common_bytes, common_of, IsCommon};

use crate::fault::HeaderFault;
use object_id::{u16_at, u32_at};

/// How long a header is.
pub const HEADER_BYTES: usize = 48;
/// The version of the protocol: the first byte of every header.
pub const VERSION: u8 = 0x01;

/// What every header begins with: its first 16 bytes but for the version.
#[derive(Clone, Copy, Debug, PartialEq, Eq)]
pub struct Common {
    pub opcode: u8,
    pub flags: u16,
    pub epoch: u32,
    pub id: u32,
    pub data_length: u32,
}

fn read_fields(bytes: &[u8]) -> Result<Common, HeaderFault>
    ensures { result ≡ common_of bytes.now }
{
    if bytes.len() < HEADER_BYTES {
        return Err(HeaderFault::ShortHeader);
    }
    if bytes[0] != VERSION {
        return Err(HeaderFault::VerMismatch);
    }
    Ok(Common {
        opcode: bytes[1],
        flags: u16_at(bytes, 2),
        epoch: u32_at(bytes, 4),
        id: u32_at(bytes, 8),
        data_length: u32_at(bytes, 12),
    })
}

/// Reads the first 16 bytes of a header, which has to be whole. Any opcode is taken.
pub fn read_common(bytes: &[u8]) -> Result<Common, HeaderFault>
    // The first refusal, or the fields by their offsets.
    ensures exact { result ≡ common_of bytes.now }
    // The bytes begin with the spelling of what is read.
    ensures spelled { IfOk result (λ common. IsCommon common × Stands bytes.now 0 16 (common_bytes common)) }
    // A header whose first 16 bytes are the spelling of these fields is read as them.
    ensures only { (common : Common) → IsCommon common → HEADER_BYTES ≤ length bytes.now
        → Stands bytes.now 0 16 (common_bytes common) → result ≡ Ok common }
{
    read_fields(bytes)
}

/// Writes the first 16 bytes of a header, and leaves the others.
pub fn put_common(common: &Common, out: &mut [u8; 48])
    ensures { out.new ≡ laid_over out.old 0 (common_bytes common.now) }
{
    out[0] = VERSION;
    out[1] = common.opcode;
    out[2..4].copy_from_slice(&common.flags.to_le_bytes());
    out[4..8].copy_from_slice(&common.epoch.to_le_bytes());
    out[8..12].copy_from_slice(&common.id.to_le_bytes());
    out[12..16].copy_from_slice(&common.data_length.to_le_bytes());
}
