ghost use Rattle.std.specs.Prelude.{◌≡◌};
ghost use Rattle.peer_proto.specs.Header.{peer_header_in};

use crate::fault::PeerFault;
use crate::opcode::Opcode;
use sheep_proto::{Common, read_common};

/// The opcode and the first 16 bytes of bytes that have a header of this version.
pub fn header_in(bytes: &[u8]) -> Result<(Opcode, Common), PeerFault>
    ensures { result ≡ peer_header_in bytes.now }
{
    let common = read_common(bytes)?;
    match Opcode::from_byte(common.opcode) {
        Some(opcode) => Ok((opcode, common)),
        None => Err(PeerFault::UnknownOpcode),
    }
}
