ghost use Rattle.std.specs.Prelude.{◌≡◌, IfOk};
ghost use Rattle.object_id.specs.Fields.{zeros};
ghost use Rattle.sheep_proto.specs.Replies.{reply_bytes, reply_in_bytes, SpellsReply, IsVdiRsp};

use crate::common::{Common, put_common, read_common};
use crate::fault::HeaderFault;
use crate::request::{is_object_opcode, is_vdi_opcode};
use object_id::u32_at;

/// A reply. Its opcode is that of a request of either kind.
#[derive(Clone, Copy, Debug, PartialEq, Eq)]
pub struct VdiRsp {
    pub opcode: u8,
    pub flags: u16,
    pub epoch: u32,
    pub id: u32,
    pub data_length: u32,
    pub result: u32,
    pub vdi_id: u32,
}

/// The spelling of a reply, with zeros for its reserved bytes.
pub fn encode_reply(rsp: &VdiRsp) -> [u8; 48]
    ensures { result ≡ reply_bytes rsp.now (zeros 4) (zeros 20) }
{
    let mut out = [0; 48];
    let common = Common {
        opcode: rsp.opcode,
        flags: rsp.flags,
        epoch: rsp.epoch,
        id: rsp.id,
        data_length: rsp.data_length,
    };
    put_common(&common, &mut out);
    out[16..20].copy_from_slice(&rsp.result.to_le_bytes());
    out[24..28].copy_from_slice(&rsp.vdi_id.to_le_bytes());
    out
}

fn read_reply(bytes: &[u8]) -> Result<VdiRsp, HeaderFault>
    ensures { result ≡ reply_in_bytes bytes.now }
{
    let common = read_common(bytes)?;
    if !is_object_opcode(common.opcode) && !is_vdi_opcode(common.opcode) {
        return Err(HeaderFault::UnknownOpcode);
    }
    Ok(VdiRsp {
        opcode: common.opcode,
        flags: common.flags,
        epoch: common.epoch,
        id: common.id,
        data_length: common.data_length,
        result: u32_at(bytes, 16),
        vdi_id: u32_at(bytes, 24),
    })
}

/// The reply that the bytes begin with, whatever its reserved bytes are.
pub fn decode_reply(bytes: &[u8]) -> Result<VdiRsp, HeaderFault>
    // The first refusal, or the fields by their offsets.
    ensures exact { result ≡ reply_in_bytes bytes.now }
    // What is read is a reply, and the bytes begin with its spelling.
    ensures spelled { IfOk result (λ rsp. IsVdiRsp rsp × SpellsReply bytes.now rsp) }
    // Each reply whose spelling they begin with is the one that is read.
    ensures only { (rsp : VdiRsp) → IsVdiRsp rsp → SpellsReply bytes.now rsp → result ≡ Ok rsp }
{
    read_reply(bytes)
}
