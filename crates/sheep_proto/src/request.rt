ghost use Rattle.std.specs.Prelude.{◌≡◌, ◌<◌, ◌≤◌, ◌^◌, IfOk, IsTrue, length};
ghost use Rattle.object_id.specs.Fields.{zeros};
ghost use Rattle.sheep_proto.specs.Headers.{common_at, is_object_opcode, is_vdi_opcode};
ghost use Rattle.sheep_proto.specs.Requests.{obj_bytes, vdi_bytes, request_bytes, reserved_of, obj_at, vdi_at, request_in_bytes};
ghost use Rattle.sheep_proto.specs.Requests.{SpellsRequest, IsRequest};

use crate::codes::{
    CREATE_AND_WRITE_OBJ, DEL_VDI, FLUSH_VDI, GET_VDI_INFO, LOCK_VDI, NEW_VDI, READ_OBJ,
    RELEASE_VDI, WRITE_OBJ,
};
use crate::common::{Common, HEADER_BYTES, put_common, read_common};
use crate::fault::HeaderFault;
use object_id::{u32_at, u64_at};

/// A request on an object.
#[derive(Clone, Copy, Debug, PartialEq, Eq)]
pub struct ObjReq {
    pub opcode: u8,
    pub flags: u16,
    pub epoch: u32,
    pub id: u32,
    pub data_length: u32,
    pub oid: u64,
    pub cow_oid: u64,
    pub copies: u8,
    pub copy_policy: u8,
    pub offset: u64,
}

/// A request on a disk. `kind_word` is the field that the protocol calls `type`.
#[derive(Clone, Copy, Debug, PartialEq, Eq)]
pub struct VdiReq {
    pub opcode: u8,
    pub flags: u16,
    pub epoch: u32,
    pub id: u32,
    pub data_length: u32,
    pub vdi_size: u64,
    pub base_vdi_id: u32,
    pub copies: u8,
    pub copy_policy: u8,
    pub store_policy: u8,
    pub block_size_shift: u8,
    pub snapid: u32,
    pub kind_word: u32,
}

/// A request, by the kind of its opcode.
#[derive(Clone, Copy, Debug, PartialEq, Eq)]
pub enum Request {
    Obj(ObjReq),
    Vdi(VdiReq),
}

pub(crate) fn is_object_opcode(opcode: u8) -> bool
    ensures { result ≡ is_object_opcode opcode }
{
    matches!(opcode, CREATE_AND_WRITE_OBJ | READ_OBJ | WRITE_OBJ)
}

pub(crate) fn is_vdi_opcode(opcode: u8) -> bool
    ensures { result ≡ is_vdi_opcode opcode }
{
    matches!(
        opcode,
        NEW_VDI | LOCK_VDI | RELEASE_VDI | GET_VDI_INFO | FLUSH_VDI | DEL_VDI
    )
}

fn encode_obj(req: &ObjReq) -> [u8; 48]
    ensures { result ≡ obj_bytes req.now (zeros 6) }
{
    let mut out = [0; 48];
    let common = Common {
        opcode: req.opcode,
        flags: req.flags,
        epoch: req.epoch,
        id: req.id,
        data_length: req.data_length,
    };
    put_common(&common, &mut out);
    out[16..24].copy_from_slice(&req.oid.to_le_bytes());
    out[24..32].copy_from_slice(&req.cow_oid.to_le_bytes());
    out[32] = req.copies;
    out[33] = req.copy_policy;
    out[40..48].copy_from_slice(&req.offset.to_le_bytes());
    out
}

fn encode_vdi(req: &VdiReq) -> [u8; 48]
    ensures { result ≡ vdi_bytes req.now (zeros 8) }
{
    let mut out = [0; 48];
    let common = Common {
        opcode: req.opcode,
        flags: req.flags,
        epoch: req.epoch,
        id: req.id,
        data_length: req.data_length,
    };
    put_common(&common, &mut out);
    out[16..24].copy_from_slice(&req.vdi_size.to_le_bytes());
    out[24..28].copy_from_slice(&req.base_vdi_id.to_le_bytes());
    out[28] = req.copies;
    out[29] = req.copy_policy;
    out[30] = req.store_policy;
    out[31] = req.block_size_shift;
    out[32..36].copy_from_slice(&req.snapid.to_le_bytes());
    out[36..40].copy_from_slice(&req.kind_word.to_le_bytes());
    out
}

/// The spelling of a request, with zeros for its reserved bytes.
pub fn encode_request(req: &Request) -> [u8; 48]
    ensures { result ≡ request_bytes req.now (zeros (reserved_of req.now)) }
{
    match req {
        Request::Obj(req) => encode_obj(req),
        Request::Vdi(req) => encode_vdi(req),
    }
}

fn read_obj(common: &Common, bytes: &[u8]) -> ObjReq
    requires long { HEADER_BYTES ≤ length bytes.now }
    requires common { common.now ≡ common_at bytes.now }
    ensures { result ≡ obj_at bytes.now }
{
    ObjReq {
        opcode: common.opcode,
        flags: common.flags,
        epoch: common.epoch,
        id: common.id,
        data_length: common.data_length,
        oid: u64_at(bytes, 16),
        cow_oid: u64_at(bytes, 24),
        copies: bytes[32],
        copy_policy: bytes[33],
        offset: u64_at(bytes, 40),
    }
}

fn read_vdi(common: &Common, bytes: &[u8]) -> VdiReq
    requires long { HEADER_BYTES ≤ length bytes.now }
    requires common { common.now ≡ common_at bytes.now }
    ensures { result ≡ vdi_at bytes.now }
{
    VdiReq {
        opcode: common.opcode,
        flags: common.flags,
        epoch: common.epoch,
        id: common.id,
        data_length: common.data_length,
        vdi_size: u64_at(bytes, 16),
        base_vdi_id: u32_at(bytes, 24),
        copies: bytes[28],
        copy_policy: bytes[29],
        store_policy: bytes[30],
        block_size_shift: bytes[31],
        snapid: u32_at(bytes, 32),
        kind_word: u32_at(bytes, 36),
    }
}

fn read_request(bytes: &[u8]) -> Result<Request, HeaderFault>
    ensures { result ≡ request_in_bytes bytes.now }
{
    let common = read_common(bytes)?;
    if is_object_opcode(common.opcode) {
        Ok(Request::Obj(read_obj(&common, bytes)))
    } else if is_vdi_opcode(common.opcode) {
        Ok(Request::Vdi(read_vdi(&common, bytes)))
    } else {
        Err(HeaderFault::UnknownOpcode)
    }
}

/// The request that the bytes begin with, whatever its reserved bytes are.
pub fn decode_request(bytes: &[u8]) -> Result<Request, HeaderFault>
    // The first refusal, or the fields by their offsets.
    ensures exact { result ≡ request_in_bytes bytes.now }
    // What is read is a request, and the bytes begin with its spelling.
    ensures spelled { IfOk result (λ req. IsRequest req × SpellsRequest bytes.now req) }
    // Each request whose spelling they begin with is the one that is read.
    ensures only { (req : Request) → IsRequest req → SpellsRequest bytes.now req → result ≡ Ok req }
{
    read_request(bytes)
}
