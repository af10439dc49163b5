//! Laws of the spellings, for the proofs of the layers above: each is the contract of a function that does nothing.
ghost use Rattle.std.specs.Prelude.{◌≡◌, ℕ, List, [], ◌++◌, length};
ghost use Rattle.object_id.specs.Fields.{zeros};
ghost use Rattle.sheep_proto.specs.declared.request.Request.{Request};
ghost use Rattle.sheep_proto.specs.declared.reply.VdiRsp.{VdiRsp};
ghost use Rattle.sheep_proto.specs.Requests.{request_bytes, reserved_of, SpellsRequest, IsRequest};
ghost use Rattle.sheep_proto.specs.Replies.{reply_bytes, SpellsReply, IsVdiRsp};

use crate::codes::{
    CREATE_AND_WRITE_OBJ, DEL_VDI, FLAG_CACHE, FLAG_COW, FLAG_DIRECT, FLAG_WRITE, FLUSH_VDI,
    GET_VDI_INFO, LOCK_VDI, NEW_VDI, READ_OBJ, RELEASE_VDI, RESULT_FULL_VDI, RESULT_HALT,
    RESULT_INVALID_PARMS, RESULT_LINK, RESULT_NEW_EPOCH, RESULT_NO_BASE_VDI, RESULT_NO_OBJ,
    RESULT_NO_TAG, RESULT_NO_VDI, RESULT_OLD_EPOCH, RESULT_READONLY, RESULT_RECOVERY,
    RESULT_SUCCESS, RESULT_VDI_EXIST, RESULT_VDI_LOCKED, RESULT_VDI_NOT_LOCKED,
    RESULT_VER_MISMATCH, WRITE_OBJ,
};
use crate::common::{HEADER_BYTES, VERSION};

/// Each number of the protocol is this one.
pub fn codes_in_numbers()
    ensures header { (HEADER_BYTES ≡ 48) × (VERSION ≡ 1) }
    ensures objects { (CREATE_AND_WRITE_OBJ ≡ 1) × (READ_OBJ ≡ 2) × (WRITE_OBJ ≡ 3) }
    ensures disks { (NEW_VDI ≡ 17) × (LOCK_VDI ≡ 18) × (RELEASE_VDI ≡ 19) × (GET_VDI_INFO ≡ 20) × (FLUSH_VDI ≡ 22) × (DEL_VDI ≡ 23) }
    ensures flags { (FLAG_WRITE ≡ 1) × (FLAG_COW ≡ 2) × (FLAG_CACHE ≡ 4) × (FLAG_DIRECT ≡ 8) }
    ensures success { RESULT_SUCCESS ≡ 0 }
    ensures found { (RESULT_NO_OBJ ≡ 2) × (RESULT_NO_VDI ≡ 8) × (RESULT_NO_BASE_VDI ≡ 9) × (RESULT_NO_TAG ≡ 14) × (RESULT_VDI_EXIST ≡ 4) }
    ensures asked { (RESULT_INVALID_PARMS ≡ 5) × (RESULT_VER_MISMATCH ≡ 20) × (RESULT_READONLY ≡ 26) }
    ensures locks { (RESULT_VDI_LOCKED ≡ 7) × (RESULT_VDI_NOT_LOCKED ≡ 16) }
    ensures cluster { (RESULT_FULL_VDI ≡ 19) × (RESULT_HALT ≡ 25) }
    ensures own { (RESULT_OLD_EPOCH ≡ 129) × (RESULT_NEW_EPOCH ≡ 130) × (RESULT_RECOVERY ≡ 131) × (RESULT_LINK ≡ 132) }
{}

/// Bytes begin with the spelling of one request at most, and what `encode_request` gives begins with that of the request,
/// whatever follows it. So decoding it gives the request.
pub fn requests_are_read_again()
    ensures one { (bytes : List ℕ) (a b : Request) → IsRequest a → IsRequest b → SpellsRequest bytes a → SpellsRequest bytes b → a ≡ b }
    ensures encoded { (req : Request) (rest : List ℕ) → SpellsRequest (request_bytes req (zeros (reserved_of req)) ++ rest) req }
{}

/// The same of replies.
pub fn replies_are_read_again()
    ensures one { (bytes : List ℕ) (a b : VdiRsp) → IsVdiRsp a → IsVdiRsp b → SpellsReply bytes a → SpellsReply bytes b → a ≡ b }
    ensures encoded { (rsp : VdiRsp) (rest : List ℕ) → SpellsReply (reply_bytes rsp (zeros 4) (zeros 20) ++ rest) rsp }
{}
