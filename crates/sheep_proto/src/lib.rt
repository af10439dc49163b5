//! The headers of the protocol that block drivers speak: requests on objects and on disks, and their replies.
//!
//! Every header has 48 bytes, little-endian. The first 16 have one layout ([`Common`]), which the peer messages share. A
//! value has one spelling (`specs/Requests.antt`, `specs/Replies.antt`: the fields in the order of the table). A decoder
//! answers Ok exactly where the bytes begin with the spelling of a value, whatever its reserved bytes are, and with that
//! value; and else the first refusal in the order of [`HeaderFault`]. Reserved bytes are written as zeros, unknown flags
//! are kept, and what follows the 48 bytes isn't looked at.
//!
//! The crate stands on `object_id`, which spells and reads numbers. No call takes memory.
#![tactic(auto)]

mod codes;
mod common;
mod fault;
mod laws;
mod reply;
mod request;

pub use codes::{
    CREATE_AND_WRITE_OBJ, DEL_VDI, FLAG_CACHE, FLAG_COW, FLAG_DIRECT, FLAG_WRITE, FLUSH_VDI,
    GET_VDI_INFO, LOCK_VDI, NEW_VDI, READ_OBJ, RELEASE_VDI, RESULT_FULL_VDI, RESULT_HALT,
    RESULT_INVALID_PARMS, RESULT_LINK, RESULT_NEW_EPOCH, RESULT_NO_BASE_VDI, RESULT_NO_OBJ,
    RESULT_NO_TAG, RESULT_NO_VDI, RESULT_OLD_EPOCH, RESULT_READONLY, RESULT_RECOVERY,
    RESULT_SUCCESS, RESULT_VDI_EXIST, RESULT_VDI_LOCKED, RESULT_VDI_NOT_LOCKED,
    RESULT_VER_MISMATCH, WRITE_OBJ,
};
pub use common::{Common, HEADER_BYTES, VERSION, put_common, read_common};
pub use fault::HeaderFault;
pub use laws::{codes_in_numbers, replies_are_read_again, requests_are_read_again};
pub use reply::{VdiRsp, decode_reply, encode_reply};
pub use request::{ObjReq, Request, VdiReq, decode_request, encode_request};
