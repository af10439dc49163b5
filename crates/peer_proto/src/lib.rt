//! What nodes say to each other: requests, replies, and the bytes that they go over the wire as. Beside them stand the
//! plain types that pass between the parts of a node.
//!
//! The crate stands on `object_id`, `object_store`, `sheep_proto`, whose first 16 bytes of a header it shares, and
//! `gf256`, by whose parts works on coded data are aligned. A message's bytes are one spelling of it, said once for
//! both directions in `specs/Ask.antt` and `specs/Say.antt`: a header of 48 bytes, and what stands behind it. The encoders
//! give that spelling. The decoders take exactly the bytes that spell a message, and else answer with the first refusal.
//! Memory is taken only for what an answer keeps.
#![tactic(auto)]

mod ask;
mod ask_codec;
mod ask_head;
mod fault;
mod guest;
mod header;
mod ids;
mod laws;
mod opcode;
mod say;
mod say_codec;
mod say_head;
mod sends;
mod work;

pub use ask::{PeerAsk, PeerReq};
pub use ask_codec::{decode_ask, encode_ask};
pub use fault::PeerFault;
pub use guest::{Checked, DiskAsk, GuestRsp, VdiAsk};
pub use laws::{replies_have_one_spelling, requests_have_one_spelling, trimmed_rows_fit_a_reply};
pub use object_id::{Cause, Entry, Origin, VdiSpec};
pub use say::{PeerRsp, PeerSay, Refusal};
pub use say_codec::{decode_say, encode_say};
pub use sends::SendList;
pub use work::{ObjWork, WorkDone};
