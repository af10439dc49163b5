use object_id::Items;
use peer_proto::GuestRsp;

/// Replies to guests, each with the number of its request.
pub type ReplyList = Items<(u32, GuestRsp)>;
