//! Laws of the definitions, for the proofs of the layers above: each is the contract of a function that does nothing.
ghost use Rattle.std.specs.Prelude.{◌≡◌, ◌<◌, ◌≤◌, List, ℕ, Ok, Err, length, false, drop};
ghost use Rattle.object_id.specs.Fields.{AreBytes};
ghost use Rattle.object_store.specs.Bytes.{trimmed_bytes};
ghost use Rattle.peer_proto.specs.declared.ask.PeerReq.{PeerReq};
ghost use Rattle.peer_proto.specs.declared.say.PeerRsp.{PeerRsp};
ghost use Rattle.peer_proto.specs.Ask.{ask_bytes, ask_in, IsPeerReq};
ghost use Rattle.peer_proto.specs.Say.{say_bytes, say_in, ends_in_zero, IsPeerRsp};

/// A request has one spelling, and a spelling is of one request.
pub fn requests_have_one_spelling()
    // What is spelled is read, and gives the request.
    ensures again { (req : PeerReq) → IsPeerReq req → ask_in (ask_bytes req) ≡ Ok req }
    // Only what is spelled is read.
    ensures only { (bytes : List ℕ) (req : PeerReq) → AreBytes bytes → ask_in bytes ≡ Ok req → IsPeerReq req × (bytes ≡ ask_bytes req) }
    // No two requests share their bytes.
    ensures differ { (a b : PeerReq) → IsPeerReq a → IsPeerReq b → ask_bytes a ≡ ask_bytes b → a ≡ b }
{}

/// A reply has one spelling, and a spelling is of one reply.
pub fn replies_have_one_spelling()
    // What is spelled is read, and gives the reply.
    ensures again { (rsp : PeerRsp) → IsPeerRsp rsp → say_in (say_bytes rsp) ≡ Ok rsp }
    // Only what is spelled is read.
    ensures only { (bytes : List ℕ) (rsp : PeerRsp) → AreBytes bytes → say_in bytes ≡ Ok rsp → IsPeerRsp rsp × (bytes ≡ say_bytes rsp) }
    // No two replies share their bytes.
    ensures differ { (a b : PeerRsp) → IsPeerRsp a → IsPeerRsp b → say_bytes a ≡ say_bytes b → a ≡ b }
{}

/// The bytes that a store gives of a row are as a reply may have them.
pub fn trimmed_rows_fit_a_reply()
    ensures trimmed { (bytes : List ℕ) → ends_in_zero (trimmed_bytes bytes) ≡ false }
    ensures within { (bytes : List ℕ) → length (trimmed_bytes bytes) ≤ length bytes }
{}
