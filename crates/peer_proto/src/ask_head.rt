ghost use Rattle.std.specs.Prelude.{◌≡◌, ◌≤◌, length};
ghost use Rattle.sheep_proto.specs.Headers.{common_at};
ghost use Rattle.peer_proto.specs.Ask.{ask_body, ask_head, ask_head_bytes, ask_head_at, head_with, is_ask_head, has_no_piece, has_fields};
ghost use Rattle.peer_proto.specs.Ask.{fits_ask};

use crate::ask::{PeerAsk, PeerReq};
use crate::ids::is_oid;
use crate::opcode::Opcode;
use object_id::{INDEX_MAX, NODES_MAX, u32_at, u64_at};
use sheep_proto::{Common, HEADER_BYTES, put_common};

/// The header of a request, field by field, as it stands in the bytes.
#[derive(Clone, Copy, Debug)]
pub struct AskHead {
    pub common: Common,
    pub oid: u64,
    pub word: u32,
    pub sender: u32,
    /// The index and the seven zeros behind it.
    pub index: u64,
    pub offset: u64,
}

/// The bytes that stand behind the header.
pub fn ask_body(ask: &PeerAsk) -> &[u8]
    ensures { result.now ≡ ask_body ask.now }
{
    match ask {
        PeerAsk::Create { bytes, .. } => bytes.as_slice(),
        PeerAsk::Write { bytes, .. } => bytes.as_slice(),
        PeerAsk::Read { .. } => &[],
        PeerAsk::List => &[],
        PeerAsk::RecoverRead { .. } => &[],
    }
}

/// The header of a request.
pub fn ask_head(req: &PeerReq) -> AskHead
    ensures { result ≡ ask_head req.now }
{
    match &req.ask {
        PeerAsk::Create {
            key,
            length,
            offset,
            ..
        } => head_with(
            req,
            Opcode::Create,
            key.oid.as_u64(),
            *length,
            key.index,
            *offset,
        ),
        PeerAsk::Write { key, offset, .. } => {
            head_with(req, Opcode::Write, key.oid.as_u64(), 0, key.index, *offset)
        }
        PeerAsk::Read {
            key,
            offset,
            length,
        } => head_with(
            req,
            Opcode::Read,
            key.oid.as_u64(),
            *length,
            key.index,
            *offset,
        ),
        PeerAsk::List => head_with(req, Opcode::List, 0, 0, 0, 0),
        PeerAsk::RecoverRead { oid, level } => {
            head_with(req, Opcode::RecoverRead, oid.as_u64(), level.0, 0, 0)
        }
    }
}

fn head_with(req: &PeerReq, opcode: Opcode, oid: u64, word: u32, index: u8, offset: u32) -> AskHead
    ensures { result ≡ head_with req.now opcode oid word index offset }
{
    AskHead {
        common: Common {
            opcode: opcode.to_byte(),
            flags: 0,
            epoch: req.epoch.0,
            id: req.number,
            data_length: (ask_body(&req.ask).len() % (1 << 32)) as u32,
        },
        oid,
        word,
        sender: req.from.0,
        index: u64::from(index),
        offset: u64::from(offset),
    }
}

/// The bytes of a header.
pub fn ask_head_bytes(head: &AskHead) -> [u8; HEADER_BYTES]
    ensures { result ≡ ask_head_bytes head.now }
{
    let mut out = [0; HEADER_BYTES];
    put_common(&head.common, &mut out);
    out[16..24].copy_from_slice(&head.oid.to_le_bytes());
    out[24..28].copy_from_slice(&head.word.to_le_bytes());
    out[28..32].copy_from_slice(&head.sender.to_le_bytes());
    out[32..40].copy_from_slice(&head.index.to_le_bytes());
    out[40..48].copy_from_slice(&head.offset.to_le_bytes());
    out
}

/// The header of bytes whose first 16 have been read.
pub fn ask_head_at(common: Common, bytes: &[u8]) -> AskHead
    requires long { 48 ≤ length bytes.now }
    requires common { common ≡ common_at bytes.now }
    ensures { result ≡ ask_head_at bytes.now }
{
    AskHead {
        common,
        oid: u64_at(bytes, 16),
        word: u32_at(bytes, 24),
        sender: u32_at(bytes, 28),
        index: u64_at(bytes, 32),
        offset: u64_at(bytes, 40),
    }
}

/// What the fields of every request must meet.
fn is_ask_head(head: &AskHead, body: &[u8]) -> bool
    ensures { result ≡ is_ask_head head.now body.now }
{
    head.common.flags == 0
        && head.common.epoch != 0
        && head.common.data_length as usize == body.len()
        && head.sender < NODES_MAX
        && head.index <= u64::from(INDEX_MAX)
        && head.offset < 1 << 32
}

/// Whether index and offset are 0, as in a request without a piece.
fn has_no_piece(head: &AskHead) -> bool
    ensures { result ≡ has_no_piece head.now }
{
    head.index == 0 && head.offset == 0
}

/// What the fields of a request with this opcode must meet besides.
fn has_fields(opcode: Opcode, head: &AskHead, body: &[u8]) -> bool
    ensures { result ≡ has_fields opcode head.now body.now }
{
    match opcode {
        Opcode::Create => is_oid(head.oid),
        Opcode::Read => is_oid(head.oid) && body.is_empty(),
        Opcode::Write => is_oid(head.oid) && head.word == 0,
        Opcode::List => { head.oid == 0 && head.word == 0 && has_no_piece(head) && body.is_empty() }
        Opcode::RecoverRead => {
            is_oid(head.oid) && head.word != 0 && has_no_piece(head) && body.is_empty()
        }
    }
}

/// Whether a header and the bytes behind it are a request of this opcode.
pub fn fits_ask(opcode: Opcode, head: &AskHead, body: &[u8]) -> bool
    ensures { result ≡ fits_ask opcode head.now body.now }
{
    is_ask_head(head, body) && has_fields(opcode, head, body)
}
