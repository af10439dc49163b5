ghost use Rattle.std.specs.Prelude.{◌≡◌, ◌%◌, ◌^◌, ◌≤◌, length};
ghost use Rattle.sheep_proto.specs.Headers.{common_at};
ghost use Rattle.peer_proto.specs.Say.{form_byte, form_opcode, form_of, refusal_result, to_number, ends_in_zero, say_form, say_result};
ghost use Rattle.peer_proto.specs.Say.{say_row, say_body, say_head, say_head_bytes, say_head_at, is_say_head, has_no_row, fits_row_head};
ghost use Rattle.peer_proto.specs.Say.{is_refusal_result, has_form, fits_say, no_row};

use crate::ids::{ID_BYTES, are_id_bytes};
use crate::opcode::Opcode;
use crate::say::{PeerRsp, PeerSay, Refusal};
use object_id::{Epoch, INDEX_MAX, u16_at, u32_at, u64_at};
use sheep_proto::{Common, HEADER_BYTES, put_common};

/// Which reply it is, as a byte of its header.
#[derive(Clone, Copy, Debug, PartialEq, Eq)]
pub enum Form {
    Success,
    Piece,
    Objects,
    Row,
    NoRow,
    Refused,
}

impl Form {
    pub fn to_byte(self) -> u8
        ensures { result ≡ form_byte self }
    {
        match self {
            Form::Success => 0,
            Form::Piece => 1,
            Form::Objects => 2,
            Form::Row => 3,
            Form::NoRow => 4,
            Form::Refused => 5,
        }
    }

    pub fn from_byte(byte: u8) -> Option<Form>
        ensures { result ≡ form_of byte }
    {
        match byte {
            0 => Some(Form::Success),
            1 => Some(Form::Piece),
            2 => Some(Form::Objects),
            3 => Some(Form::Row),
            4 => Some(Form::NoRow),
            5 => Some(Form::Refused),
            _ => None,
        }
    }

    /// The opcode that goes with it.
    pub fn opcode(self) -> Opcode
        ensures { result ≡ form_opcode self }
    {
        match self {
            Form::Success => Opcode::Create,
            Form::Piece => Opcode::Read,
            Form::Objects => Opcode::List,
            Form::Row => Opcode::RecoverRead,
            Form::NoRow => Opcode::RecoverRead,
            Form::Refused => Opcode::Create,
        }
    }
}

/// What a reply's header says of a row; zeros where there is none.
#[derive(Clone, Copy, Debug)]
pub struct RowHead {
    pub index: u8,
    pub from: u32,
    pub to: u32,
    pub size: u32,
}

/// The header of a reply, field by field, as it stands in the bytes. The last three are named by their places.
#[derive(Clone, Copy, Debug)]
pub struct SayHead {
    pub common: Common,
    pub result: u32,
    pub form: u8,
    pub row: RowHead,
    pub zeros_22: u16,
    pub zeros_36: u32,
    pub zeros_40: u64,
}

fn say_form(say: &PeerSay) -> Form
    ensures { result ≡ say_form say.now }
{
    match say {
        PeerSay::Success => Form::Success,
        PeerSay::Piece(_) => Form::Piece,
        PeerSay::Objects(_) => Form::Objects,
        PeerSay::Row(_) => Form::Row,
        PeerSay::NoRow => Form::NoRow,
        PeerSay::Refused(_) => Form::Refused,
    }
}

fn refusal_result(refusal: Refusal) -> u32
    ensures { result ≡ refusal_result refusal }
{
    match refusal {
        Refusal::OldEpoch { .. } => 0x81,
        Refusal::NewEpoch { .. } => 0x82,
        Refusal::Recovery => 0x83,
        Refusal::NoObj => 0x02,
    }
}

fn say_result(say: &PeerSay) -> u32
    ensures { result ≡ say_result say.now }
{
    match say {
        PeerSay::Refused(refusal) => refusal_result(*refusal),
        _ => 0,
    }
}

fn to_number(to: Option<Epoch>) -> u32
    ensures { result ≡ to_number to }
{
    match to {
        None => 0,
        Some(to) => to.0,
    }
}

fn say_row(say: &PeerSay) -> RowHead
    ensures { result ≡ say_row say.now }
{
    match say {
        PeerSay::Row(row) => RowHead {
            index: row.index,
            from: row.from.0,
            to: to_number(row.to),
            size: row.length,
        },
        _ => RowHead {
            index: 0,
            from: 0,
            to: 0,
            size: 0,
        },
    }
}

/// A count as four bytes have it.
fn low_word(count: usize) -> u32
    ensures { result ≡ count % 2 ^ 32 }
{
    (count % (1 << 32)) as u32
}

/// How many bytes stand behind the header.
#[tactic(auto, using(crate::proofs::IdLemmas::length_id_bytes))]
fn data_length(say: &PeerSay) -> u32
    ensures { result ≡ length (say_body say.now) % 2 ^ 32 }
{
    match say {
        PeerSay::Success => 0,
        PeerSay::Piece(bytes) => low_word(bytes.len()),
        PeerSay::Objects(oids) => low_word(oids.len() % (1 << 32) * ID_BYTES),
        PeerSay::Row(row) => low_word(row.bytes.len()),
        PeerSay::NoRow => 0,
        PeerSay::Refused(_) => 0,
    }
}

/// The header of a reply.
pub fn say_head(rsp: &PeerRsp) -> SayHead
    ensures { result ≡ say_head rsp.now }
{
    let form = say_form(&rsp.say);
    SayHead {
        common: Common {
            opcode: form.opcode().to_byte(),
            flags: 0,
            epoch: rsp.epoch.0,
            id: rsp.number,
            data_length: data_length(&rsp.say),
        },
        result: say_result(&rsp.say),
        form: form.to_byte(),
        row: say_row(&rsp.say),
        zeros_22: 0,
        zeros_36: 0,
        zeros_40: 0,
    }
}

/// The bytes of a header.
pub fn say_head_bytes(head: &SayHead) -> [u8; HEADER_BYTES]
    ensures { result ≡ say_head_bytes head.now }
{
    let mut out = [0; HEADER_BYTES];
    put_common(&head.common, &mut out);
    out[16..20].copy_from_slice(&head.result.to_le_bytes());
    out[20] = head.row.index;
    out[21] = head.form;
    out[22..24].copy_from_slice(&head.zeros_22.to_le_bytes());
    out[24..28].copy_from_slice(&head.row.from.to_le_bytes());
    out[28..32].copy_from_slice(&head.row.to.to_le_bytes());
    out[32..36].copy_from_slice(&head.row.size.to_le_bytes());
    out[36..40].copy_from_slice(&head.zeros_36.to_le_bytes());
    out[40..48].copy_from_slice(&head.zeros_40.to_le_bytes());
    out
}

/// The header of bytes whose first 16 have been read.
pub fn say_head_at(common: Common, bytes: &[u8]) -> SayHead
    requires long { 48 ≤ length bytes.now }
    requires common { common ≡ common_at bytes.now }
    ensures { result ≡ say_head_at bytes.now }
{
    SayHead {
        common,
        result: u32_at(bytes, 16),
        form: bytes[21],
        row: RowHead {
            index: bytes[20],
            from: u32_at(bytes, 24),
            to: u32_at(bytes, 28),
            size: u32_at(bytes, 32),
        },
        zeros_22: u16_at(bytes, 22),
        zeros_36: u32_at(bytes, 36),
        zeros_40: u64_at(bytes, 40),
    }
}

/// What the fields of every reply must meet.
fn is_say_head(head: &SayHead, body: &[u8]) -> bool
    ensures { result ≡ is_say_head head.now body.now }
{
    head.common.flags == 0
        && head.common.epoch != 0
        && head.common.data_length as usize == body.len()
        && head.zeros_22 == 0
        && head.zeros_36 == 0
        && head.zeros_40 == 0
}

fn has_no_row(row: &RowHead) -> bool
    ensures { result ≡ has_no_row row.now }
{
    row.index == 0 && row.from == 0 && row.to == 0 && row.size == 0
}

/// Whether the last byte, if there is one, is 0.
fn ends_in_zero(bytes: &[u8]) -> bool
    ensures { result ≡ ends_in_zero bytes.now }
{
    !bytes.is_empty() && bytes[bytes.len() - 1] == 0
}

fn is_row_of(row: &RowHead, body: &[u8]) -> bool
    ensures { result ≡ fits_row_head row.now body.now }
{
    row.index <= INDEX_MAX
        && row.from != 0
        && body.len() <= row.size as usize
        && !ends_in_zero(body)
}

fn is_refusal_result(result_number: u32) -> bool
    ensures { result ≡ is_refusal_result result_number }
{
    result_number == 0x81 || result_number == 0x82 || result_number == 0x83 || result_number == 0x02
}

/// What the fields of a reply of this form must meet besides.
fn has_form(form: Form, head: &SayHead, body: &[u8]) -> bool
    ensures { result ≡ has_form form head.now body.now }
{
    match form {
        Form::Success => head.result == 0 && has_no_row(&head.row) && body.is_empty(),
        Form::Piece => head.result == 0 && has_no_row(&head.row),
        Form::Objects => head.result == 0 && has_no_row(&head.row) && are_id_bytes(body),
        Form::Row => head.result == 0 && is_row_of(&head.row, body),
        Form::NoRow => head.result == 0 && has_no_row(&head.row) && body.is_empty(),
        Form::Refused => {
            is_refusal_result(head.result) && has_no_row(&head.row) && body.is_empty()
        }
    }
}

/// Whether a header and the bytes behind it are a reply of this form.
pub fn fits_say(form: Form, head: &SayHead, body: &[u8]) -> bool
    ensures { result ≡ fits_say form head.now body.now }
{
    head.common.opcode == form.opcode().to_byte()
        && is_say_head(head, body)
        && has_form(form, head, body)
}
