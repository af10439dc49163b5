//! Reading the fields of an inode, in the order of their refusals.
ghost use Rattle.std.specs.Prelude.{◌≡◌, ◌≢◌, ◌+◌, ◌*◌, ◌%◌, ◌^◌, ◌<◌, ◌≤◌, length, slice_index, All, IfOk, IfSome};
ghost use Rattle.std.specs.List.{list_all, position};
ghost use Rattle.std.specs.Int.{w32};
ghost use Rattle.object_id.specs.Policy.{IsPolicy};
ghost use Rattle.object_id.specs.Spec.{IsSpec, objects_of};
ghost use Rattle.object_id.specs.Fields as fields;
ghost use Rattle.object_id.specs.Fields.{numbers_at};
ghost use Rattle.inode.specs.Layout.{IsFieldText};
ghost use Rattle.inode.specs.Reading as reading;
ghost use Rattle.inode.specs.Parts.{parts_content};

use crate::fault::InodeFault;
use crate::inode::{Inode, objects};
use crate::layout::{INODE_HEADER_BYTES, TEXT_BYTES};
use object_id::{
    BLOCK_BYTES, Bytes, NoMemory, OBJECTS_MAX, Policy, SHIFT_MAX, SHIFT_MIN, VID_MAX, VdiSpec, Vid,
    u32_at, u64_at,
};
use std::alloc::Global;

fn end_of(field: &[u8]) -> Option<usize>
    ensures { result ≡ position reading.is_end field.now }
{
    field.iter().position(|byte| *byte == 0)
}

/// The text before the first 0 of a field.
fn text_of(field: &[u8]) -> Result<&[u8], InodeFault>
    ensures value { reading.GivesField (λ text. text.now) result (reading.text_in_field field.now) }
    ensures ends { IfOk result (λ text. (length text.now < length field.now) × All (λ byte. byte ≢ 0) text.now) }
{
    match end_of(field) {
        Some(end) => Ok(&field[..end]),
        None => Err(InodeFault::NameNotEnded),
    }
}

#[tactic(auto, unfolding(crate::specs::Reading::text_at))]
fn text_at(bytes: &[u8], at: usize) -> Result<&[u8], InodeFault>
    requires { at + TEXT_BYTES ≤ length bytes.now }
    ensures value { reading.GivesField (λ text. text.now) result (reading.text_at at bytes.now) }
    ensures valid { IfOk result (λ text. IsFieldText text.now) }
{
    text_of(&bytes[at..at + TEXT_BYTES])
}

#[tactic(auto, unfolding(crate::specs::Reading::shift_at))]
fn shift_at(bytes: &[u8]) -> Result<u8, InodeFault>
    requires { INODE_HEADER_BYTES ≤ length bytes.now }
    ensures value { result ≡ reading.shift_at bytes.now }
    ensures limits { IfOk result (λ shift. (SHIFT_MIN ≤ shift) × (shift ≤ SHIFT_MAX)) }
{
    let shift = bytes[555];
    if SHIFT_MIN <= shift && shift <= SHIFT_MAX {
        Ok(shift)
    } else {
        Err(InodeFault::BadShift)
    }
}

fn policy_of(byte: u8, copies: u8) -> Option<Policy>
    ensures value { result ≡ reading.spelled_policy byte copies }
    ensures valid { IfSome result (λ policy. IsPolicy policy) }
{
    match Policy::from_byte(byte, copies) {
        Ok(policy) => Some(policy),
        Err(_) => None,
    }
}

#[tactic(auto, unfolding(crate::specs::Reading::policy_at))]
fn policy_at(bytes: &[u8]) -> Result<Policy, InodeFault>
    requires { INODE_HEADER_BYTES ≤ length bytes.now }
    ensures value { result ≡ reading.policy_at bytes.now }
    ensures valid { IfOk result (λ policy. IsPolicy policy) }
{
    match policy_of(bytes[552], bytes[554]) {
        Some(policy) => Ok(policy),
        None => Err(InodeFault::BadPolicy),
    }
}

#[tactic(auto, unfolding(crate::specs::Reading::size_at))]
fn size_at(shift: u8, bytes: &[u8]) -> Result<u64, InodeFault>
    requires long { INODE_HEADER_BYTES ≤ length bytes.now }
    requires shift { shift ≤ SHIFT_MAX }
    ensures value { result ≡ reading.size_at shift bytes.now }
    ensures limits { IfOk result (λ size. (BLOCK_BYTES ≤ size) × (size ≤ OBJECTS_MAX * 2 ^ shift)) }
    ensures blocks { IfOk result (λ size. size % BLOCK_BYTES ≡ 0) }
{
    let size = u64_at(bytes, 536);
    if size != 0
        && size % u64::from(BLOCK_BYTES) == 0
        && size <= u64::from(OBJECTS_MAX) * (1 << shift)
    {
        Ok(size)
    } else {
        Err(InodeFault::BadSize)
    }
}

#[tactic(auto, unfolding(crate::specs::Reading::spec_at))]
fn spec_at(bytes: &[u8]) -> Result<VdiSpec, InodeFault>
    requires { INODE_HEADER_BYTES ≤ length bytes.now }
    ensures value { result ≡ reading.spec_at bytes.now }
    ensures valid { IfOk result (λ spec. IsSpec spec) }
{
    let shift = shift_at(bytes)?;
    let policy = policy_at(bytes)?;
    let size = size_at(shift, bytes)?;
    Ok(VdiSpec {
        size,
        policy,
        shift,
    })
}

#[tactic(auto, unfolding(crate::specs::Reading::vid_at))]
fn vid_at(bytes: &[u8]) -> Result<Vid, InodeFault>
    requires { INODE_HEADER_BYTES ≤ length bytes.now }
    ensures { reading.GivesField (λ vid. vid.0) result (reading.vid_at bytes.now) }
{
    let vid = Vid(u32_at(bytes, 560));
    if vid.is_valid() {
        Ok(vid)
    } else {
        Err(InodeFault::BadSize)
    }
}

/// Whether so many entries of a table are each 0 or a disk's id.
fn are_entries(count: u32, bytes: &[u8]) -> bool
    requires { INODE_HEADER_BYTES + 4 * count ≤ length bytes.now }
    ensures { result ≡ list_all reading.is_entry (numbers_at w32 count INODE_HEADER_BYTES bytes.now) }
{
    for place in 0..count as usize {
        if u32_at(bytes, INODE_HEADER_BYTES + 4 * place) > VID_MAX {
            return false;
        }
    }
    true
}

/// Looks at the table: whether it is whole, and each entry one.
#[tactic(auto, unfolding(crate::specs::Reading::table_at))]
fn check_table(spec: VdiSpec, bytes: &[u8]) -> Result<(), InodeFault>
    requires { IsSpec spec }
    ensures value { reading.GivesField (λ _. numbers_at w32 (objects_of spec) INODE_HEADER_BYTES bytes.now) result
        (reading.table_at spec bytes.now) }
    ensures long { IfOk result (λ _. INODE_HEADER_BYTES + 4 * objects_of spec ≤ length bytes.now) }
{
    let count = objects(spec);
    if bytes.len() < INODE_HEADER_BYTES + 4 * count as usize {
        return Err(InodeFault::ShortInode);
    }
    if !are_entries(count, bytes) {
        return Err(InodeFault::BadEntry);
    }
    Ok(())
}

/// The byte at an offset; 0 past the end.
fn byte_at(bytes: &[u8], at: usize) -> u8
    ensures { result ≡ slice_index bytes.now at }
{
    match bytes.get(at) {
        Some(byte) => *byte,
        None => 0,
    }
}

/// The number of four bytes at an offset, of which those past the end are 0.
fn entry_at(bytes: &[u8], at: usize) -> u32
    requires { at + 4 < 2 ^ 64 }
    ensures { result ≡ fields.u32_at at bytes.now }
{
    u32::from_le_bytes([
        byte_at(bytes, at),
        byte_at(bytes, at + 1),
        byte_at(bytes, at + 2),
        byte_at(bytes, at + 3),
    ])
}

/// So many entries of the table in bytes that need be no inode: what is past their end reads as 0.
pub fn entries_in(alloc: Global, count: u32, bytes: &[u8]) -> Result<Vec<u32>, NoMemory>
    ensures value { IfOk result (λ table. table.items ≡ numbers_at w32 count INODE_HEADER_BYTES bytes.now) }
    ensures count { IfOk result (λ table. length table.items ≡ count) }
{
    let mut table = Vec::with_capacity(alloc, count as usize)?;
    for place in 0..count as usize {
        table.push(entry_at(bytes, INODE_HEADER_BYTES + 4 * place))?;
    }
    Ok(table)
}

/// What bytes that have a header say, but for the table.
#[derive(Drop)]
struct Parts<'a> {
    name: &'a [u8],
    tag: &'a [u8],
    spec: VdiSpec,
    snap_id: u32,
    vid: Vid,
    parent: u32,
}

#[tactic(auto, unfolding(crate::specs::Reading::content_at))]
fn read_parts(bytes: &[u8]) -> Result<Parts<'_>, InodeFault>
    requires { INODE_HEADER_BYTES ≤ length bytes.now }
    ensures value { reading.GivesField (λ parts. parts_content parts bytes.now) result (reading.content_at bytes.now) }
    ensures texts { IfOk result (λ parts. IsFieldText parts.name.now × IsFieldText parts.tag.now) }
    ensures spec { IfOk result (λ parts. IsSpec parts.spec) }
    ensures long { IfOk result (λ parts. INODE_HEADER_BYTES + 4 * objects_of parts.spec ≤ length bytes.now) }
{
    let name = text_at(bytes, 0)?;
    let tag = text_at(bytes, TEXT_BYTES)?;
    let spec = spec_at(bytes)?;
    let vid = vid_at(bytes)?;
    check_table(spec, bytes)?;
    Ok(Parts {
        name,
        tag,
        spec,
        snap_id: u32_at(bytes, 556),
        vid,
        parent: u32_at(bytes, 564),
    })
}

fn make(alloc: Global, parts: &Parts<'_>, bytes: &[u8]) -> Result<Inode, NoMemory>
    requires texts { IsFieldText parts.now.name.now × IsFieldText parts.now.tag.now }
    requires spec { IsSpec parts.now.spec }
    requires long { INODE_HEADER_BYTES + 4 * objects_of parts.now.spec ≤ length bytes.now }
    ensures { IfOk result (λ inode. inode ≡ parts_content parts.now bytes.now) }
{
    let name = Bytes::from_slice(alloc, parts.name)?;
    let tag = Bytes::from_slice(alloc, parts.tag)?;
    let table = entries_in(alloc, objects(parts.spec), bytes)?;
    Ok(Inode {
        name,
        tag,
        spec: parts.spec,
        snap_id: parts.snap_id,
        vid: parts.vid,
        parent: parts.parent,
        table,
    })
}

#[tactic(auto, unfolding(crate::specs::Reading::inode_of))]
pub(crate) fn read_inode(alloc: Global, bytes: &[u8]) -> Result<Inode, InodeFault>
    ensures { reading.GivesOrNoMemory (λ inode. inode) result (reading.inode_of bytes.now) }
{
    if bytes.len() < INODE_HEADER_BYTES {
        return Err(InodeFault::ShortInode);
    }
    let parts = read_parts(bytes)?;
    Ok(make(alloc, &parts, bytes)?)
}
