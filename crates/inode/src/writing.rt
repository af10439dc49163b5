//! Writing the fields of an inode, in the order of their offsets.
ghost use Rattle.std.specs.Prelude.{◌≡◌, ◌+◌, ◌*◌, ◌-◌, ◌<◌, ◌≤◌, ◌++◌, length, IfOk, OnOk};
ghost use Rattle.std.specs.Int.{w32};
ghost use Rattle.object_id.specs.Policy.{IsPolicy, strips_of};
ghost use Rattle.object_id.specs.Fields.{zeros, numbers_bytes};
ghost use Rattle.inode.specs.Layout.{header_bytes, inode_bytes, text_bytes, unread_zeros, no_children};

use crate::inode::Inode;
use crate::layout::{CHILDREN_BYTES, INODE_HEADER_BYTES, TEXT_BYTES};
use object_id::{Bytes, Kind, NoMemory, Policy};
use std::alloc::Global;

fn push_zeros(out: &mut Vec<u8>, count: usize) -> Result<(), NoMemory>
    ensures { OnOk result (out.new.items ≡ out.old.items ++ zeros count) }
{
    for _ in 0..count {
        out.push(0)?;
    }
    Ok(())
}

/// Writes a text, and zeros to the end of its field.
fn push_text(out: &mut Vec<u8>, text: &[u8]) -> Result<(), NoMemory>
    requires { length text.now < TEXT_BYTES }
    ensures { OnOk result (out.new.items ≡ out.old.items ++ text_bytes text.now (zeros (TEXT_BYTES - 1 - length text.now))) }
{
    out.extend_from_slice(text)?;
    out.push(0)?;
    push_zeros(out, TEXT_BYTES - 1 - text.len())
}

#[tactic(auto, unfolding(crate::specs::Layout::no_children))]
fn push_children(out: &mut Vec<u8>) -> Result<(), NoMemory>
    ensures { OnOk result (out.new.items ≡ out.old.items ++ no_children) }
{
    push_zeros(out, CHILDREN_BYTES)
}

/// The number that stands beside the policy byte: on how many nodes a data object is kept.
fn copies(policy: Policy) -> u8
    requires { IsPolicy policy }
    ensures { result ≡ strips_of policy }
{
    policy.wanted(Kind::Block)
}

fn write_header(alloc: Global, inode: &Inode) -> Result<Vec<u8>, NoMemory>
    ensures { IfOk result (λ out. out.items ≡ header_bytes inode.now (unread_zeros inode.now)) }
{
    let mut out = Vec::with_capacity(alloc, INODE_HEADER_BYTES + 4 * inode.table.len())?;
    push_text(&mut out, inode.name.as_slice())?;
    push_text(&mut out, inode.tag.as_slice())?;
    push_zeros(&mut out, 24)?;
    out.extend_from_slice(&inode.spec.size.to_le_bytes())?;
    push_zeros(&mut out, 8)?;
    out.push(inode.spec.policy.to_byte())?;
    out.push(0)?;
    out.push(copies(inode.spec.policy))?;
    out.push(inode.spec.shift)?;
    out.extend_from_slice(&inode.snap_id.to_le_bytes())?;
    out.extend_from_slice(&inode.vid.0.to_le_bytes())?;
    out.extend_from_slice(&inode.parent.to_le_bytes())?;
    push_children(&mut out)?;
    Ok(out)
}

fn push_table(out: &mut Vec<u8>, table: &[u32]) -> Result<(), NoMemory>
    ensures { OnOk result (out.new.items ≡ out.old.items ++ numbers_bytes w32 table.now) }
{
    for entry in table {
        out.extend_from_slice(&entry.to_le_bytes())?;
    }
    Ok(())
}

pub(crate) fn write_inode(alloc: Global, inode: &Inode) -> Result<Bytes, NoMemory>
    ensures { IfOk result (λ bytes. bytes ≡ inode_bytes inode.now (unread_zeros inode.now)) }
{
    let mut out = write_header(alloc, inode)?;
    push_table(&mut out, inode.table.as_slice())?;
    Ok(Bytes::from_vec(out))
}
