//! Whether what is asked of a node is as it may be.

ghost use Rattle.std.specs.Prelude.{◌≡◌, ◌+◌, ◌↔◌, length, Some, IsTrue};
ghost use Rattle.object_id.specs.declared.policy.Policy.{Policy as ThePolicy};
ghost use Rattle.object_id.specs.Spec.{IsSpec};
ghost use Rattle.vdi_ops.specs.Entries.{IsVdiAsk};
ghost use Rattle.sheep_node.specs.OutsideAsks.{work_offset, work_size, IsObjectAsk, IsEntryAsk, InputNamesObjects};
ghost use Rattle.sheep_node.specs.MayTests.{is_aligned, makes_whole, is_work_by_spec, is_object_ask, is_entry_ask};

use crate::ask::Ask;
use crate::input::Input;
use object_id::{BLOCK_BYTES, Entry, Kind, NodeId, Policy, VdiSpec, is_name, is_tag};
use object_store::ObjStore;
use peer_proto::{ObjWork, VdiAsk};
use peer_service::{PeerState, object_size};

/// Whether a command's names and tags are such, and a new disk may be made so.
pub(crate) fn is_vdi_ask(ask: &VdiAsk) -> bool
    ensures { IsTrue result ↔ IsVdiAsk ask.now }
{
    match ask {
        VdiAsk::Create { name, spec } => is_name(name.as_slice()) && spec.is_valid(),
        VdiAsk::Attach { name, tag } => is_name(name.as_slice()) && is_tag(tag),
        VdiAsk::Close => true,
        VdiAsk::Snapshot { tag } => is_name(tag.as_slice()),
        VdiAsk::Clone { base, tag, name } => {
            is_name(base.as_slice()) && is_name(tag.as_slice()) && is_name(name.as_slice())
        }
        VdiAsk::Delete { name, tag } => is_name(name.as_slice()) && is_tag(tag),
        VdiAsk::Check => true,
    }
}

/// Whether an offset or a length goes by whole parts: those of strips by whole blocks.
fn is_aligned(policy: Policy, kind: Kind, n: u64) -> bool
    ensures { result ≡ is_aligned policy kind n }
{
    match (policy, kind) {
        (Policy::Coded { .. }, Kind::Block) => n % u64::from(BLOCK_BYTES) == 0,
        _ => true,
    }
}

/// Where the bytes begin that a work is about.
fn work_offset(work: &ObjWork) -> u32
    ensures { result ≡ work_offset work.now }
{
    match work {
        ObjWork::Create { offset, .. } => *offset,
        ObjWork::Write { offset, .. } => *offset,
        ObjWork::Read { offset, .. } => *offset,
        ObjWork::ReadAll { .. } => 0,
    }
}

/// How many there are.
fn work_size(work: &ObjWork) -> u64
    ensures { result ≡ work_size work.now }
{
    match work {
        ObjWork::Create { bytes, .. } => bytes.len() as u64,
        ObjWork::Write { bytes, .. } => bytes.len() as u64,
        ObjWork::Read { length, .. } => u64::from(*length),
        ObjWork::ReadAll { length, .. } => u64::from(*length),
    }
}

/// Where these bytes end.
fn work_end(work: &ObjWork) -> u64
    ensures { result ≡ work_offset work.now + work_size work.now }
{
    match work {
        ObjWork::Create { offset, bytes, .. } => u64::from(*offset) + bytes.as_slice().len() as u64,
        ObjWork::Write { offset, bytes, .. } => u64::from(*offset) + bytes.as_slice().len() as u64,
        ObjWork::Read { offset, length, .. } => u64::from(*offset) + u64::from(*length),
        ObjWork::ReadAll { length, .. } => u64::from(*length),
    }
}

/// Whether a create makes the object as long as it is.
fn makes_whole(object_bytes: u32, work: &ObjWork) -> bool
    ensures { result ≡ makes_whole object_bytes work.now }
{
    match work {
        ObjWork::Create { length, .. } => *length == object_bytes,
        _ => true,
    }
}

/// Whether a lock is for the node's session 0, which is no script's, or the end of such a one.
pub(crate) fn is_entry_ask(me: NodeId, entry: &Entry) -> bool
    ensures { result ≡ is_entry_ask me entry.now }
{
    match entry {
        Entry::Lock { by, session, .. } => *by == me && *session == 0,
        Entry::Unlock { by, session, .. } => *by == me && *session == 0,
        _ => false,
    }
}

/// Whether a work is by the spec of its object's disk: by its policy, inside of the object, and in strips by whole blocks.
fn is_work_by_spec(work: &ObjWork, spec: VdiSpec) -> bool
    requires { IsSpec spec }
    ensures { result ≡ is_work_by_spec work.now (Some spec) }
{
    let kind = work.oid().kind();
    let policy = work.policy();
    let bytes = object_size(spec, kind);
    policy == spec.policy
        && work_end(work) <= u64::from(bytes)
        && makes_whole(bytes, work)
        && is_aligned(policy, kind, u64::from(work_offset(work)))
        && is_aligned(policy, kind, work_size(work))
}

/// Whether a work is on an object that the node knows, and by the spec of its disk.
pub(crate) fn is_object_ask<O: ObjStore>(peer: &PeerState<O>, work: &ObjWork) -> bool
    ensures { result ≡ is_object_ask peer.now work.now }
{
    match peer.directory().spec(work.oid().vid()) {
        Some(spec) => is_work_by_spec(work, spec),
        None => false,
    }
}

/// What a client asks for on an object it asks by an id of one: no value of the type is any other. So it holds of each input.
pub(crate) fn objects_have_ids(input: &Input)
    ensures { InputNamesObjects input.now }
{
    if let Input::Guest {
        ask: Ask::Object(work),
        ..
    } = input
    {
        let _oid = work.oid();
    }
}
