//! The inodes that commands make, and their works on them.
ghost use Rattle.std.specs.Prelude.{◌≡◌, ◌≤◌, length, take, IfOk};
ghost use Rattle.object_id.specs.Oid.{IsVid};
ghost use Rattle.object_id.specs.Spec.{IsSpec, objects_of};
ghost use Rattle.inode.specs.declared.layout.TheConstants.{INODE_HEADER_BYTES};
ghost use Rattle.object_id.specs.Piece.{laid_over};
ghost use Rattle.inode.specs.Layout.{IsFieldText};
ghost use Rattle.vdi_ops.specs.Tables.{table_in, holes, inode_by};
ghost use Rattle.vdi_ops.specs.InodeWorks.{written_bytes, read_inode, create_inode, write_back, written_back, write_tag};
ghost use Rattle.vdi_ops.specs.Kept.{IsInodeHeader};

use crate::table::{objects, table_in};
use inode::{INODE_BYTES, INODE_HEADER_BYTES, Inode, TEXT_BYTES};
use object_id::{Bytes, NoMemory, Oid, VdiSpec, Vid, lay_over};
use peer_proto::ObjWork;
use std::alloc::Global;
use vdi_directory::Header;

/// A copy of a header.
pub(crate) fn copy_header(alloc: Global, header: &Header) -> Result<Header, NoMemory>
    ensures { IfOk result (λ copy. copy ≡ header.now) }
{
    Ok(Header {
        name: header.name.copy(alloc)?,
        tag: header.tag.copy(alloc)?,
        snap_id: header.snap_id,
        parent: header.parent,
        spec: header.spec,
    })
}

/// How many bytes of an inode are ever written.
pub(crate) fn written_bytes(spec: VdiSpec) -> usize
    requires { IsSpec spec }
    ensures { result ≡ written_bytes spec }
{
    INODE_HEADER_BYTES + 4 * objects(spec) as usize
}

/// The inode of an id with holes alone.
pub(crate) fn inode_of_holes(alloc: Global, header: &Header, vid: Vid) -> Result<Inode, NoMemory>
    requires { IsInodeHeader header.now }
    ensures { IfOk result (λ inode. inode ≡ inode_by header.now vid.0 (holes header.now.spec)) }
{
    let name = header.name.as_slice();
    let mut inode = Inode::new(alloc, name, vid, header.snap_id, header.parent, header.spec)?;
    if !header.tag.is_empty() {
        inode.set_tag(alloc, header.tag.as_slice())?;
    }
    Ok(inode)
}

/// The inode of an id with this table.
pub(crate) fn inode_by(
    alloc: Global,
    header: &Header,
    vid: Vid,
    table: &[u32],
) -> Result<Inode, NoMemory>
    requires header { IsInodeHeader header.now }
    requires table { length table.now ≡ objects_of header.now.spec }
    ensures { IfOk result (λ inode. inode ≡ inode_by header.now vid.0 table.now) }
{
    let mut inode = inode_of_holes(alloc, header, vid)?;
    inode.set_entries(table);
    Ok(inode)
}

/// The inode of an id with the table that was read, as far as its entries are among these ids.
pub(crate) fn inode_read(
    alloc: Global,
    header: &Header,
    vid: Vid,
    ids: Vec<u32>,
    bytes: &[u8],
) -> Result<Inode, NoMemory>
    requires { IsInodeHeader header.now }
    ensures { IfOk result (λ inode. inode ≡ inode_by header.now vid.0 (table_in ids.items header.now.spec bytes.now)) }
{
    let table = table_in(alloc, ids, header.spec, bytes)?;
    inode_by(alloc, header, vid, table.as_slice())
}

/// The written bytes of an id's inode are read. Takes no memory.
pub(crate) fn read_inode(vid: Vid, spec: VdiSpec) -> ObjWork
    requires vid { IsVid vid.0 }
    requires spec { IsSpec spec }
    ensures { result ≡ read_inode vid.0 spec }
{
    ObjWork::Read {
        oid: Oid::inode(vid),
        policy: spec.policy,
        offset: 0,
        length: written_bytes(spec) as u32,
    }
}

/// An inode object is created. Takes the inode's bytes.
pub(crate) fn create_inode(alloc: Global, inode: &Inode) -> Result<ObjWork, NoMemory>
    requires { IsVid inode.now.vid }
    ensures { IfOk result (λ work. work ≡ create_inode inode.now) }
{
    Ok(ObjWork::Create {
        oid: Oid::inode(inode.vid()),
        policy: inode.spec().policy,
        length: INODE_BYTES,
        offset: 0,
        bytes: inode.to_bytes(alloc)?,
    })
}

/// Lays the header of an inode's bytes over other bytes.
fn lay_header(bytes: &mut [u8], spelled: &[u8])
    requires room { INODE_HEADER_BYTES ≤ length bytes.old }
    requires whole { INODE_HEADER_BYTES ≤ length spelled.now }
    ensures { bytes.new ≡ laid_over bytes.old 0 (take INODE_HEADER_BYTES spelled.now) }
{
    lay_over(bytes, 0, &spelled[..INODE_HEADER_BYTES]);
}

/// What was read of an inode, with the inode's header laid over it.
fn written_back(alloc: Global, inode: &Inode, bytes: &[u8]) -> Result<Bytes, NoMemory>
    requires texts { IsFieldText inode.now.name × IsFieldText inode.now.tag }
    requires whole { INODE_HEADER_BYTES ≤ length bytes.now }
    ensures { IfOk result (λ written. written ≡ written_back inode.now bytes.now) }
{
    let spelled = inode.to_bytes(alloc)?;
    let mut written = Vec::from_slice(alloc, bytes)?;
    lay_header(written.as_mut_slice(), spelled.as_slice());
    Ok(Bytes::from_vec(written))
}

/// What was read of an inode is written back with the inode's header. Takes the bytes twice.
pub(crate) fn write_back(alloc: Global, inode: &Inode, bytes: &[u8]) -> Result<ObjWork, NoMemory>
    requires vid { IsVid inode.now.vid }
    requires texts { IsFieldText inode.now.name × IsFieldText inode.now.tag }
    requires whole { INODE_HEADER_BYTES ≤ length bytes.now }
    ensures { IfOk result (λ work. work ≡ write_back inode.now bytes.now) }
{
    Ok(ObjWork::Write {
        oid: Oid::inode(inode.vid()),
        policy: inode.spec().policy,
        offset: 0,
        bytes: written_back(alloc, inode, bytes)?,
    })
}

/// A disk that becomes a snapshot gets its tag. Takes the tag's bytes.
pub(crate) fn write_tag(alloc: Global, inode: &Inode, tag: &[u8]) -> Result<ObjWork, NoMemory>
    requires { IsVid inode.now.vid }
    ensures { IfOk result (λ work. work ≡ write_tag inode.now tag.now) }
{
    Ok(ObjWork::Write {
        oid: Oid::inode(inode.vid()),
        policy: inode.spec().policy,
        offset: TEXT_BYTES as u32,
        bytes: Bytes::from_slice(alloc, tag)?,
    })
}
