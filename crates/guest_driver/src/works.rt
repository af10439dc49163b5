//! The works on a piece.

ghost use Rattle.std.specs.Prelude.{◌≡◌, ◌+◌, ◌*◌, ◌^◌, ◌<◌, ◌≤◌, length, IfOk};
ghost use Rattle.object_id.specs.declared.limits.TheConstants.{OBJECT_BYTES_MAX};
ghost use Rattle.object_id.specs.Oid.{IsVid, object_number};
ghost use Rattle.object_id.specs.Piece.{laid_over};
ghost use Rattle.object_id.specs.Spec.{IsSpec, objects_of};
ghost use Rattle.inode.specs.declared.layout.TheConstants.{INODE_HEADER_BYTES};
ghost use Rattle.peer_proto.specs.Work.{IsWork};
ghost use Rattle.guest_driver.specs.PieceWorks.{read_piece, write_piece, create_piece, read_object, create_copy, write_entry};
ghost use Rattle.guest_driver.specs.Pieces.{piece_bytes, AreBlocks};
ghost use Rattle.guest_driver.specs.Extent.{piece_of};

use crate::piece::Piece;
use inode::{INODE_HEADER_BYTES, Inode};
use object_id::{Bytes, NoMemory, Oid, VdiSpec, Vid, lay_over};
use peer_proto::ObjWork;
use std::alloc::Global;

/// How long the objects of a disk are.
fn object_bytes(spec: VdiSpec) -> u32
    requires { IsSpec spec }
    ensures { result ≡ 2 ^ spec.shift }
{
    1 << spec.shift
}

/// The id that an object of the disk has, or had on another one.
fn object_of(spec: VdiSpec, vid: Vid, index: u32) -> Oid
    requires spec { IsSpec spec }
    requires vid { IsVid vid.0 }
    requires index { index < objects_of spec }
    ensures { result ≡ object_number vid.0 index }
{
    Oid::object(vid, index)
}

/// Where an inode has the entry of an object.
fn entry_offset(spec: VdiSpec, index: u32) -> u32
    requires spec { IsSpec spec }
    requires index { index < objects_of spec }
    ensures { result ≡ INODE_HEADER_BYTES + 4 * index }
{
    INODE_HEADER_BYTES as u32 + 4 * index
}

/// A copy of the bytes of a write that belong to a piece.
fn piece_bytes(alloc: Global, payload: &[u8], piece: Piece) -> Result<Bytes, NoMemory>
    requires { piece.place + piece.size ≤ length payload.now }
    ensures { IfOk result (λ bytes. bytes ≡ piece_bytes payload.now (piece_of piece)) }
{
    Bytes::from_slice(
        alloc,
        &payload[piece.place..piece.place + piece.size as usize],
    )
}

/// A copy of an object's bytes, with those of a write that belong to a piece laid over them.
fn copy_with_piece(
    alloc: Global,
    payload: &[u8],
    piece: Piece,
    old: &[u8],
) -> Result<Bytes, NoMemory>
    requires inside { piece.place + piece.size ≤ length payload.now }
    requires room { piece.offset + piece.size ≤ length old.now }
    ensures { IfOk result (λ bytes. bytes ≡ laid_over old.now piece.offset (piece_bytes payload.now (piece_of piece))) }
{
    let mut bytes = Vec::from_slice(alloc, old)?;
    let over = &payload[piece.place..piece.place + piece.size as usize];
    lay_over(bytes.as_mut_slice(), piece.offset as usize, over);
    Ok(Bytes::from_vec(bytes))
}

/// A piece is read from the object of an id.
pub(crate) fn read_piece(inode: &Inode, piece: Piece, vid: Vid) -> ObjWork
    requires vid { IsVid vid.0 }
    requires index { piece.index < objects_of inode.now.spec }
    requires room { piece.offset + piece.size ≤ OBJECT_BYTES_MAX }
    requires blocks { AreBlocks (piece_of piece) }
    ensures value { result ≡ read_piece inode.now (piece_of piece) vid.0 }
    ensures work { IsWork result }
{
    ObjWork::Read {
        oid: object_of(inode.spec(), vid, piece.index),
        policy: inode.spec().policy,
        offset: piece.offset,
        length: piece.size,
    }
}

/// A piece is written into the disk's own object.
pub(crate) fn write_piece(
    alloc: Global,
    inode: &Inode,
    payload: &[u8],
    piece: Piece,
) -> Result<ObjWork, NoMemory>
    requires vid { IsVid inode.now.vid }
    requires index { piece.index < objects_of inode.now.spec }
    requires inside { piece.place + piece.size ≤ length payload.now }
    requires room { piece.offset + piece.size ≤ OBJECT_BYTES_MAX }
    requires blocks { AreBlocks (piece_of piece) }
    ensures value { IfOk result (λ work. work ≡ write_piece inode.now payload.now (piece_of piece)) }
    ensures work { IfOk result IsWork }
{
    Ok(ObjWork::Write {
        oid: object_of(inode.spec(), inode.vid(), piece.index),
        policy: inode.spec().policy,
        offset: piece.offset,
        bytes: piece_bytes(alloc, payload, piece)?,
    })
}

/// A hole becomes the disk's own object, with the piece in it.
pub(crate) fn create_piece(
    alloc: Global,
    inode: &Inode,
    payload: &[u8],
    piece: Piece,
) -> Result<ObjWork, NoMemory>
    requires vid { IsVid inode.now.vid }
    requires index { piece.index < objects_of inode.now.spec }
    requires inside { piece.place + piece.size ≤ length payload.now }
    requires room { piece.offset + piece.size ≤ 2 ^ inode.now.spec.shift }
    requires blocks { AreBlocks (piece_of piece) }
    ensures value { IfOk result (λ work. work ≡ create_piece inode.now payload.now (piece_of piece)) }
    ensures work { IfOk result IsWork }
{
    Ok(ObjWork::Create {
        oid: object_of(inode.spec(), inode.vid(), piece.index),
        policy: inode.spec().policy,
        length: object_bytes(inode.spec()),
        offset: piece.offset,
        bytes: piece_bytes(alloc, payload, piece)?,
    })
}

/// Another disk's object is read whole.
pub(crate) fn read_object(inode: &Inode, piece: Piece, vid: Vid) -> ObjWork
    requires vid { IsVid vid.0 }
    requires index { piece.index < objects_of inode.now.spec }
    ensures value { result ≡ read_object inode.now (piece_of piece) vid.0 }
    ensures work { IsWork result }
{
    ObjWork::Read {
        oid: object_of(inode.spec(), vid, piece.index),
        policy: inode.spec().policy,
        offset: 0,
        length: object_bytes(inode.spec()),
    }
}

/// The bytes of another disk's object become the disk's own object, with the piece laid over them.
pub(crate) fn create_copy(
    alloc: Global,
    inode: &Inode,
    payload: &[u8],
    piece: Piece,
    old: &[u8],
) -> Result<ObjWork, NoMemory>
    requires vid { IsVid inode.now.vid }
    requires index { piece.index < objects_of inode.now.spec }
    requires inside { piece.place + piece.size ≤ length payload.now }
    requires room { piece.offset + piece.size ≤ length old.now }
    requires whole { length old.now ≡ 2 ^ inode.now.spec.shift }
    ensures value { IfOk result (λ work. work ≡ create_copy inode.now payload.now (piece_of piece) old.now) }
    ensures work { IfOk result IsWork }
{
    Ok(ObjWork::Create {
        oid: object_of(inode.spec(), inode.vid(), piece.index),
        policy: inode.spec().policy,
        length: object_bytes(inode.spec()),
        offset: 0,
        bytes: copy_with_piece(alloc, payload, piece, old)?,
    })
}

/// The inode's entry for a piece's object says that it is the disk's own.
pub(crate) fn write_entry(alloc: Global, inode: &Inode, piece: Piece) -> Result<ObjWork, NoMemory>
    requires vid { IsVid inode.now.vid }
    requires index { piece.index < objects_of inode.now.spec }
    ensures value { IfOk result (λ work. work ≡ write_entry inode.now (piece_of piece)) }
    ensures work { IfOk result IsWork }
{
    Ok(ObjWork::Write {
        oid: Oid::inode(inode.vid()),
        policy: inode.spec().policy,
        offset: entry_offset(inode.spec(), piece.index),
        bytes: Bytes::from_slice(alloc, &inode.vid().0.to_le_bytes())?,
    })
}
