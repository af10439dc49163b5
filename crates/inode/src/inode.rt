ghost use Rattle.std.specs.Prelude.{◌≡◌, ◌<◌, [], length, slice_index, slice_set, replicate, IfOk, OnOk, OnErr};
ghost use Rattle.std.specs.Int.{w32};
ghost use Rattle.object_id.specs.Spec.{IsSpec, IsName, objects_of};
ghost use Rattle.object_id.specs.Fields.{zeros};
ghost use Rattle.inode.specs.Layout.{Content, IsContent, IsFieldText, SpellsInode, inode_bytes, unread_zeros, parent_number};
ghost use Rattle.inode.specs.Reading.{GivesOrNoMemory, inode_of};

use crate::fault::InodeFault;
use crate::reading::read_inode;
use crate::writing::write_inode;
use object_id::{Bytes, NoMemory, VdiSpec, Vid};
use std::alloc::Global;
use std::marker::Model;

/// The inode of a disk.
#[derive(Debug)]
pub struct Inode {
    pub(crate) name: Bytes,
    pub(crate) tag: Bytes,
    pub(crate) spec: VdiSpec,
    pub(crate) snap_id: u32,
    pub(crate) vid: Vid,
    /// 0 for none.
    pub(crate) parent: u32,
    pub(crate) table: Vec<u32>,
}

/// Written out, so that letting one go is one call wherever it is done, and no cases there.
impl Drop for Inode {
    fn drop(self) {
        let Inode {
            name,
            tag,
            spec: _,
            snap_id: _,
            vid: _,
            parent: _,
            table,
        } = self;
        drop(name);
        drop(tag);
        drop(table);
    }
}

impl Model for Inode {
    ghost use Rattle.std.specs.Prelude.{◌≡◌, length};
    ghost use Rattle.object_id.specs.Spec.{IsSpec, objects_of};
    ghost use Rattle.inode.specs.Layout.{Content, IsFieldText};

    ghost Value = { Content };

    ghost view = { λ i. record {
      name = i.name;
      tag = i.tag;
      spec = i.spec;
      snap_id = i.snap_id;
      vid = i.vid.0;
      parent = i.parent;
      table = i.table.items;
    } };

    ghost invariant = { λ i. IsFieldText i.name × IsFieldText i.tag × IsSpec i.spec × (length i.table.items ≡ objects_of i.spec) };
}

/// How many data objects a disk of this spec has: its size in objects, rounded up.
pub(crate) fn objects(spec: VdiSpec) -> u32
    requires { IsSpec spec }
    ensures { result ≡ objects_of spec }
{
    spec.size.div_ceil(1 << spec.shift) as u32
}

impl Inode {
    /// The inode of a new disk: its table has holes alone, and it has no tag.
    pub fn new(
        alloc: Global,
        name: &[u8],
        vid: Vid,
        snap_id: u32,
        parent: Option<Vid>,
        spec: VdiSpec,
    ) -> Result<Inode, NoMemory>
        requires name { IsName name.now }
        requires spec { IsSpec spec }
        ensures { IfOk result (λ inode. inode ≡ record {
          name = name.now;
          tag = [];
          spec = spec;
          snap_id = snap_id;
          vid = vid.0;
          parent = parent_number parent;
          table = replicate (objects_of spec) 0;
        }) }
    {
        let mut table = Vec::new(alloc);
        table.resize(objects(spec) as usize, 0)?;
        let name = Bytes::from_slice(alloc, name)?;
        let parent = match parent {
            Some(vid) => vid.0,
            None => 0,
        };
        Ok(Inode {
            name,
            tag: Bytes::new(alloc),
            spec,
            snap_id,
            vid,
            parent,
            table,
        })
    }

    pub fn name(&self) -> &[u8]
        ensures { result.now ≡ self.now.name }
    {
        self.name.as_slice()
    }

    /// A snapshot's tag; empty where there is none.
    pub fn tag(&self) -> &[u8]
        ensures { result.now ≡ self.now.tag }
    {
        self.tag.as_slice()
    }

    /// Sets the tag that the disk has as a snapshot.
    pub fn set_tag(&mut self, alloc: Global, tag: &[u8]) -> Result<(), NoMemory>
        requires { IsName tag.now }
        ensures set { OnOk result (self.new ≡ record self.old { tag = tag.now }) }
        ensures unchanged { OnErr result (self.new ≡ self.old) }
    {
        self.tag = Bytes::from_slice(alloc, tag)?;
        Ok(())
    }

    pub fn spec(&self) -> VdiSpec
        ensures value { result ≡ self.now.spec }
        ensures valid { IsSpec result }
    {
        self.spec
    }

    pub fn snap_id(&self) -> u32
        ensures { result ≡ self.now.snap_id }
    {
        self.snap_id
    }

    pub fn vid(&self) -> Vid
        ensures { result.0 ≡ self.now.vid }
    {
        self.vid
    }

    /// The id of the disk's parent; 0 where it has none.
    pub fn parent(&self) -> u32
        ensures { result ≡ self.now.parent }
    {
        self.parent
    }

    /// Which disk has each data object, in order; 0 for a hole.
    pub fn entries(&self) -> &[u32]
        ensures value { result.now ≡ self.now.table }
        ensures count { length result.now ≡ objects_of self.now.spec }
    {
        self.table.as_slice()
    }

    /// Which disk has the data object; 0 for a hole.
    pub fn entry(&self, index: u32) -> u32
        requires { index < objects_of self.now.spec }
        ensures { result ≡ slice_index self.now.table index }
    {
        self.table[index as usize]
    }

    /// Says which disk has the data object.
    pub fn set_entry(&mut self, index: u32, vid: Vid)
        requires { index < objects_of self.old.spec }
        ensures { self.new ≡ record self.old { table = slice_set self.old.table index vid.0 } }
    {
        self.table[index as usize] = vid.0;
    }

    /// Takes the entries of another table of as many objects.
    pub fn set_entries(&mut self, entries: &[u32])
        requires { length entries.now ≡ objects_of self.old.spec }
        ensures { self.new ≡ record self.old { table = entries.now } }
    {
        self.table.copy_from_slice(entries);
    }

    pub fn copy(&self, alloc: Global) -> Result<Self, NoMemory>
        ensures { IfOk result (λ copy. copy ≡ self.now) }
    {
        Ok(Inode {
            name: self.name.copy(alloc)?,
            tag: self.tag.copy(alloc)?,
            spec: self.spec,
            snap_id: self.snap_id,
            vid: self.vid,
            parent: self.parent,
            table: Vec::from_slice(alloc, self.table.as_slice())?,
        })
    }

    /// The inode's spelling, with zeros wherever nothing is read: 4,664 bytes and four for each object.
    pub fn to_bytes(&self, alloc: Global) -> Result<Bytes, NoMemory>
        ensures { IfOk result (λ bytes. bytes ≡ inode_bytes self.now (unread_zeros self.now)) }
    {
        write_inode(alloc, self)
    }

    /// The inode that the bytes begin with, whatever stands where nothing is read.
    pub fn from_bytes(alloc: Global, bytes: &[u8]) -> Result<Inode, InodeFault>
        // The first refusal, or the fields by their offsets.
        ensures exact { GivesOrNoMemory (λ inode. inode) result (inode_of bytes.now) }
        // What is read is an inode of the format, and the bytes begin with its spelling.
        ensures spelled { IfOk result (λ inode. IsContent inode × SpellsInode bytes.now inode) }
        // Each one whose spelling they begin with is the one that is read.
        ensures only { (content : Content) → IsContent content → SpellsInode bytes.now content
            → GivesOrNoMemory (λ inode. inode) result (Ok content) }
    {
        read_inode(alloc, bytes)
    }
}
