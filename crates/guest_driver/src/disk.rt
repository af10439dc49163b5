ghost use Rattle.std.specs.Prelude.{◌≡◌, ◌<◌, All, IfOk, slice_set};
ghost use Rattle.object_id.specs.Oid.{IsVid};
ghost use Rattle.object_id.specs.Spec.{objects_of};
ghost use Rattle.inode.specs.Layout.{IsEntry, HasIds};

use inode::Inode;
use object_id::NoMemory;
use std::alloc::Global;
use std::marker::Model;

/// The disk that a session has open: its inode, whose table says where each object is, and whether it is a snapshot,
/// which is only read. Its id is one, and each entry of its table is 0 or an id.
#[derive(Debug)]
pub struct Disk {
    inode: Inode,
    snapshot: bool,
}

/// Written out, so that letting one go is one call wherever it is done, and no cases there.
impl Drop for Disk {
    fn drop(self) {
        let Disk { inode, snapshot: _ } = self;
        drop(inode);
    }
}

impl Model for Disk {
    ghost use Rattle.inode.specs.Layout.{HasIds};
    ghost use Rattle.guest_driver.specs.DiskContent.{DiskContent};

    ghost Value = { DiskContent };

    ghost view = { λ disk. record { inode = disk.inode; snapshot = disk.snapshot } };

    ghost invariant = { λ disk. HasIds disk.inode };
}

impl Disk {
    /// The open disk of an inode. Takes no memory, and costs nothing.
    pub fn new(inode: Inode, snapshot: bool) -> Disk
        requires vid { IsVid inode.vid }
        requires entries { All IsEntry inode.table }
        ensures { result ≡ record { inode = inode; snapshot = snapshot } }
    {
        Disk { inode, snapshot }
    }

    /// The inode. Costs nothing.
    pub fn inode(&self) -> &Inode
        ensures value { result.now ≡ self.now.inode }
        ensures valid { HasIds result.now }
    {
        &self.inode
    }

    /// Whether it is a snapshot that is open. Costs nothing.
    pub fn snapshot(&self) -> bool
        ensures { result ≡ self.now.snapshot }
    {
        self.snapshot
    }

    /// Says in the table that an object is the disk's own.
    pub(crate) fn enter(&mut self, index: u32)
        requires { index < objects_of self.old.inode.spec }
        ensures inode { self.new.inode ≡ record self.old.inode { table = slice_set self.old.inode.table index self.old.inode.vid } }
        ensures snapshot { self.new.snapshot ≡ self.old.snapshot }
    {
        let vid = self.inode.vid();
        self.inode.set_entry(index, vid);
    }

    /// Takes memory for a copy of the inode, and costs it.
    pub fn copy(&self, alloc: Global) -> Result<Self, NoMemory>
        ensures { IfOk result (λ copy. copy ≡ self.now) }
    {
        Ok(Disk {
            inode: self.inode.copy(alloc)?,
            snapshot: self.snapshot,
        })
    }
}
