//! How a driver reads.

ghost use Rattle.std.specs.Prelude.{◌≡◌, ◌+◌, ◌<◌, ◌≤◌, [], take, length, IfOk, Some};
ghost use Rattle.object_id.specs.Piece.{laid_over};
ghost use Rattle.object_id.specs.Spec.{objects_of};
ghost use Rattle.guest_driver.specs.Driver.{read_on, driver_on_done, driver_bytes_wanted};
ghost use Rattle.guest_driver.specs.Extent.{IsExtent, first_index_of, last_index_of, place_at, pieces_from};
ghost use Rattle.guest_driver.specs.Progress.{IsReading, IsToldUpTo};
ghost use Rattle.guest_driver.specs.OnDisk.{IsDriverOn};
ghost use Rattle.guest_driver.specs.BegunWorks.{BeginsWork};

use crate::act::DriverAct;
use crate::disk::Disk;
use crate::driver::{Driver, answered};
use crate::extent::Extent;
use crate::holes::next_object;
use crate::progress::Progress;
use crate::works::read_piece;
use object_id::{Bytes, NoMemory, Vid, lay_over};
use peer_proto::GuestRsp;
use std::alloc::Global;
use std::mem::replace;

/// Begins a read that isn't refused. Takes memory for all its bytes.
pub(crate) fn begin_read(
    alloc: Global,
    disk: &Disk,
    extent: Extent,
) -> Result<(Driver, DriverAct), NoMemory>
    requires extent { IsExtent extent }
    requires there { last_index_of extent < objects_of disk.now.inode.spec }
    ensures step { IfOk result (λ begun. read_on disk.now.inode [] (pieces_from extent (first_index_of extent))
        ≡ record { driver = begun.0; act = begun.1; inode = disk.now.inode }) }
    ensures work { IfOk result (λ begun. BeginsWork begun.1) }
{
    let mut told = Vec::new(alloc);
    told.resize(extent.size, 0)?;
    Ok(read_on(alloc, disk, extent, told, extent.first()))
}

/// Goes on with a read from an object on: passes over holes, whose bytes are zeros already, and reads the piece of the next
/// object, or tells all bytes.
fn read_on(
    alloc: Global,
    disk: &Disk,
    extent: Extent,
    told: Vec<u8>,
    from: u32,
) -> (Driver, DriverAct)
    requires extent { IsExtent extent }
    requires from { (first_index_of extent ≤ from) × (from ≤ last_index_of extent + 1) }
    requires told { IsToldUpTo extent.size told.items (place_at extent from) }
    requires there { last_index_of extent < objects_of disk.now.inode.spec }
    ensures step { read_on disk.now.inode (take (place_at extent from) told.items) (pieces_from extent from)
        ≡ record { driver = result.0; act = result.1; inode = disk.now.inode } }
    ensures work { BeginsWork result.1 }
{
    let end = extent.last() + 1;
    let index = next_object(disk.inode().entries(), from, end);
    if index == end {
        return answered(alloc, GuestRsp::Piece(Bytes::from_vec(told)));
    }
    let vid = Vid(disk.inode().entry(index));
    let work = read_piece(disk.inode(), extent.piece(index), vid);
    let driver = Driver {
        extent,
        index,
        told,
        payload: Bytes::new(alloc),
        progress: Progress::Reading,
    };
    (driver, DriverAct::Work(work))
}

/// The bytes with a piece laid over them.
fn with_piece(mut told: Vec<u8>, place: usize, bytes: &[u8]) -> Vec<u8>
    requires { place + length bytes.now ≤ length told.items }
    ensures { result.items ≡ laid_over told.items place bytes.now }
{
    lay_over(told.as_mut_slice(), place, bytes);
    told
}

impl Driver {
    /// Takes the bytes of a piece that was read, and goes on with the pieces behind it.
    pub(crate) fn read_next(&mut self, alloc: Global, disk: &Disk, bytes: &[u8]) -> DriverAct
        requires reads { IsReading self.old }
        requires whole { driver_bytes_wanted disk.now.inode self.old ≡ Some (length bytes.now) }
        requires on { IsDriverOn disk.now.inode self.old }
        ensures step { driver_on_done disk.now.inode bytes.now self.old
            ≡ Some (record { driver = self.new; act = result; inode = disk.now.inode }) }
        ensures work { BeginsWork result }
    {
        let piece = self.extent.piece(self.index);
        let told = replace(&mut self.told, Vec::new(alloc));
        let told = with_piece(told, piece.place, bytes);
        let (driver, act) = read_on(alloc, disk, self.extent, told, self.index + 1);
        *self = driver;
        act
    }
}
