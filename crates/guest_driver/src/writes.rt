//! How a driver writes.

ghost use Rattle.std.specs.Prelude.{◌≡◌, ℕ, ◌<◌, List, length, false, IfOk, IsOk, OnErr, Some};
ghost use Rattle.object_id.specs.Spec.{objects_of};
ghost use Rattle.peer_proto.specs.Work.{IsWork};
ghost use Rattle.guest_driver.specs.Pieces.{IsPiece};
ghost use Rattle.guest_driver.specs.Driver.{Fetching, Creating, work_step, write_on, driver_on_done, driver_bytes_wanted};
ghost use Rattle.guest_driver.specs.Extent.{IsExtent, Touches, first_index_of, last_index_of, piece_at_index, pieces_from};
ghost use Rattle.guest_driver.specs.Progress.{IsWriting, driver_stage, stage_of, payload_in_write, rest_of, piece_step, writes_at};
ghost use Rattle.guest_driver.specs.OnDisk.{IsDriverOn, act_takes_memory};
ghost use Rattle.guest_driver.specs.BegunWorks.{BeginsWork};

use crate::act::DriverAct;
use crate::disk::Disk;
use crate::driver::Driver;
use crate::extent::Extent;
use crate::progress::{Progress, Stage};
use crate::works::{create_copy, create_piece, read_object, write_entry, write_piece};
use object_id::{Bytes, NoMemory, Vid};
use peer_proto::{GuestRsp, ObjWork};
use std::alloc::Global;

/// Begins a write that isn't refused.
pub(crate) fn begin_write(
    alloc: Global,
    disk: &Disk,
    extent: Extent,
    payload: Bytes,
) -> Result<(Driver, DriverAct), NoMemory>
    requires extent { IsExtent extent }
    requires whole { length payload ≡ extent.size }
    requires there { last_index_of extent < objects_of disk.now.inode.spec }
    requires shift { extent.shift ≡ disk.now.inode.spec.shift }
    ensures ok { IfOk result (λ begun. write_on disk.now.inode payload (pieces_from extent (first_index_of extent))
        ≡ record { driver = begun.0; act = begun.1; inode = disk.now.inode }) }
    ensures work { IfOk result (λ begun. BeginsWork begun.1) }
    ensures memory { act_takes_memory (write_on disk.now.inode payload (pieces_from extent (first_index_of extent))).act ≡ false
        → IsOk result }
{
    let index = extent.first();
    let (stage, work) = first_work(alloc, disk, extent, payload.as_slice(), index)?;
    let driver = Driver {
        extent,
        index,
        told: Vec::new(alloc),
        payload,
        progress: Progress::Writing(stage),
    };
    Ok((driver, DriverAct::Work(work)))
}

/// The first work on a piece of a write, by its entry: a hole's object is created, the own one is written in place, another
/// disk's is read first.
fn first_work(
    alloc: Global,
    disk: &Disk,
    extent: Extent,
    payload: &[u8],
    index: u32,
) -> Result<(Stage, ObjWork), NoMemory>
    requires touched { Touches extent index }
    requires whole { length payload.now ≡ extent.size }
    requires there { index < objects_of disk.now.inode.spec }
    requires inside { IsPiece disk.now.inode.spec.shift (piece_at_index extent index) }
    ensures ok { IfOk result (λ first. piece_step disk.now.inode payload.now extent index
        ≡ work_step disk.now.inode (writes_at payload.now extent index (driver_stage first.0)) first.1) }
    ensures work { IfOk result (λ first. IsWork first.1) }
    ensures memory { act_takes_memory (piece_step disk.now.inode payload.now extent index).act ≡ false → IsOk result }
{
    let piece = extent.piece(index);
    let inode = disk.inode();
    let entry = inode.entry(index);
    if entry == 0 {
        let work = create_piece(alloc, inode, payload, piece)?;
        return Ok((Stage::Creating, work));
    }
    if entry == inode.vid().0 {
        let work = write_piece(alloc, inode, payload, piece)?;
        return Ok((Stage::InPlace, work));
    }
    Ok((Stage::Fetching, read_object(inode, piece, Vid(entry))))
}

impl Driver {
    /// Goes on with the next piece of a write, or ends it.
    pub(crate) fn write_next(&mut self, alloc: Global, disk: &Disk) -> Result<DriverAct, NoMemory>
        requires writes { IsWriting self.old }
        requires on { IsDriverOn disk.now.inode self.old }
        ensures ok { IfOk result (λ act. write_on disk.now.inode (payload_in_write self.old) (rest_of self.old)
            ≡ record { driver = self.new; act = act; inode = disk.now.inode }) }
        ensures work { IfOk result BeginsWork }
        ensures err { OnErr result (self.new ≡ self.old) }
        ensures memory { act_takes_memory (write_on disk.now.inode (payload_in_write self.old) (rest_of self.old)).act ≡ false
            → IsOk result }
    {
        if self.index == self.extent.last() {
            self.progress = Progress::Answered;
            return Ok(DriverAct::Reply(GuestRsp::Done));
        }
        let next = self.index + 1;
        let (stage, work) = first_work(alloc, disk, self.extent, self.payload.as_slice(), next)?;
        self.index = next;
        self.progress = Progress::Writing(stage);
        Ok(DriverAct::Work(work))
    }

    /// Creates the disk's own object with the bytes of another's, which were read, and the piece over them.
    pub(crate) fn write_copy(
        &mut self,
        alloc: Global,
        disk: &Disk,
        bytes: &[u8],
    ) -> Result<DriverAct, NoMemory>
        requires stage { stage_of self.old ≡ Some Fetching }
        requires whole { driver_bytes_wanted disk.now.inode self.old ≡ Some (length bytes.now) }
        requires on { IsDriverOn disk.now.inode self.old }
        ensures ok { IfOk result (λ act. driver_on_done disk.now.inode bytes.now self.old
            ≡ Some (record { driver = self.new; act = act; inode = disk.now.inode })) }
        ensures work { IfOk result BeginsWork }
        ensures err { OnErr result (self.new ≡ self.old) }
    {
        let piece = self.extent.piece(self.index);
        let work = create_copy(alloc, disk.inode(), self.payload.as_slice(), piece, bytes)?;
        self.progress = Progress::Writing(Stage::Creating);
        Ok(DriverAct::Work(work))
    }

    /// Writes the entry of an object that was created.
    pub(crate) fn write_entry(&mut self, alloc: Global, disk: &Disk) -> Result<DriverAct, NoMemory>
        requires stage { stage_of self.old ≡ Some Creating }
        requires on { IsDriverOn disk.now.inode self.old }
        ensures ok { IfOk result (λ act. (bytes : List ℕ) → driver_on_done disk.now.inode bytes self.old
            ≡ Some (record { driver = self.new; act = act; inode = disk.now.inode })) }
        ensures work { IfOk result BeginsWork }
        ensures err { OnErr result (self.new ≡ self.old) }
    {
        let piece = self.extent.piece(self.index);
        let work = write_entry(alloc, disk.inode(), piece)?;
        self.progress = Progress::Writing(Stage::Entering);
        Ok(DriverAct::Work(work))
    }
}
