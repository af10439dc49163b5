ghost use Rattle.std.specs.Prelude.{◌≡◌, length, false, IfOk, IfSome, IsOk, IsTrue, OnErr, Some};
ghost use Rattle.guest_driver.specs.declared.act.DriverAct.TheVariants.{Reply};
ghost use Rattle.guest_driver.specs.Pieces.{is_ask};
ghost use Rattle.guest_driver.specs.Driver.{Answered, begin_driver, driver_on_done, driver_bytes_wanted};
ghost use Rattle.guest_driver.specs.OnDisk.{IsDriverOn, act_takes_memory, beginning_takes_memory};
ghost use Rattle.guest_driver.specs.BegunWorks.{BeginsWork};

use crate::act::DriverAct;
use crate::disk::Disk;
use crate::extent::Extent;
use crate::progress::{Progress, Stage};
use crate::reads::begin_read;
use crate::refusals::refusal_on;
use crate::writes::begin_write;
use object_id::{Bytes, NoMemory};
use peer_proto::{DiskAsk, GuestRsp, WorkDone};
use std::alloc::Global;
use std::marker::Model;

/// A read or write of a guest, on the disk that it began on.
#[derive(Debug, Drop)]
pub struct Driver {
    pub(crate) extent: Extent,
    /// The object whose piece is at work.
    pub(crate) index: u32,
    /// All bytes of a read, zeros where none were told.
    pub(crate) told: Vec<u8>,
    /// The bytes of a write.
    pub(crate) payload: Bytes,
    pub(crate) progress: Progress,
}

impl Model for Driver {
    ghost use Rattle.std.specs.Prelude.{◌+◌};
    ghost use Rattle.guest_driver.specs.Driver.{Driver as TheDriver};
    ghost use Rattle.guest_driver.specs.Extent.{piece_at_index, pieces_from};
    ghost use Rattle.guest_driver.specs.Progress.{driver_at, IsProgress};

    ghost Value = { TheDriver };

    ghost view = { λ driver. driver_at driver.progress driver.told.items driver.payload (piece_at_index driver.extent driver.index)
        (pieces_from driver.extent (driver.index + 1)) };

    ghost invariant = { λ driver. IsProgress driver.progress driver.extent driver.index driver.told.items driver.payload };
}

/// Begins a read or write, which asks for whole blocks, on an open disk. A refusal is answered at once and takes no memory. A
/// read takes memory for all its bytes, here and no more later; a write keeps the bytes that it was given, and takes a copy of
/// a piece.
pub fn begin_disk(alloc: Global, disk: &Disk, ask: DiskAsk) -> Result<(Driver, DriverAct), NoMemory>
    requires { IsTrue (is_ask ask) }
    ensures step { IfOk result (λ begun. begin_driver disk.now ask
        ≡ record { driver = begun.0; act = begun.1; inode = disk.now.inode }) }
    ensures on { IfOk result (λ begun. IsDriverOn disk.now.inode begun.0) }
    ensures work { IfOk result (λ begun. BeginsWork begun.1) }
    ensures memory { beginning_takes_memory disk.now ask ≡ false → IsOk result }
{
    if let Some(cause) = refusal_on(disk, false, &ask) {
        return Ok(answered(alloc, GuestRsp::Refused(cause)));
    }
    let shift = disk.inode().spec().shift;
    match ask {
        DiskAsk::Read { offset, length } => {
            let extent = Extent {
                shift,
                offset,
                size: length as usize,
            };
            begin_read(alloc, disk, extent)
        }
        DiskAsk::Write { offset, bytes } => {
            let extent = Extent {
                shift,
                offset,
                size: bytes.len(),
            };
            begin_write(alloc, disk, extent, bytes)
        }
    }
}

/// A request that has its reply at once.
pub(crate) fn answered(alloc: Global, reply: GuestRsp) -> (Driver, DriverAct)
    ensures driver { result.0 ≡ Answered }
    ensures act { result.1 ≡ Reply reply }
{
    let driver = Driver {
        extent: Extent {
            shift: 0,
            offset: 0,
            size: 0,
        },
        index: 0,
        told: Vec::new(alloc),
        payload: Bytes::new(alloc),
        progress: Progress::Answered,
    };
    (driver, DriverAct::Reply(reply))
}

impl Driver {
    /// How many bytes the work gives that the driver waits for; `None` if it waits for none. Takes no memory, and costs nothing.
    pub fn bytes_wanted(&self, disk: &Disk) -> Option<usize>
        ensures { result ≡ driver_bytes_wanted disk.now.inode self.now }
    {
        match self.progress {
            Progress::Reading => Some(self.extent.piece(self.index).size as usize),
            Progress::Writing(Stage::Fetching) => Some(1 << disk.inode().spec().shift),
            Progress::Writing(_) => Some(0),
            Progress::Answered => None,
        }
    }

    /// Goes on after the work that the driver waits for, with the bytes that it gave. The disk is the one that the driver began
    /// on, whose table may have changed; it changes here when the write of an entry is done. To go on with a read costs a
    /// look through the table up to the next object, and takes no memory. To go on with a write takes memory for the bytes of
    /// the work that it begins: a copy of a piece, a whole object, or four bytes. Without memory driver and disk stay as they
    /// were.
    pub fn on_done(
        &mut self,
        alloc: Global,
        disk: &mut Disk,
        done: &WorkDone,
    ) -> Result<DriverAct, NoMemory>
        requires waits { driver_bytes_wanted disk.old.inode self.old ≡ Some (length done.now.bytes) }
        requires on { IsDriverOn disk.old.inode self.old }
        ensures ok { IfOk result (λ act. driver_on_done disk.old.inode done.now.bytes self.old
            ≡ Some (record { driver = self.new; act = act; inode = disk.new.inode })) }
        ensures snapshot { disk.new.snapshot ≡ disk.old.snapshot }
        ensures on { IfOk result (λ _. IsDriverOn disk.new.inode self.new) }
        ensures work { IfOk result BeginsWork }
        ensures err { OnErr result ((self.new ≡ self.old) × (disk.new ≡ disk.old)) }
        ensures memory { IfSome (driver_on_done disk.old.inode done.now.bytes self.old)
            (λ step. act_takes_memory step.act ≡ false → IsOk result) }
    {
        let bytes = done.bytes.as_slice();
        match self.progress {
            Progress::Writing(Stage::InPlace) => self.write_next(alloc, disk),
            Progress::Writing(Stage::Fetching) => self.write_copy(alloc, disk, bytes),
            Progress::Writing(Stage::Creating) => self.write_entry(alloc, disk),
            Progress::Writing(Stage::Entering) => {
                let entered = self.index;
                let act = self.write_next(alloc, disk)?;
                disk.enter(entered);
                Ok(act)
            }
            _ => Ok(self.read_next(alloc, disk, bytes)),
        }
    }
}
