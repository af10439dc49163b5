//! When a read or write is refused on the spot.

ghost use Rattle.std.specs.Prelude.{◌≡◌, ◌+◌, ◌%◌, ◌==◌, ◌&&◌, not, nat_le, option_map};
ghost use Rattle.object_id.specs.declared.limits.TheConstants.{BLOCK_BYTES};
ghost use Rattle.guest_driver.specs.Pieces.{is_ask};
ghost use Rattle.guest_driver.specs.Refusals.{past_end, refusal_on, disk_refusal};

use crate::disk::Disk;
use object_id::{BLOCK_BYTES, Cause};
use peer_proto::DiskAsk;

/// Whether so many bytes from an offset on are whole blocks, and one at least.
fn are_blocks(offset: u64, long: u64) -> bool
    ensures { result ≡ (offset % BLOCK_BYTES == 0 && long % BLOCK_BYTES == 0 && not (long == 0)) }
{
    let block = u64::from(BLOCK_BYTES);
    offset % block == 0 && long % block == 0 && long != 0
}

/// Whether a request asks for whole blocks, and for one at least. Takes no memory, and costs nothing.
pub fn is_ask(ask: &DiskAsk) -> bool
    ensures { result ≡ is_ask ask.now }
{
    match ask {
        DiskAsk::Read { offset, length } => are_blocks(*offset, u64::from(*length)),
        DiskAsk::Write { offset, bytes } => are_blocks(*offset, bytes.len() as u64),
    }
}

/// Whether so many bytes from an offset on end inside the disk.
fn ends_inside(size: u64, offset: u64, long: u64) -> bool
    ensures { result ≡ nat_le (offset + long) size }
{
    long <= size && offset <= size - long
}

/// The refusal of a request that ends past the disk.
fn past_end(disk: &Disk, ask: &DiskAsk) -> Option<Cause>
    ensures { result ≡ past_end disk.now.inode ask.now }
{
    let size = disk.inode().spec().size;
    let inside = match ask {
        DiskAsk::Read { offset, length } => ends_inside(size, *offset, u64::from(*length)),
        DiskAsk::Write { offset, bytes } => ends_inside(size, *offset, bytes.len() as u64),
    };
    if inside {
        None
    } else {
        Some(Cause::InvalidParms)
    }
}

/// The refusal of a request on an open disk; `deleted` says whether the disk is, by what the node has read.
pub(crate) fn refusal_on(disk: &Disk, deleted: bool, ask: &DiskAsk) -> Option<Cause>
    ensures { result ≡ refusal_on disk.now deleted ask.now }
{
    match ask {
        DiskAsk::Read { .. } => {
            if disk.snapshot() && deleted {
                return Some(Cause::NoVdi);
            }
        }
        DiskAsk::Write { .. } => {
            if disk.snapshot() {
                return Some(Cause::Readonly);
            }
        }
    }
    past_end(disk, ask)
}

/// The refusal of a request of a session, if it is refused on the spot: `disk` is what the session has open, and `deleted` says
/// whether that is deleted, by what the node has read. Takes no memory, and costs nothing.
pub fn disk_refusal(disk: Option<&Disk>, deleted: bool, ask: &DiskAsk) -> Option<Cause>
    ensures { result ≡ disk_refusal (option_map (λ open_disk. open_disk.now) disk.entry) deleted ask.now }
{
    match disk {
        None => Some(Cause::VdiNotLocked),
        Some(disk) => refusal_on(disk, deleted, ask),
    }
}
