//! When a command is refused on the spot.
ghost use Rattle.std.specs.Prelude.{◌≡◌, ◌≤◌, ◌==◌, count_by, length, option_map};
ghost use Rattle.std.specs.Option.{option_copied};
ghost use Rattle.inode.specs.Layout.{Content};
ghost use Rattle.vdi_ops.specs.Entries.{own_bytes, check_refusal, command_refusal};

use crate::limits::CHECKED_BYTES_MAX;
use inode::Inode;
use object_id::Cause;
use peer_proto::VdiAsk;

/// How many entries of a table are this one. Costs a look at each.
fn count_of(table: &[u32], entry: u32) -> u64
    ensures value { result ≡ count_by (λ other. other == entry) table.now }
    ensures most { result ≤ length table.now }
{
    let mut count = 0;
    for other in table {
        if *other == entry {
            count += 1;
        }
    }
    count
}

/// How many bytes the objects have that are a disk's own.
fn own_bytes(inode: &Inode) -> u64
    ensures { result ≡ own_bytes inode.now }
{
    let spec = inode.spec();
    count_of(inode.entries(), inode.vid().0) * (1 << spec.shift)
}

/// Why the open disk isn't checked.
fn check_refusal(disk: Option<&Inode>, snapshot: bool) -> Option<Cause>
    ensures { result ≡ check_refusal (option_map (λ (inode : Content). record { inode = inode; snapshot = snapshot })
        (option_copied disk.entry)) }
{
    match disk {
        None => Some(Cause::VdiNotLocked),
        Some(inode) => {
            if snapshot {
                Some(Cause::Readonly)
            } else if own_bytes(inode) <= CHECKED_BYTES_MAX {
                None
            } else {
                Some(Cause::InvalidParms)
            }
        }
    }
}

/// Why a command is refused on the spot, where the session has this inode open, of a snapshot or a disk; `None` exactly where it
/// isn't. A check costs one look at each entry of the table, any other command nothing. Takes no memory.
pub fn command_refusal(ask: &VdiAsk, disk: Option<&Inode>, snapshot: bool) -> Option<Cause>
    ensures { result ≡ command_refusal (option_map (λ (inode : Content). record { inode = inode; snapshot = snapshot })
        (option_copied disk.entry)) ask.now }
{
    match ask {
        VdiAsk::Create { .. } => None,
        VdiAsk::Attach { .. } => match disk {
            Some(_) => Some(Cause::InvalidParms),
            None => None,
        },
        VdiAsk::Close => match disk {
            Some(_) => None,
            None => Some(Cause::VdiNotLocked),
        },
        VdiAsk::Snapshot { .. } => match disk {
            Some(_) => {
                if snapshot {
                    Some(Cause::Readonly)
                } else {
                    None
                }
            }
            None => Some(Cause::VdiNotLocked),
        },
        VdiAsk::Clone { .. } => None,
        VdiAsk::Delete { .. } => None,
        VdiAsk::Check => check_refusal(disk, snapshot),
    }
}
