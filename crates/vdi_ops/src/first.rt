//! The entry that a command begins with.
ghost use Rattle.std.specs.Prelude.{◌≡◌, true, Some, IfOk, IsOk};
ghost use Rattle.std.specs.Option.{option_copied};
ghost use Rattle.peer_proto.specs.declared.guest.VdiAsk.TheVariants.{Close};
ghost use Rattle.vdi_ops.specs.Entries.{first_entry};
ghost use Rattle.vdi_ops.specs.Kept.{HasFirstEntry, EntryHasTag, gives_back};

use inode::Inode;
use object_id::{Bytes, Entry, NoMemory, NodeId, Origin};
use peer_proto::VdiAsk;
use std::alloc::Global;

/// A copy of an entry. That of an `Unlock` takes no memory.
pub(crate) fn copy_entry(alloc: Global, entry: &Entry) -> Result<Entry, NoMemory>
    ensures copy { IfOk result (λ copy. copy ≡ entry.now) }
    ensures memory { gives_back entry.now ≡ true → IsOk result }
{
    match entry {
        &Entry::Unlock { by, session, vid } => Ok(Entry::Unlock { by, session, vid }),
        _ => entry.copy(alloc),
    }
}

/// The first entry of a command.
pub(crate) fn first_entry(
    alloc: Global,
    node: NodeId,
    session: u32,
    ask: VdiAsk,
    disk: Option<&Inode>,
) -> Result<Entry, NoMemory>
    requires { HasFirstEntry (option_copied disk) ask }
    ensures ok { IfOk result (λ entry. first_entry node session (option_copied disk.entry) ask ≡ Some entry) }
    ensures tag { IfOk result EntryHasTag }
    ensures memory { ask ≡ Close → IfOk result (λ entry. gives_back entry ≡ true) × IsOk result }
{
    let by = node;
    match ask {
        VdiAsk::Create { name, spec } => Ok(Entry::Reserve {
            by,
            session,
            name,
            origin: Origin::Fresh { spec },
        }),
        VdiAsk::Attach { name, tag } => Ok(Entry::Lock {
            by,
            session,
            name,
            tag,
        }),
        VdiAsk::Close => match disk {
            Some(disk) => Ok(Entry::Unlock {
                by,
                session,
                vid: disk.vid(),
            }),
            None => Err(NoMemory),
        },
        VdiAsk::Snapshot { tag } => match disk {
            Some(disk) => Ok(Entry::Reserve {
                by,
                session,
                name: Bytes::from_slice(alloc, disk.name())?,
                origin: Origin::SnapshotOf { tag },
            }),
            None => Err(NoMemory),
        },
        VdiAsk::Clone { base, tag, name } => Ok(Entry::Reserve {
            by,
            session,
            name,
            origin: Origin::CloneOf { base, tag },
        }),
        VdiAsk::Delete { name, tag } => Ok(Entry::Delete {
            by,
            session,
            name,
            tag,
        }),
        VdiAsk::Check => Err(NoMemory),
    }
}
