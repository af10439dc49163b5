ghost use Rattle.std.specs.Prelude.{◌≡◌, ◌≤◌, length, IfOk};
ghost use Rattle.object_id.specs.declared.limits.TheConstants.{OBJECTS_MAX};
ghost use Rattle.object_id.specs.Spec.{IsSpec};
ghost use Rattle.disk_check.specs.Table.{own_indexes, inherited_count};

use inode::Inode;
use object_id::NoMemory;
use std::alloc::Global;

/// What the table of an inode says to a check.
#[derive(Drop)]
pub(crate) struct Entries {
    /// The indexes of the disk's own objects, ascending.
    pub own: Vec<u32>,
    /// How many entries name another disk's object.
    pub inherited: u32,
}

/// Looks through a disk's table, once. Takes four bytes for each own object.
pub(crate) fn entries_by_owner(alloc: Global, inode: &Inode) -> Result<Entries, NoMemory>
    requires { IsSpec inode.now.spec }
    ensures own { IfOk result (λ entries. entries.own.items ≡ own_indexes inode.now) }
    ensures inherited { IfOk result (λ entries. entries.inherited ≡ inherited_count inode.now) }
    ensures most { IfOk result (λ _. length inode.now.table ≤ OBJECTS_MAX) }
{
    let vid = inode.vid().0;
    let mut own = Vec::new(alloc);
    let mut inherited = 0;
    for (index, entry) in inode.entries().iter().enumerate() {
        if *entry == vid {
            own.push(index as u32)?;
        } else if *entry != 0 {
            inherited += 1;
        }
    }
    Ok(Entries { own, inherited })
}
