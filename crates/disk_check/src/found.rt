//! What a check found so far.

ghost use Rattle.std.specs.Prelude.{◌≡◌, ◌+◌, ◌-◌, ◌^◌, ◌<◌, [], length, slice_get, IfOk, IfSome, IsOk, OnOk, OnErr};
ghost use Rattle.disk_check.specs.Check.{with_object};

use object_id::{NoMemory, Oid};
use object_store::OidList;
use peer_proto::Checked;
use std::alloc::Global;

/// Adds an own object to what was found. Without memory this stays as it was.
pub(crate) fn add_object(found: &mut Checked, oid: Oid, differed: bool) -> Result<(), NoMemory>
    requires room { found.old.objects + 1 < 2 ^ 32 }
    requires above { IfSome (slice_get found.old.differed (length found.old.differed - 1)) (λ last. last < oid) }
    ensures ok { OnOk result (found.new ≡ with_object oid differed found.old) }
    ensures err { OnErr result (found.new ≡ found.old) }
{
    if differed {
        found.differed.push(oid)?;
    }
    found.objects += 1;
    Ok(())
}

/// A copy of what was found, which takes no memory if no object differed.
pub(crate) fn copy_found(alloc: Global, found: &Checked) -> Result<Checked, NoMemory>
    ensures copy { IfOk result (λ copy. copy ≡ found.now) }
    ensures none { found.now.differed ≡ [] → IsOk result }
{
    if found.differed.is_empty() {
        Ok(Checked {
            objects: found.objects,
            inherited: found.inherited,
            differed: OidList::new(alloc),
        })
    } else {
        found.copy(alloc)
    }
}
