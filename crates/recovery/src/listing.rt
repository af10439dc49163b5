//! What is to be recovered, by the lists of all members.

ghost use Rattle.std.specs.Prelude.{◌≡◌, ◌≤◌, filter, IfOk};
ghost use Rattle.recovery.specs.Shown.{is_to_recover};
ghost use Rattle.recovery.specs.Kept.{ids_to_recover, ids_when_listed, shown_with_list};

use crate::rows::Rows;
use object_id::{Epoch, NoMemory, NodeId, Oid, TARGETS_MAX};
use object_list::Lists;
use object_store::{Key, OidList};
use strip_lanes::index_among;

/// Whether the node has to recover an object in an epoch. Costs a look-up of the object's targets, of its policy and of its open row.
fn is_to_recover<R: Rows>(me: NodeId, epoch: Epoch, rows: &R, oid: Oid) -> bool
    requires from { 1 ≤ epoch.0 }
    requires to { epoch.0 ≤ (R.shown rows.now).epoch }
    ensures { result ≡ is_to_recover me epoch.0 (R.shown rows.now) oid }
{
    let mut targets = [NodeId(0); TARGETS_MAX];
    let Some((count, policy)) = rows.targets(epoch, oid, &mut targets) else {
        return false;
    };
    match index_among(me, &targets[..count], policy, oid.kind()) {
        Some(index) => !rows.has_open(Key { oid, index }),
        None => false,
    }
}

/// Keeps the ids of the objects that the node has to recover.
fn keep_to_recover<R: Rows>(me: NodeId, epoch: Epoch, rows: &R, oids: &mut OidList)
    requires from { 1 ≤ epoch.0 }
    requires to { epoch.0 ≤ (R.shown rows.now).epoch }
    ensures { oids.new ≡ filter (is_to_recover me epoch.0 (R.shown rows.now)) oids.old }
{
    oids.retain(|oid| is_to_recover(me, epoch, rows, *oid));
}

/// The objects that the node has to recover, of those that were named and of its own. Takes and costs their ids.
fn ids_to_recover<R: Rows>(
    me: NodeId,
    epoch: Epoch,
    lists: &Lists,
    rows: &R,
) -> Result<OidList, NoMemory>
    requires from { 1 ≤ epoch.0 }
    requires to { epoch.0 ≤ (R.shown rows.now).epoch }
    ensures { IfOk result (λ oids. oids ≡ ids_to_recover me epoch.0 lists.now (R.shown rows.now)) }
{
    let own = rows.objects()?;
    let mut oids = lists.objects_with(&own)?;
    keep_to_recover(me, epoch, rows, &mut oids);
    Ok(oids)
}

/// The same, if every other member has named its objects.
pub(crate) fn ids_when_listed<R: Rows>(
    me: NodeId,
    epoch: Epoch,
    lists: &Lists,
    rows: &R,
) -> Result<Option<OidList>, NoMemory>
    requires from { 1 ≤ epoch.0 }
    requires to { epoch.0 ≤ (R.shown rows.now).epoch }
    ensures { IfOk result (λ oids. oids ≡ ids_when_listed me epoch.0 lists.now (R.shown rows.now)) }
{
    if lists.waiting().is_empty() {
        Ok(Some(ids_to_recover(me, epoch, lists, rows)?))
    } else {
        Ok(None)
    }
}

/// If it is known, tells the node what is pending. Takes no memory.
pub(crate) fn show_pending<R: Rows>(oids: Option<OidList>, rows: &mut R)
    ensures shown { R.shown rows.new ≡ shown_with_list oids (R.shown rows.old) }
    ensures rest { R.rest rows.new ≡ R.rest rows.old }
{
    match oids {
        Some(oids) => rows.set_pending(oids),
        None => {}
    }
}
