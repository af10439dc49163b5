//! Who bears an id: itself while it is reserved or live, and each of its children that somebody bears. A clone's base has
//! to stay as long as the clone or one of its heirs, so an id is dead once nobody bears it. Only counts are kept: an id
//! that loses its last reference takes one from its parent, so a change costs at most the parent chain.
ghost use Rattle.std.specs.Prelude.{◌≡◌, ◌+◌, ◌-◌, ◌<◌, ◌^◌, ◌==◌, ℕ, None, OnOk, IsSome, if◌then◌else◌};
ghost use Rattle.std.specs.Ordering.{nat_cmp};
ghost use Rattle.std.specs.BTreeMap.{get};
ghost use Rattle.vdi_directory.specs.References.{one, one_parent_reference, parent_in, count_in, reserved_once, reserved_by, CanLose};
ghost use Rattle.vdi_directory.specs.References.{LosesReferences, IsReferenced};

use crate::effect::Reservation;
use crate::header::Header;
use object_id::{NoMemory, NodeId, Vid};
use std::collections::BTreeMap;

/// How many bear an id.
pub fn count_of(references: &BTreeMap<u32, usize>, vid: Vid) -> usize
    ensures { result ≡ count_in references.now vid.0 }
{
    match references.get(&vid.0) {
        Some(count) => *count,
        None => 0,
    }
}

/// Makes a place for an id's count. With memory or without, each count stays as it was.
pub fn add_place(references: &mut BTreeMap<u32, usize>, vid: Vid) -> Result<(), NoMemory>
    ensures same { (other : ℕ) → count_in references.new other ≡ count_in references.old other }
    ensures there { OnOk result (IsSome (get nat_cmp references.new vid.0)) }
{
    if !references.contains_key(&vid.0) {
        references.insert(vid.0, 0)?;
    }
    Ok(())
}

fn add_one(references: &mut BTreeMap<u32, usize>, vid: Vid)
    requires there { IsSome (get nat_cmp references.old vid.0) }
    requires room { count_in references.old vid.0 < 2 ^ 64 - 1 }
    ensures { (other : ℕ) → count_in references.new other ≡ count_in references.old other + one vid.0 other }
{
    if let Some(count) = references.get_mut(&vid.0) {
        *count += 1;
    }
}

/// Counts a new id, which bears itself and its parent.
pub fn add_child(references: &mut BTreeMap<u32, usize>, vid: Vid, parent: Option<Vid>)
    requires there { IsSome (get nat_cmp references.old vid.0) }
    requires new { count_in references.old vid.0 ≡ 0 }
    requires parent { IsReferenced parent (count_in references.old) }
    ensures { (other : ℕ) → count_in references.new other
        ≡ count_in references.old other + one vid.0 other + one_parent_reference parent other }
{
    add_one(references, vid);
    if let Some(parent) = parent {
        add_one(references, parent);
    }
}

fn take_one(references: &mut BTreeMap<u32, usize>, vid: Vid)
    requires { 0 < count_in references.old vid.0 }
    ensures { (other : ℕ) → count_in references.old other ≡ count_in references.new other + one vid.0 other }
{
    if let Some(count) = references.get_mut(&vid.0) {
        *count -= 1;
    }
}

/// What an id was made from.
pub fn parent_of(headers: &BTreeMap<u32, Header>, vid: Vid) -> Option<Vid>
    ensures { result ≡ parent_in headers.now vid.0 }
{
    match headers.get(&vid.0) {
        Some(header) => header.parent,
        None => None,
    }
}

/// Takes one reference from an id. Where that was the last, its parent is the next to lose one.
fn take_reference(
    headers: &BTreeMap<u32, Header>,
    references: &mut BTreeMap<u32, usize>,
    vid: Vid,
) -> Option<Vid>
    requires { 0 < count_in references.old vid.0 }
    ensures counts { (other : ℕ) → count_in references.old other ≡ count_in references.new other + one vid.0 other }
    ensures next { result ≡ (if count_in references.new vid.0 == 0 then parent_in headers.now vid.0 else None) }
    ensures key { vid.0 < 2 ^ 32 }
{
    take_one(references, vid);
    if count_of(references, vid) == 0 {
        parent_of(headers, vid)
    } else {
        None
    }
}

/// Takes one reference from an id, and one from the parent of each id that loses its last by that.
pub fn drop_reference(
    headers: &BTreeMap<u32, Header>,
    references: &mut BTreeMap<u32, usize>,
    vid: Vid,
)
    requires { CanLose (one vid.0) (parent_in headers.now) (count_in references.old) }
    ensures { LosesReferences (one vid.0) (parent_in headers.now) (count_in references.old) (count_in references.new) }
{
    let mut next = Some(vid);
    while let Some(vid) = next {
        next = take_reference(headers, references, vid);
    }
}

fn drop_reserved(
    headers: &BTreeMap<u32, Header>,
    references: &mut BTreeMap<u32, usize>,
    reservation: &Reservation,
    node: NodeId,
)
    requires { CanLose (reserved_once node reservation.now) (parent_in headers.now) (count_in references.old) }
    ensures { LosesReferences (reserved_once node reservation.now) (parent_in headers.now) (count_in references.old)
        (count_in references.new) }
{
    if reservation.by == node {
        drop_reference(headers, references, reservation.vid);
    }
}

/// The ids that a node reserved don't bear themselves any more.
pub fn drop_references_of(
    headers: &BTreeMap<u32, Header>,
    references: &mut BTreeMap<u32, usize>,
    reservations: &[Reservation],
    node: NodeId,
)
    requires { CanLose (reserved_by node reservations.now) (parent_in headers.now) (count_in references.old) }
    ensures { LosesReferences (reserved_by node reservations.now) (parent_in headers.now) (count_in references.old)
        (count_in references.new) }
{
    for reservation in reservations {
        drop_reserved(headers, references, reservation, node);
    }
}
