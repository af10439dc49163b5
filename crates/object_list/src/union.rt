ghost use Rattle.std.specs.Prelude.{◌≡◌, ◌<◌, ◌≤◌, nat_lt, ◌∷◌, ◌++◌, All, IfOk};
ghost use Rattle.std.specs.List.{prefix_len};
ghost use Rattle.std.specs.List.Sorted.{IsStrictlyIncreasing};
ghost use Rattle.object_list.specs.Union.{with_id, union};

use object_id::{NoMemory, Oid};
use object_store::OidList;
use std::alloc::Global;

/// How many ids at the front are below an id.
fn count_below(oids: &[Oid], oid: Oid) -> usize
    ensures { result ≡ prefix_len (λ other. nat_lt other oid) oids.now }
{
    for place in 0..oids.len() {
        if oid <= oids[place] {
            return place;
        }
    }
    oids.len()
}

/// What is left behind an id that may stand at the front.
fn behind(oids: &[Oid], oid: Oid) -> &[Oid]
    requires { prefix_len (λ other. nat_lt other oid) oids.now ≡ 0 }
    ensures { oid ∷ result.now ≡ with_id oids.now oid }
{
    match oids {
        [first, rest @ ..] if *first == oid => rest,
        _ => oids,
    }
}

/// Puts what is below an id, and the id, behind what is there. Answers what is left above it.
fn put_up_to<'a>(all: &mut Vec<Oid>, oids: &'a [Oid], oid: Oid) -> Result<&'a [Oid], NoMemory>
    requires { All (λ other. other < oid) all.old.items }
    ensures sum { IfOk result (λ rest. all.new.items ++ rest.now ≡ with_id (all.old.items ++ oids.now) oid) }
    ensures most { IfOk result (λ rest. All (λ other. other ≤ oid) all.new.items) }
{
    let (below, above) = oids.split_at(count_below(oids, oid));
    all.extend_from_slice(below)?;
    all.push(oid)?;
    Ok(behind(above, oid))
}

/// The ascending union of two ascending lists, in one pass over both.
pub fn union(alloc: Global, oids: &[Oid], others: &[Oid]) -> Result<OidList, NoMemory>
    requires oids { IsStrictlyIncreasing oids.now }
    requires others { IsStrictlyIncreasing others.now }
    ensures { IfOk result (λ all. all ≡ union oids.now others.now) }
{
    let mut all = Vec::with_capacity(alloc, oids.len().saturating_add(others.len()))?;
    let mut rest = oids;
    for oid in others {
        rest = put_up_to(&mut all, rest, *oid)?;
    }
    all.extend_from_slice(rest)?;
    Ok(OidList::from_vec(all))
}
