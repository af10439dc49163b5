ghost use Rattle.std.specs.Prelude.{◌≡◌, ◌↔◌, ℕ, ◌-◌, ◌+◌, ◌<◌, ◌≤◌, ◌==◌, not, List, [], ◌∷◌, ◌++◌, length, take, drop, filter, IfOk};
ghost use Rattle.std.specs.Prelude.{IfSome, OnOk, OnErr, IsTrue, slice_get, slice_index_or};
ghost use Rattle.std.specs.List.{list_any};
ghost use Rattle.std.specs.List.Retain.{IsFiltered};
ghost use Rattle.std.specs.List.Sorted.{IsStrictlyIncreasing};
ghost use Rattle.std.specs.Fn.{CalledAt};
ghost use Rattle.std.specs.Option.{option_copied};

use object_id::{NoMemory, Oid};
use std::alloc::Global;
use std::marker::Model;

/// Object ids, ascending and without repeats. The first ones go without a move of the others.
#[derive(Debug, Drop)]
pub struct OidList {
    items: Vec<Oid>,
    /// How many of the first ones are gone.
    gone: usize,
}

impl Model for OidList {
    ghost use Rattle.std.specs.Prelude.{List, ℕ, ◌≤◌, length, drop};
    ghost use Rattle.std.specs.List.Sorted.{IsStrictlyIncreasing};

    ghost Value = { List ℕ };

    ghost view = { λ s. drop s.gone s.items.items };

    ghost invariant = { λ s. (s.gone ≤ length s.items.items) × IsStrictlyIncreasing (drop s.gone s.items.items) };
}

/// The place of the first id that isn't below this one.
fn place_of(oids: &[Oid], oid: Oid) -> usize
    requires { IsStrictlyIncreasing oids.now }
    ensures within { result ≤ length oids.now }
    ensures before { (k d : ℕ) → k < result → slice_index_or oids.now k d < oid }
    ensures behind { (k d : ℕ) → result ≤ k → k < length oids.now → oid ≤ slice_index_or oids.now k d }
{
    oids.partition_point(|other| *other < oid)
}

/// Moves the ids behind the first `gone` to the front, in their place.
fn move_to_front(items: &mut Vec<Oid>, gone: usize)
    requires { gone ≤ length items.old.items }
    ensures { items.new.items ≡ drop gone items.old.items }
{
    let count = items.len();
    items.as_mut_slice().rotate_left(gone);
    items.truncate(count - gone);
}

impl OidList {
    /// The empty list. Takes no memory, and costs nothing.
    pub fn new(alloc: Global) -> OidList
        ensures { result ≡ [] }
    {
        OidList {
            items: Vec::new(alloc),
            gone: 0,
        }
    }

    /// The ids of an ascending vector without repeats, without copying them. Costs nothing.
    pub fn from_vec(items: Vec<Oid>) -> OidList
        requires { IsStrictlyIncreasing items.items }
        ensures { result ≡ items.items }
    {
        OidList { items, gone: 0 }
    }

    /// Adds an id that is greater than the last one. Without memory the list stays. Costs nothing, but for a move when the list grows.
    pub fn push(&mut self, oid: Oid) -> Result<(), NoMemory>
        requires { IfSome (slice_get self.old (length self.old - 1)) (λ last. last < oid) }
        ensures ok { OnOk result (self.new ≡ self.old ++ oid ∷ []) }
        ensures err { OnErr result (self.new ≡ self.old) }
    {
        self.items.push(oid)?;
        Ok(())
    }

    /// How many ids there are. Costs nothing.
    pub fn len(&self) -> usize
        ensures { result ≡ length self.now }
    {
        self.as_slice().len()
    }

    /// Whether there is no id. Costs nothing.
    pub fn is_empty(&self) -> bool
        ensures { IsTrue result ↔ (self.now ≡ []) }
    {
        self.as_slice().is_empty()
    }

    /// The id at place `k`, from 0; `None` past the end. Costs nothing.
    pub fn get(&self, k: usize) -> Option<&Oid>
        ensures { option_copied result ≡ slice_get self.now k }
    {
        self.as_slice().get(k)
    }

    /// The ids in order. Costs nothing.
    pub fn as_slice(&self) -> &[Oid]
        ensures value { result.now ≡ self.now }
        ensures ascending { IsStrictlyIncreasing result.now }
    {
        &self.items.as_slice()[self.gone..]
    }

    /// Whether an id is in the list. Costs the logarithm of the ids.
    pub fn has(&self, oid: Oid) -> bool
        ensures { result ≡ list_any (λ other. other == oid) self.now }
    {
        let oids = self.as_slice();
        let place = place_of(oids, oid);
        place < oids.len() && oids[place] == oid
    }

    /// Removes the first id, and answers it; `None` exactly where there is none. Takes no memory, and costs nothing.
    pub fn remove_first(&mut self) -> Option<Oid>
        ensures first { result ≡ slice_get self.old 0 }
        ensures rest { self.new ≡ drop 1 self.old }
    {
        let first = self.get(0).copied();
        if first.is_some() {
            self.gone += 1;
        }
        first
    }

    /// Removes the id at a place. The first goes at no cost, another at a move of those behind it.
    fn remove_at(&mut self, place: usize)
        requires { place < length self.old }
        ensures { self.new ≡ take place self.old ++ drop (place + 1) self.old }
    {
        if place == 0 {
            self.gone += 1;
        } else {
            self.items.remove(self.gone + place);
        }
    }

    /// Removes an id, if it is there. Takes no memory. Costs the logarithm of the ids, and a move of those behind it where it isn't the
    /// first.
    pub fn remove(&mut self, oid: Oid)
        ensures { self.new ≡ filter (λ other. not (other == oid)) self.old }
    {
        let place = place_of(self.as_slice(), oid);
        if self.has(oid) {
            self.remove_at(place);
        }
    }

    /// Keeps the ids for which `keep` answers true, asked for each in turn. Takes no memory. Costs a call for each id, and their move.
    pub fn retain<F: FnMut(&Oid) -> bool>(&mut self, keep: F)
        requires { F.IsAlwaysCallable keep }
        ensures { IsFiltered (CalledAt F.FnMut) keep self.old self.new }
    {
        move_to_front(&mut self.items, self.gone);
        self.gone = 0;
        self.items.retain(keep);
    }

    /// Takes memory for a copy of the ids, and costs them.
    pub fn copy(&self, alloc: Global) -> Result<OidList, NoMemory>
        ensures { IfOk result (λ copy. copy ≡ self.now) }
    {
        Ok(OidList {
            items: Vec::from_slice(alloc, self.as_slice())?,
            gone: 0,
        })
    }
}
