ghost use Rattle.std.specs.Prelude.{◌≡◌, ℕ, List, None, Some, IsSome, OnOk, OnErr};
ghost use Rattle.std.specs.FinMap as tree;
ghost use Rattle.vdi_directory.specs.declared.effect.Effect.TheVariants as effects;
ghost use Rattle.vdi_directory.specs.Names.{Name, is_live_name};
ghost use Rattle.vdi_directory.specs.Effects.{holder_after};
ghost use Rattle.vdi_directory.specs.NameRows.{no_standing, standing_of, name_row_of, name_in, standing_after};

use crate::effect::Snap;
use crate::named::Named;
use disk_lock::Locks;
use object_id::{NoMemory, Vid};
use std::alloc::Global;
use std::collections::BTreeMap;

/// What each name stands for. A name that isn't there stands for no disk.
pub struct Names {
    pub rows: BTreeMap<Vec<u8>, Named>,
}

/// Written out, so that letting one go is one call wherever it is done, and no cases there.
impl Drop for Names {
    fn drop(self) {
        let Names { rows } = self;
        drop(rows);
    }
}

impl Names {
    /// No name stands for a disk. Takes no memory.
    pub fn new(alloc: Global) -> Names
        ensures { (name : List ℕ) → name_in result.rows name ≡ no_standing }
    {
        Names {
            rows: BTreeMap::new(alloc),
        }
    }

    pub fn working(&self, name: &[u8]) -> Option<Vid>
        ensures { result ≡ (name_in self.now.rows name.now).working }
    {
        match self.rows.get(name) {
            Some(named) => named.working,
            None => None,
        }
    }

    pub fn taken(&self, name: &[u8]) -> u32
        ensures { result ≡ (name_in self.now.rows name.now).taken }
    {
        match self.rows.get(name) {
            Some(named) => named.taken,
            None => 0,
        }
    }

    pub fn tagged(&self, name: &[u8], tag: &[u8]) -> Option<Vid>
        ensures { result ≡ (name_in self.now.rows name.now).tagged tag.now }
    {
        match self.rows.get(name) {
            Some(named) => named.tagged(tag),
            None => None,
        }
    }

    pub fn is_live(&self, name: &[u8]) -> bool
        ensures { (now : Name) → name_in self.now.rows name.now ≡ standing_of now → result ≡ is_live_name now }
    {
        match self.rows.get(name) {
            Some(named) => named.is_live(),
            None => false,
        }
    }

    /// Makes a place for a name. With memory or without, each name stands for what it stood for.
    pub fn add(&mut self, alloc: Global, name: &[u8]) -> Result<(), NoMemory>
        ensures same { (other : List ℕ) → name_in self.new.rows other ≡ name_in self.old.rows other }
        ensures there { OnOk result (IsSome (name_row_of self.new.rows name.now)) }
    {
        if !self.rows.contains_key(name) {
            self.rows
                .insert(Vec::from_slice(alloc, name)?, Named::new(alloc))?;
        }
        Ok(())
    }

    pub fn publish(&mut self, name: &[u8], vid: Vid)
        requires { IsSome (name_row_of self.old.rows name.now) }
        ensures { (other : List ℕ) → name_in self.new.rows other
            ≡ standing_after other (name_in self.old.rows other) (effects.Published vid name.now) }
    {
        if let Some(named) = self.rows.get_mut(name) {
            named.publish(vid);
        }
    }

    /// Without memory nothing changes.
    pub fn snap(&mut self, alloc: Global, snap: &Snap, locks: &mut Locks) -> Result<(), NoMemory>
        requires there { IsSome (name_row_of self.old.rows snap.now.name) }
        requires free { (name_in self.old.rows snap.now.name).tagged snap.now.tag ≡ None }
        ensures ok { OnOk result ((other : List ℕ) → name_in self.new.rows other
            ≡ standing_after other (name_in self.old.rows other) (effects.Snapped snap.now)) }
        ensures locks { OnOk result ((vid : ℕ) → tree.get locks.new vid
            ≡ holder_after vid (tree.get locks.old vid) (effects.Snapped snap.now)) }
        ensures err { OnErr result ((other : List ℕ) → name_in self.new.rows other ≡ name_in self.old.rows other) }
        ensures locks_err { OnErr result (locks.new ≡ locks.old) }
    {
        match self.rows.get_mut(snap.name.as_slice()) {
            Some(named) => named.snap(alloc, snap, locks),
            None => Err(NoMemory),
        }
    }

    pub fn delete(&mut self, name: &[u8], vid: Vid, tag: &[u8])
        requires { (other : List ℕ) → (name_in self.old.rows name.now).tagged other ≡ Some vid → tag.now ≡ other }
        ensures { (other : List ℕ) → name_in self.new.rows other
            ≡ standing_after other (name_in self.old.rows other) (effects.Deleted vid name.now) }
    {
        if let Some(named) = self.rows.get_mut(name) {
            named.delete(vid, tag);
        }
    }
}
