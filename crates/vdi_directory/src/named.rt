ghost use Rattle.std.specs.Prelude.{◌≡◌, ℕ, List, None, Some, OnOk, OnErr};
ghost use Rattle.std.specs.FinMap as tree;
ghost use Rattle.vdi_directory.specs.declared.effect.Effect.TheVariants as effects;
ghost use Rattle.vdi_directory.specs.Names.{Name, is_live_name, unless};
ghost use Rattle.vdi_directory.specs.NameRows.{no_standing, standing_of, tag_in, standing_in, standing_with_working};
ghost use Rattle.vdi_directory.specs.NameRows.{standing_with_snapshot, standing_without};
ghost use Rattle.vdi_directory.specs.Effects.{holder_after};

use crate::effect::Snap;
use crate::tags::{add_tag, drop_tag, tagged};
use disk_lock::Locks;
use object_id::{NoMemory, Vid};
use std::alloc::Global;
use std::collections::BTreeMap;

/// What a name stands for: its published working disk, and its live snapshots by tag. The definitions list these in order, and a tag
/// finds the first that has it. It is the only one: a tag has to be free when an id is reserved for a snapshot with it, and until
/// the working disk of the name becomes that snapshot no other can (`proofs/TagLemmas.antt`).
pub struct Named {
    pub working: Option<Vid>,
    pub tags: BTreeMap<Vec<u8>, Vid>,
    /// How many snapshots were ever taken.
    pub taken: u32,
}

/// Written out, so that letting one go is one call wherever it is done, and no cases there.
impl Drop for Named {
    fn drop(self) {
        let Named {
            working: _,
            tags,
            taken: _,
        } = self;
        drop(tags);
    }
}

/// What is left of a working disk where this one goes.
fn unless(vid: Vid, working: Option<Vid>) -> Option<Vid>
    ensures { result ≡ unless vid working }
{
    match working {
        Some(other) if other != vid => Some(other),
        _ => None,
    }
}

impl Named {
    /// No disk yet. Takes no memory.
    pub fn new(alloc: Global) -> Named
        ensures { standing_in result ≡ no_standing }
    {
        Named {
            working: None,
            tags: BTreeMap::new(alloc),
            taken: 0,
        }
    }

    /// The live snapshot with a tag.
    pub fn tagged(&self, tag: &[u8]) -> Option<Vid>
        ensures { result ≡ tag_in self.now.tags tag.now }
    {
        tagged(&self.tags, tag)
    }

    /// Whether there is a live published disk or snapshot.
    pub fn is_live(&self) -> bool
        ensures { (now : Name) → standing_in self.now ≡ standing_of now → result ≡ is_live_name now }
    {
        self.working.is_some() || !self.tags.is_empty()
    }

    pub fn publish(&mut self, vid: Vid)
        ensures { standing_in self.new ≡ standing_with_working vid (standing_in self.old) }
    {
        self.working = Some(vid);
    }

    /// Makes the working disk a snapshot and moves its lock to the new one. Without memory each tag finds what it found.
    pub fn snap(&mut self, alloc: Global, snap: &Snap, locks: &mut Locks) -> Result<(), NoMemory>
        requires { tag_in self.old.tags snap.now.tag ≡ None }
        ensures ok { OnOk result (standing_in self.new
            ≡ standing_with_snapshot snap.now.old snap.now.vid snap.now.tag (standing_in self.old)) }
        ensures locks { OnOk result ((vid : ℕ) → tree.get locks.new vid
            ≡ holder_after vid (tree.get locks.old vid) (effects.Snapped snap.now)) }
        ensures err { OnErr result (standing_in self.new ≡ standing_in self.old) }
        ensures locks_err { OnErr result (locks.new ≡ locks.old) }
    {
        add_tag(alloc, &mut self.tags, snap.tag.as_slice(), snap.old)?;
        match locks.grant(snap.vid, snap.holder) {
            Ok(()) => {
                locks.free(snap.old);
                self.working = Some(snap.vid);
                self.taken = self.taken.saturating_add(1);
                Ok(())
            }
            Err(fault) => {
                drop_tag(&mut self.tags, snap.tag.as_slice());
                Err(fault)
            }
        }
    }

    /// Forgets a disk that was deleted. If it is a snapshot, this is its tag.
    pub fn delete(&mut self, vid: Vid, tag: &[u8])
        requires { (other : List ℕ) → tag_in self.old.tags other ≡ Some vid → tag.now ≡ other }
        ensures { standing_in self.new ≡ standing_without vid (standing_in self.old) }
    {
        self.working = unless(vid, self.working);
        match self.tagged(tag) {
            Some(other) if other == vid => drop_tag(&mut self.tags, tag),
            _ => {}
        }
    }
}
