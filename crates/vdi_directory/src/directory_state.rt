ghost use Rattle.std.specs.Prelude.{◌≡◌, ◌≢◌, ◌≤◌, ◌<◌, ℕ, ◌==◌, [], IfOk, OnOk, OnErr, IsSome, vec_len, vec_capacity, if◌then◌else◌};
ghost use Rattle.std.specs.List.Sorted.{IsNonDecreasing, IsStrictlyIncreasing};
ghost use Rattle.vdi_directory.specs.declared.effect.Effect.TheVariants as effects;
ghost use Rattle.vdi_directory.specs.Vids.{AreRanges};
ghost use Rattle.vdi_directory.specs.DirectoryState.{IsDirectoryState, AreMade, AreLocksMade, IsFresh, CanMake, HasItsTag, lost_by, IsDeadList};
ghost use Rattle.vdi_directory.specs.References.{one, reserved_by, parent_in, count_in, CanLose};

use crate::effect::{Effect, Grant, Reservation, Snap};
use crate::header::Header;
use crate::headers::{set_tag, tag_of};
use crate::live_ids::{add_id, drop_id};
use crate::losses::Losses;
use crate::names::Names;
use crate::references::{add_child, add_place, drop_reference, drop_references_of};
use crate::reservations::{drop_reservation, drop_reservations_of};
use crate::used_ids::add_used;
use crate::vid_range::VidRange;
use disk_lock::Locks;
use object_id::{Bytes, NoMemory, NodeId, Vid};
use std::alloc::Global;
use std::collections::BTreeMap;

/// What the entries so far come to.
pub struct DirectoryState {
    pub headers: BTreeMap<u32, Header>,
    pub names: Names,
    /// The reservations that stand.
    pub reservations: Vec<Reservation>,
    /// The live ids, ascending.
    pub live: Vec<u32>,
    pub used: Vec<VidRange>,
    /// How many bear each id.
    pub references: BTreeMap<u32, usize>,
}

/// Written out, so that letting one go is one call wherever it is done, and no cases there.
impl Drop for DirectoryState {
    fn drop(self) {
        let DirectoryState {
            headers,
            names,
            reservations,
            live,
            used,
            references,
        } = self;
        drop(headers);
        drop(names);
        drop(reservations);
        drop(live);
        drop(used);
        drop(references);
    }
}

impl DirectoryState {
    /// Nothing happened yet. Takes no memory.
    pub fn new(alloc: Global) -> DirectoryState
        ensures { IsDirectoryState [] result }
    {
        DirectoryState {
            headers: BTreeMap::new(alloc),
            names: Names::new(alloc),
            reservations: Vec::new(alloc),
            live: Vec::new(alloc),
            used: Vec::new(alloc),
            references: BTreeMap::new(alloc),
        }
    }

    /// Reserves an id. Without memory nothing changes.
    fn reserve(&mut self, grant: Grant) -> Result<(), NoMemory>
        requires fresh { IsFresh (effects.Reserved grant) self.old }
        requires references { CanMake (effects.Reserved grant) self.old }
        requires ranges { AreRanges self.old.used.items }
        ensures ok { OnOk result (AreMade (effects.Reserved grant) self.old self.new) }
        ensures err { OnErr result (AreMade effects.Nothing self.old self.new) }
    {
        self.reservations.reserve(1)?;
        self.used.reserve(1)?;
        let vid = grant.reservation.vid;
        let parent = grant.header.parent;
        add_place(&mut self.references, vid)?;
        self.headers.insert(vid.0, grant.header)?;
        add_child(&mut self.references, vid, parent);
        add_used(&mut self.used, vid);
        self.reservations.push_reserved(grant.reservation);
        Ok(())
    }

    /// Publishes a reserved id as the working disk of its name. Without memory nothing changes.
    fn publish(&mut self, alloc: Global, vid: Vid, name: &Bytes) -> Result<(), NoMemory>
        requires sorted { IsNonDecreasing self.old.live.items }
        requires ranges { AreRanges self.old.used.items }
        ensures ok { OnOk result (AreMade (effects.Published vid name.now) self.old self.new) }
        ensures err { OnErr result (AreMade effects.Nothing self.old self.new) }
    {
        self.live.reserve(1)?;
        self.names.add(alloc, name.as_slice())?;
        self.names.publish(name.as_slice(), vid);
        drop_reservation(&mut self.reservations, vid);
        add_id(&mut self.live, vid);
        Ok(())
    }

    /// Makes a working disk a snapshot, and the reserved id the working disk. Without memory nothing changes.
    fn snap(&mut self, alloc: Global, snap: Snap, locks: &mut Locks) -> Result<(), NoMemory>
        requires tag { HasItsTag (effects.Snapped snap) self.old }
        requires sorted { IsNonDecreasing self.old.live.items }
        requires ranges { AreRanges self.old.used.items }
        ensures ok { OnOk result (AreMade (effects.Snapped snap) self.old self.new) }
        ensures locks { OnOk result (AreLocksMade (effects.Snapped snap) locks.old locks.new) }
        ensures err { OnErr result (AreMade effects.Nothing self.old self.new) }
        ensures locks_err { OnErr result (locks.new ≡ locks.old) }
    {
        self.live.reserve(1)?;
        self.names.add(alloc, snap.name.as_slice())?;
        self.names.snap(alloc, &snap, locks)?;
        drop_reservation(&mut self.reservations, snap.vid);
        add_id(&mut self.live, snap.vid);
        set_tag(&mut self.headers, snap.old, snap.tag);
        Ok(())
    }

    fn delete(&mut self, vid: Vid, name: &Bytes)
        requires references { CanMake (effects.Deleted vid name.now) self.old }
        requires tag { HasItsTag (effects.Deleted vid name.now) self.old }
        requires strict { IsStrictlyIncreasing self.old.live.items }
        requires ranges { AreRanges self.old.used.items }
        ensures { AreMade (effects.Deleted vid name.now) self.old self.new }
    {
        let tag = tag_of(&self.headers, vid);
        self.names.delete(name.as_slice(), vid, tag);
        drop_id(&mut self.live, vid);
        drop_reference(&self.headers, &mut self.references, vid);
    }

    fn withdraw(&mut self, vid: Vid)
        requires references { CanMake (effects.Withdrawn vid) self.old }
        requires ranges { AreRanges self.old.used.items }
        ensures { AreMade (effects.Withdrawn vid) self.old self.new }
    {
        drop_reservation(&mut self.reservations, vid);
        drop_reference(&self.headers, &mut self.references, vid);
    }

    fn leave(&mut self, node: NodeId)
        requires references { CanMake (effects.Left node) self.old }
        requires ranges { AreRanges self.old.used.items }
        ensures { AreMade (effects.Left node) self.old self.new }
    {
        drop_references_of(
            &self.headers,
            &mut self.references,
            self.reservations.as_slice(),
            node,
        );
        drop_reservations_of(&mut self.reservations, node);
    }

    fn dead_without(&self, alloc: Global, vid: Vid) -> Result<Vec<Vid>, NoMemory>
        requires { CanLose (one vid.0) (parent_in self.now.headers) (count_in self.now.references) }
        ensures { IfOk result (λ dead. IsDeadList (one vid.0) self.now dead.items) }
    {
        let mut losses = Losses::new(alloc);
        losses.drop_reference(&self.headers, &self.references, vid)?;
        Ok(losses.dead)
    }

    fn dead_without_node(&self, alloc: Global, node: NodeId) -> Result<Vec<Vid>, NoMemory>
        requires { CanLose (reserved_by node self.now.reservations.items) (parent_in self.now.headers) (count_in self.now.references) }
        ensures { IfOk result (λ dead. IsDeadList (reserved_by node self.now.reservations.items) self.now dead.items) }
    {
        let mut losses = Losses::new(alloc);
        losses.drop_references_of(
            &self.headers,
            &self.references,
            self.reservations.as_slice(),
            node,
        )?;
        Ok(losses.dead)
    }

    /// The ids that an effect would make dead. Nothing changes.
    pub fn dead_by(&self, alloc: Global, effect: &Effect) -> Result<Vec<Vid>, NoMemory>
        requires { CanMake effect.now self.now }
        ensures dead { IfOk result (λ dead. IsDeadList (lost_by effect.now self.now.reservations.items) self.now dead.items) }
        ensures memory { OnErr result (effect.now ≢ effects.Nothing) }
    {
        match effect {
            Effect::Deleted { vid, .. } => self.dead_without(alloc, *vid),
            Effect::Withdrawn { vid } => self.dead_without(alloc, *vid),
            Effect::Left { node } => self.dead_without_node(alloc, *node),
            _ => Ok(Vec::new(alloc)),
        }
    }

    /// Makes an effect. Without memory nothing changes.
    pub fn make(&mut self, alloc: Global, effect: Effect, locks: &mut Locks) -> Result<(), NoMemory>
        requires fresh { IsFresh effect self.old }
        requires references { CanMake effect self.old }
        requires tag { HasItsTag effect self.old }
        requires sorted { IsNonDecreasing self.old.live.items }
        requires strict { IsStrictlyIncreasing self.old.live.items }
        requires ranges { AreRanges self.old.used.items }
        ensures ok { OnOk result (AreMade effect self.old self.new) }
        ensures locks { OnOk result (AreLocksMade effect locks.old locks.new) }
        ensures err { OnErr result (AreMade effects.Nothing self.old self.new) }
        ensures locks_err { OnErr result (locks.new ≡ locks.old) }
    {
        match effect {
            Effect::Nothing => Ok(()),
            Effect::Reserved(grant) => self.reserve(grant),
            Effect::Published { vid, name } => self.publish(alloc, vid, &name),
            Effect::Snapped(snap) => self.snap(alloc, snap, locks),
            Effect::Deleted { vid, name } => {
                self.delete(vid, &name);
                Ok(())
            }
            Effect::Held { vid, holder } => locks.grant(vid, holder),
            Effect::Freed { vid } => {
                locks.free(vid);
                Ok(())
            }
            Effect::Withdrawn { vid } => {
                self.withdraw(vid);
                Ok(())
            }
            Effect::Left { node } => {
                locks.free_node(node);
                self.leave(node);
                Ok(())
            }
        }
    }
}
