//! Which ids an effect makes dead, told before it is made: references are taken as in `references.rt`, but from counts that stand apart,
//! so that nothing is changed. Only the ids that lose a reference have a place there.
ghost use Rattle.std.specs.Prelude.{◌≡◌, ◌+◌, ◌<◌, ◌^◌, ◌==◌, ◌∷◌, ◌++◌, ℕ, List, [], None, IfOk, OnOk, OnErr, vec_capacity, if◌then◌else◌};
ghost use Rattle.std.specs.BTreeMap.{BTreeMap as Tree};
ghost use Rattle.vdi_directory.specs.References.{one, one_parent_reference, parent_in, count_in, left_in, reserved_once, reserved_by};
ghost use Rattle.vdi_directory.specs.References.{CanLose, LosesReferences, AreLosses};

use crate::effect::Reservation;
use crate::header::Header;
use crate::references::{count_of, parent_of};
use object_id::{NoMemory, NodeId, Vid};
use std::alloc::Global;
use std::collections::BTreeMap;

/// Ids that lose references, with what each has left, and those of them that lose their last one.
#[derive(Drop)]
pub struct Losses {
    pub left: BTreeMap<u32, usize>,
    pub dead: Vec<Vid>,
}

impl Losses {
    /// No id loses any. Takes no memory.
    pub fn new(alloc: Global) -> Losses
        ensures left { (references : Tree ℕ ℕ) (vid : ℕ) → left_in references result.left vid ≡ count_in references vid }
        ensures dead { result.dead.items ≡ [] }
    {
        Losses {
            left: BTreeMap::new(alloc),
            dead: Vec::new(alloc),
        }
    }

    /// How many references an id has left.
    fn left_of(&self, references: &BTreeMap<u32, usize>, vid: Vid) -> usize
        ensures { result ≡ left_in references.now self.now.left vid.0 }
    {
        match self.left.get(&vid.0) {
            Some(left) => *left,
            None => count_of(references, vid),
        }
    }

    /// Without memory each has left what it had.
    fn take_one(&mut self, references: &BTreeMap<u32, usize>, vid: Vid) -> Result<(), NoMemory>
        requires { 0 < left_in references.now self.old.left vid.0 }
        ensures counts { OnOk result ((other : ℕ) → left_in references.now self.old.left other
            ≡ left_in references.now self.new.left other + one vid.0 other) }
        ensures err { OnErr result (self.new.left.entries ≡ self.old.left.entries) }
        ensures dead { self.new.dead.items ≡ self.old.dead.items }
        ensures capacity { vec_capacity self.new.dead ≡ vec_capacity self.old.dead }
        ensures key { vid.0 < 2 ^ 32 }
    {
        let left = self.left_of(references, vid) - 1;
        self.left.insert(vid.0, left)?;
        Ok(())
    }

    /// Takes one reference from an id. Where that was the last, its parent is the next to lose one. Without memory nothing changes.
    fn take_reference(
        &mut self,
        headers: &BTreeMap<u32, Header>,
        references: &BTreeMap<u32, usize>,
        vid: Vid,
    ) -> Result<Option<Vid>, NoMemory>
        requires { 0 < left_in references.now self.old.left vid.0 }
        ensures counts { OnOk result ((other : ℕ) → left_in references.now self.old.left other
            ≡ left_in references.now self.new.left other + one vid.0 other) }
        ensures dead { OnOk result (self.new.dead.items
            ≡ (if left_in references.now self.new.left vid.0 == 0 then self.old.dead.items ++ vid ∷ [] else self.old.dead.items)) }
        ensures next { IfOk result (λ next. next
            ≡ (if left_in references.now self.new.left vid.0 == 0 then parent_in headers.now vid.0 else None)) }
        ensures err { OnErr result (self.new.left.entries ≡ self.old.left.entries) }
        ensures err_dead { OnErr result (self.new.dead.items ≡ self.old.dead.items) }
        ensures key { vid.0 < 2 ^ 32 }
    {
        self.dead.reserve(1)?;
        self.take_one(references, vid)?;
        if self.left_of(references, vid) == 0 {
            self.dead.push_reserved(vid);
            Ok(parent_of(headers, vid))
        } else {
            Ok(None)
        }
    }

    /// Takes one reference from an id, and one from the parent of each id that loses its last by that. Without memory some of these are
    /// taken, and the list has the ids that have lost their last one so far.
    pub fn drop_reference(
        &mut self,
        headers: &BTreeMap<u32, Header>,
        references: &BTreeMap<u32, usize>,
        vid: Vid,
    ) -> Result<(), NoMemory>
        requires can { CanLose (one vid.0) (parent_in headers.now) (left_in references.now self.old.left) }
        requires are { AreLosses (count_in references.now) (left_in references.now self.old.left) self.old.dead.items }
        ensures loses { OnOk result (LosesReferences (one vid.0) (parent_in headers.now) (left_in references.now self.old.left)
            (left_in references.now self.new.left)) }
        ensures are { AreLosses (count_in references.now) (left_in references.now self.new.left) self.new.dead.items }
    {
        let mut next = Some(vid);
        while let Some(vid) = next {
            next = self.take_reference(headers, references, vid)?;
        }
        Ok(())
    }

    fn drop_reserved(
        &mut self,
        headers: &BTreeMap<u32, Header>,
        references: &BTreeMap<u32, usize>,
        reservation: &Reservation,
        node: NodeId,
    ) -> Result<(), NoMemory>
        requires can { CanLose (reserved_once node reservation.now) (parent_in headers.now) (left_in references.now self.old.left) }
        requires are { AreLosses (count_in references.now) (left_in references.now self.old.left) self.old.dead.items }
        ensures loses { OnOk result (LosesReferences (reserved_once node reservation.now) (parent_in headers.now)
            (left_in references.now self.old.left) (left_in references.now self.new.left)) }
        ensures are { AreLosses (count_in references.now) (left_in references.now self.new.left) self.new.dead.items }
    {
        if reservation.by == node {
            self.drop_reference(headers, references, reservation.vid)
        } else {
            Ok(())
        }
    }

    /// The ids that a node reserved don't bear themselves any more. Without memory that is so for some of them, and the list has the ids
    /// that have lost their last reference so far.
    pub fn drop_references_of(
        &mut self,
        headers: &BTreeMap<u32, Header>,
        references: &BTreeMap<u32, usize>,
        reservations: &[Reservation],
        node: NodeId,
    ) -> Result<(), NoMemory>
        requires can { CanLose (reserved_by node reservations.now) (parent_in headers.now) (left_in references.now self.old.left) }
        requires are { AreLosses (count_in references.now) (left_in references.now self.old.left) self.old.dead.items }
        ensures loses { OnOk result (LosesReferences (reserved_by node reservations.now) (parent_in headers.now)
            (left_in references.now self.old.left) (left_in references.now self.new.left)) }
        ensures are { AreLosses (count_in references.now) (left_in references.now self.new.left) self.new.dead.items }
    {
        for reservation in reservations {
            self.drop_reserved(headers, references, reservation, node)?;
        }
        Ok(())
    }
}
