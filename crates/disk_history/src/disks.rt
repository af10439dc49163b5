//! Disks: which there are, and for each of their blocks the place of its newest write.
ghost use Rattle.std.specs.Prelude.{◌≡◌, false, not, [], IsSome, IfOk, OnOk};
ghost use Rattle.std.specs.Option.{option_and_then, option_map_or};
ghost use Rattle.std.specs.Ordering.{nat_cmp};
ghost use Rattle.std.specs.BTreeMap.{get};
ghost use Rattle.disk_history.specs.CheckerState.{has_block_in, DeletesOne, WritesOne};
ghost use Rattle.std.specs.Bool.{OnTrue};

use object_id::NoMemory;
use std::alloc::Global;
use std::collections::BTreeMap;

/// A disk: how many blocks it has, whether it was deleted, and the place of the newest write of each block that has one.
pub struct DiskState {
    pub blocks: u64,
    pub deleted: bool,
    pub newest: BTreeMap<u64, usize>,
}

/// Written out, so that letting one go is one call wherever it is done, and no cases there.
impl Drop for DiskState {
    fn drop(self) {
        let DiskState {
            blocks: _,
            deleted: _,
            newest,
        } = self;
        drop(newest);
    }
}

pub type Disks = BTreeMap<u32, DiskState>;

impl DiskState {
    /// A disk that nobody wrote.
    pub fn new(alloc: Global, blocks: u64) -> Self
        ensures blocks { result.blocks ≡ blocks }
        ensures live { result.deleted ≡ false }
        ensures empty { result.newest.entries ≡ [] }
    {
        DiskState {
            blocks,
            deleted: false,
            newest: BTreeMap::new(alloc),
        }
    }

    pub fn newest(&self, block: u64) -> Option<usize>
        ensures { result ≡ get nat_cmp self.now.newest block }
    {
        self.newest.get(&block).copied()
    }

    /// A live disk with the same blocks.
    pub fn copy(&self) -> Result<Self, NoMemory>
        ensures blocks { IfOk result (λ copy. copy.blocks ≡ self.now.blocks) }
        ensures live { IfOk result (λ copy. copy.deleted ≡ false) }
        ensures same { IfOk result (λ copy. copy.newest.entries ≡ self.now.newest.entries) }
    {
        Ok(DiskState {
            blocks: self.blocks,
            deleted: false,
            newest: self.newest.clone()?,
        })
    }
}

/// Whether the disk is there and has the block.
pub fn has_block(disks: &Disks, disk: u32, block: u64) -> bool
    ensures { result ≡ has_block_in (get nat_cmp disks.now disk) block }
{
    match disks.get(&disk) {
        Some(state) => block < state.blocks,
        None => false,
    }
}

/// The place of the newest write of a block, if it has one.
pub fn newest(disks: &Disks, disk: u32, block: u64) -> Option<usize>
    ensures { result ≡ option_and_then (λ state. get nat_cmp state.newest block) (get nat_cmp disks.now disk) }
{
    match disks.get(&disk) {
        Some(state) => state.newest(block),
        None => None,
    }
}

/// Deletes a live disk, and says whether it was one.
pub fn delete(disks: &mut Disks, disk: u32) -> bool
    ensures live { result ≡ option_map_or (λ state. not state.deleted) (get nat_cmp disks.old disk) false }
    ensures deleted { OnTrue result (DeletesOne disks.old disks.new disk) }
{
    match disks.get_mut(&disk) {
        Some(state) => {
            let was_live = !state.deleted;
            state.deleted = true;
            was_live
        }
        None => false,
    }
}

/// Sets the newest write of a block, where the disk is there.
pub fn set_newest(disks: &mut Disks, disk: u32, block: u64, place: usize) -> Result<(), NoMemory>
    requires { IsSome (get nat_cmp disks.old disk) }
    ensures { OnOk result (WritesOne (get nat_cmp disks.old disk) disks.old disks.new disk block place) }
{
    if let Some(state) = disks.get_mut(&disk) {
        state.newest.insert(block, place)?;
    }
    Ok(())
}
