//! What a live cluster keeps at its end.

ghost use Rattle.std.specs.Prelude.{◌≡◌, ◌<◌, ℕ, All, IfOk};
ghost use Rattle.std.specs.FinMap as tree;
ghost use Rattle.live_run.specs.KeptSteps.{nothing_kept};

use crate::kept::Kept;
use live_workers::{Others, Shared, Slot};
use object_id::{NODES_MAX, NoMemory};
use stamp_clock::ClockName;
use std::sync::Mutex;

/// The cell of a node is kept behind those of smaller numbers, all below the least one that may come: which is the least then.
#[tactic(auto, using(crate::proofs::KeptNumbers::all_below, crate::proofs::KeptNumbers::cell_is_later, crate::proofs::KeptNumbers::kept_below))]
fn keep_cell<N: ClockName>(kept: &mut Kept, slot: Slot<N>, least: u32) -> Result<u32, NoMemory>
    requires { All (λ (number : ℕ). number < least) (tree.keys kept.old.cells) }
    ensures { IfOk result (λ next. All (λ (number : ℕ). number < next) (tree.keys kept.new.cells)) }
{
    let (number, cell) = slot.into_cell();
    // The slots stand by ascending number, and a node has a number below the limit.
    if number < least || NODES_MAX <= number {
        return Err(NoMemory);
    }
    match cell {
        Some(cell) => {
            if cell.spent() {
                return Err(NoMemory);
            }
            kept.add_cell(cell)?;
            Ok(number + 1)
        }
        None => Ok(number + 1),
    }
}

/// The cells are kept, by ascending number of their nodes.
#[tactic(auto, using(crate::proofs::KeptNumbers::none_below))]
fn keep_cells<N: ClockName>(kept: &mut Kept, slots: Vec<Mutex<Slot<N>>>) -> Result<(), NoMemory>
    requires { kept.old ≡ nothing_kept }
{
    let mut least = 0u32;
    for slot in slots {
        least = keep_cell(kept, slot.into_inner(), least)?;
    }
    Ok(())
}

/// The steps at which no node stepped are kept.
fn keep_others(kept: &mut Kept, others: Others) -> Result<(), NoMemory> {
    for step in others.into_vec() {
        kept.add_other(step)?;
    }
    Ok(())
}

/// What a cluster keeps.
pub(crate) fn kept_of<'a, N: ClockName>(shared: Shared<'a, N>) -> Result<Kept, NoMemory> {
    let mut kept = Kept::new(shared.alloc);
    let (slots, others) = shared.into_slots();
    keep_cells(&mut kept, slots)?;
    keep_others(&mut kept, others)?;
    Ok(kept)
}
