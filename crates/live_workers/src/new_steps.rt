//! The steps that a live cluster made since they were last merged.

ghost use Rattle.std.specs.Prelude.{◌≡◌, ◌+◌, ◌++◌, length, All, IfOk, OnOk};
ghost use Rattle.std.specs.List.Sorted.{IsNonDecreasingBy};
ghost use Rattle.live_cells.specs.declared.step.Step.{Step as TheStep};
ghost use Rattle.live_workers.specs.NewSteps.{nothing_merged, steps_since, IsKept};

use crate::shared::Shared;
use live_cells::{NodeCell, Step};
use object_id::{NODES_MAX, NoMemory, NodeId};
use stamp_clock::ClockName;
use std::alloc::Global;
use std::marker::Model;
use std::sync::Wait;

/// How many steps of each cell, and of the others, are merged. Contracts see the record `MergedSteps` of `specs/NewSteps.antt`.
#[derive(Drop)]
pub struct Merged {
    cells: Vec<usize>,
    others: usize,
}

impl Model for Merged {
    ghost use Rattle.live_workers.specs.NewSteps.{MergedSteps};

    ghost Value = { MergedSteps };

    ghost view = { λ merged. record { cells = merged.cells.items; others = merged.others } };
}

impl Merged {
    /// None is merged yet. Takes a number for each node that there may be.
    pub fn new(alloc: Global) -> Result<Merged, NoMemory>
        ensures { IfOk result (λ merged. merged ≡ nothing_merged) }
    {
        let mut cells = Vec::new(alloc);
        for _ in 0..NODES_MAX {
            cells.push(0usize)?;
        }
        Ok(Merged { cells, others: 0 })
    }
}

/// Copies of these steps stand behind the others. Costs the copies.
pub fn add_copies(alloc: Global, steps: &mut Vec<Step>, later: &[Step]) -> Result<(), NoMemory>
    ensures { OnOk result (steps.new.items ≡ steps.old.items ++ later.now) }
{
    for step in later {
        steps.push(step.copy(alloc)?)?;
    }
    Ok(())
}

/// Copies of a cell's steps from a place on stand behind the others: how many steps it has.
fn add_steps_from(
    alloc: Global,
    steps: &mut Vec<Step>,
    cell: &NodeCell,
    from: usize,
) -> Result<usize, NoMemory>
    requires { All IsKept steps.old.items }
    ensures kept { OnOk result (All IsKept steps.new.items) }
    ensures count { IfOk result (λ count. length steps.new.items ≡ length steps.old.items + steps_since from count) }
{
    if cell.spent() {
        return Err(NoMemory);
    }
    let all = cell.steps();
    if let Some(new) = all.get(from..) {
        add_copies(alloc, steps, new)?;
    }
    Ok(all.len())
}

impl<'a, N: ClockName> Shared<'a, N> {
    /// Copies of the steps that a node made since the last merge stand behind the others.
    fn add_steps_of<R: Wait>(
        &self,
        rt: &R,
        steps: &mut Vec<Step>,
        node: NodeId,
        merged: &mut usize,
    ) -> Result<(), NoMemory>
        requires { All IsKept steps.old.items }
        ensures kept { OnOk result (All IsKept steps.new.items) }
        ensures count { OnOk result (length steps.new.items ≡ length steps.old.items + steps_since merged.old merged.new) }
    {
        let Some(slot) = self.slot(node) else {
            return Ok(());
        };
        let slot = slot.lock(rt);
        if let Some(cell) = slot.cell.as_ref() {
            *merged = add_steps_from(self.alloc, steps, cell, *merged)?;
        }
        Ok(())
    }

    /// Copies of the steps at which no node stepped, made since the last merge, stand behind the others.
    fn add_others<R: Wait>(
        &self,
        rt: &R,
        steps: &mut Vec<Step>,
        merged: &mut usize,
    ) -> Result<(), NoMemory>
        requires { All IsKept steps.old.items }
        ensures kept { OnOk result (All IsKept steps.new.items) }
        ensures count { OnOk result (length steps.new.items ≡ length steps.old.items + steps_since merged.old merged.new) }
    {
        let members = self.members.lock(rt);
        let all = members.others.as_slice();
        if let Some(new) = all.get(*merged..) {
            add_copies(self.alloc, steps, new)?;
        }
        *merged = all.len();
        Ok(())
    }

    /// Copies of all steps made since the last merge, by stamp. Costs the copies, and putting them in order.
    pub fn new_steps<R: Wait>(&self, rt: &R, merged: &mut Merged) -> Result<Vec<Step>, NoMemory>
        // They are steps of nodes, or such at which no node stepped.
        ensures kept { IfOk result (λ steps. All IsKept steps.items) }
        ensures ascending { IfOk result (λ steps. IsNonDecreasingBy (λ (step : TheStep). step.stamp) steps.items) }
    {
        let mut steps = Vec::new(self.alloc);
        for node in 0..NODES_MAX {
            if let Some(count) = merged.cells.get_mut(node as usize) {
                self.add_steps_of(rt, &mut steps, NodeId(node), count)?;
            }
        }
        self.add_others(rt, &mut steps, &mut merged.others)?;
        steps.sort_by_key(|step| step.stamp)?;
        Ok(steps)
    }
}
