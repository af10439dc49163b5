//! What a live cluster kept, and the run into which it merges.

ghost use Rattle.std.specs.Prelude.{◌≡◌, ◌<◌, ◌++◌, ℕ, false, [], ◌∷◌, map, Err, IfOk, IfSome, OnOk, All};
ghost use Rattle.std.specs.FinMap as tree;
ghost use Rattle.sheep_world.specs.Run.{IsKept, IsWholeRun};
ghost use Rattle.schedule.specs.Merged.{all_steps, IsByStamp, IsMergeOf};
ghost use Rattle.live_merge.specs.declared.fault.MergeFault.TheVariants as faults;
ghost use Rattle.live_merge.specs.Steps.{kept_step};
ghost use Rattle.live_workers.specs.OtherSteps.{IsOther};
ghost use Rattle.live_run.specs.KeptSteps.{cell_entry, steps_in, nothing_kept, with_cell, with_other, Clashes};

use cluster_script::Script;
use live_cells::{NodeCell, Step};
use live_merge::{MergeFault, merge_all, whole_merge};
use live_workers::add_copies;
use object_id::NoMemory;
use sheep_world::Run;
use std::alloc::Global;
use std::marker::Model;

/// The cells of the nodes, by ascending number, at most one a node, and the steps at which no node stepped, as they were made. No cell is
/// spent, and each of the other steps is above every stamp that was brought to it. Contracts see the record `Kept` of `schedule`.
#[derive(Drop)]
pub struct Kept {
    cells: Vec<NodeCell>,
    others: Vec<Step>,
}

impl Model for Kept {
    ghost use Rattle.std.specs.Prelude.{List};
    ghost use Rattle.std.specs.Coded.{codes, coded_ℕ};
    ghost use Rattle.std.specs.FinMap as tree;
    ghost use Rattle.std.specs.Ordering.{nat_cmp};
    ghost use Rattle.schedule.specs.Merged.{Kept as TheKept, KeptStep};
    ghost use Rattle.live_run.specs.KeptSteps.{kept_steps_of, IsWellKept};

    ghost Value = { TheKept };

    ghost coded = { Prim.hlevel (codes, tree.code {X = List KeptStep} {R = nat_cmp} coded_ℕ (Prim.hlevel codes)) };

    ghost view = { λ kept. kept_steps_of kept.cells.items kept.others.items };

    ghost invariant = { λ kept. IsWellKept kept.cells.items kept.others.items };
}

/// Copies of the steps of these cells, one cell behind the other.
fn steps_of_cells(alloc: Global, cells: &[NodeCell]) -> Result<Vec<Step>, NoMemory>
    requires { All (λ cell. cell.spent ≡ false) cells.now }
    ensures { IfOk result (λ steps. steps.items ≡ steps_in cells.now) }
{
    let mut steps = Vec::new(alloc);
    for cell in cells {
        add_copies(alloc, &mut steps, cell.steps())?;
    }
    Ok(steps)
}

impl Kept {
    /// Nothing is kept yet. Takes no memory.
    pub fn new(alloc: Global) -> Kept
        ensures { result ≡ nothing_kept }
    {
        Kept {
            cells: Vec::new(alloc),
            others: Vec::new(alloc),
        }
    }

    /// The cell of a node, whose number is above those of the cells before it.
    #[tactic(auto, using(crate::proofs::KeptLemmas::kept_more))]
    pub fn add_cell(&mut self, cell: NodeCell) -> Result<(), NoMemory>
        requires live { cell.spent ≡ false }
        requires later { All (λ (number : ℕ). number < cell.node.me.0) (tree.keys self.old.cells) }
        ensures { OnOk result (self.new ≡ with_cell cell self.old) }
    {
        self.cells.push(cell)?;
        Ok(())
    }

    /// A step at which no node stepped.
    #[tactic(auto, using(crate::proofs::KeptLemmas::others_more, crate::proofs::KeptLemmas::kept_other))]
    pub fn add_other(&mut self, step: Step) -> Result<(), NoMemory>
        requires { IsOther step }
        ensures { OnOk result (self.new ≡ with_other step self.old) }
    {
        self.others.push(step)?;
        Ok(())
    }

    /// The cells, by ascending number of their nodes. Takes no memory.
    pub fn cells(&self) -> &[NodeCell]
        ensures steps { map cell_entry result.now ≡ tree.entries self.now.cells }
        ensures live { All (λ cell. cell.spent ≡ false) result.now }
    {
        self.cells.as_slice()
    }

    /// The steps at which no node stepped, as they were made. Takes no memory.
    pub fn others(&self) -> &[Step]
        ensures steps { map kept_step result.now ≡ self.now.others }
        ensures others { All IsOther result.now }
    {
        self.others.as_slice()
    }

    /// Copies of all steps: cell by cell, and then the others.
    fn all_steps(&self, alloc: Global) -> Result<Vec<Step>, NoMemory>
        ensures { IfOk result (λ steps. map kept_step steps.items ≡ all_steps self.now) }
    {
        let mut steps = steps_of_cells(alloc, self.cells.as_slice())?;
        add_copies(alloc, &mut steps, self.others.as_slice())?;
        Ok(steps)
    }

    /// The steps by stamp; those of equal stamps stay as they were.
    fn by_stamp(&self, alloc: Global) -> Result<Vec<Step>, NoMemory>
        ensures { IfOk result (λ steps. IsByStamp self.now (map kept_step steps.items)) }
    {
        let mut steps = self.all_steps(alloc)?;
        steps.sort_by_key(|step| step.stamp)?;
        Ok(steps)
    }

    /// The run into which what is kept merges, from the opening world of its script, with its history; or the place of the first step, by
    /// stamp, that clashes with those before it. Costs copies of all steps, and making them.
    pub fn merged(&self, alloc: Global, script: &Script) -> Result<Run, MergeFault>
        ensures merge { IfOk result (λ run. IsMergeOf script.now self.now run.events) }
        ensures history { IfOk result (λ run. IsKept script.now run) }
        ensures clash { (place : ℕ) → result ≡ Err (faults.Clash place)
            → Clashes script.now self.now place }
    {
        let steps = self.by_stamp(alloc)?;
        merge_all(alloc, script, steps.as_slice())
    }

    /// The run into which what is kept merges, if every phase is ended behind it; none if the steps clash, or a phase isn't ended. Costs
    /// what merging them costs.
    pub fn whole_run(&self, alloc: Global, script: &Script) -> Result<Option<Run>, NoMemory>
        ensures merge { IfOk result (λ found. IfSome found (λ run. IsMergeOf script.now self.now run.events)) }
        ensures whole { IfOk result (λ found. IfSome found (λ run. IsWholeRun script.now run.events)) }
        ensures history { IfOk result (λ found. IfSome found (λ run. IsKept script.now run)) }
    {
        let steps = self.by_stamp(alloc)?;
        whole_merge(alloc, script, steps.as_slice())
    }
}
