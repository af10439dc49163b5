//! A step that is still to be made, with room for all that is kept of it.

ghost use Rattle.std.specs.Prelude.{◌≡◌, ◌<◌, false, [], ◌∷◌, ◌++◌, All, IfOk, OnOk};
ghost use Rattle.sheep_node.specs.Step.{node_step};
ghost use Rattle.sheep_node.specs.May.{May};
ghost use Rattle.live_cells.specs.Opening.{opening_node};
ghost use Rattle.live_cells.specs.History.{made_step};
ghost use Rattle.live_cells.specs.Cell.{IsCell};

use crate::carry::Carry;
use crate::step::{StampList, Step};
use object_id::NoMemory;
use sheep_node::{Event, Input, Node};
use stamp_clock::ClockName;
use std::alloc::Global;

/// What a step is made of. Its input is there twice: the node takes one, and the cell keeps the other.
pub struct Draft {
    pub event: Event,
    pub input: Input,
    pub kept: Input,
    pub used: StampList,
}

/// Written out, so that letting a draft go is one call wherever it is done.
impl Drop for Draft {
    fn drop(self) {
        let Draft {
            event: _,
            input,
            kept,
            used,
        } = self;
        drop(input);
        drop(kept);
        drop(used);
    }
}

/// The stamps that are brought.
fn stamps_of<N: ClockName>(alloc: Global, brought: &[Carry<N>]) -> Result<StampList, NoMemory>
    ensures { IfOk result (λ stamps. stamps ≡ brought.now) }
{
    let mut stamps = Vec::with_capacity(alloc, brought.len())?;
    for carry in brought {
        stamps.push(carry.stamp())?;
    }
    Ok(StampList::from_vec(stamps))
}

/// The copy of an input, if there is room for one step more.
fn kept_input(steps: &mut Vec<Step>, input: &Input) -> Result<Input, NoMemory>
    ensures steps { steps.new.items ≡ steps.old.items }
    ensures kept { IfOk result (λ kept. kept ≡ input.now) }
{
    let alloc = *steps.allocator();
    steps.reserve(1)?;
    input.copy(alloc)
}

/// Makes room for a step, and gives what it is made of.
pub fn draft_of<N: ClockName>(
    steps: &mut Vec<Step>,
    event: Event,
    input: Input,
    brought: &[Carry<N>],
) -> Result<Draft, NoMemory>
    ensures steps { steps.new.items ≡ steps.old.items }
    ensures draft { IfOk result (λ draft.
        draft ≡ record { event = event; input = input; kept = input; used = brought.now }) }
{
    let used = stamps_of(*steps.allocator(), brought)?;
    match kept_input(steps, &input) {
        Ok(kept) => Ok(Draft {
            event,
            input,
            kept,
            used,
        }),
        Err(NoMemory) => Err(NoMemory),
    }
}

impl Draft {
    /// Makes the step of a node, with its stamp.
    fn step_of(self, node: &mut Node, stamp: u64) -> Result<Step, NoMemory>
        requires live { node.old.spent ≡ false }
        requires may { May self.input node.old.node }
        requires kept { self.kept ≡ self.input }
        ensures node { OnOk result (node.new ≡ record { spent = false; node = (node_step self.input node.old.node).node }) }
        ensures step { IfOk result (λ step. step ≡ made_step stamp self.event self.input self.used node.old.node) }
    {
        let Draft {
            event,
            input,
            kept,
            used,
        } = self;
        let outputs = node.step(input)?;
        Ok(Step {
            stamp,
            event,
            input: Some(kept),
            outputs,
            used,
        })
    }
}

/// Makes the step of a draft, and keeps it behind the others: a cell stays one. `has_read` is for the contract alone.
pub fn add_step(
    has_read: bool,
    node: &mut Node,
    steps: &mut Vec<Step>,
    stamp: u64,
    draft: Draft,
) -> Result<(), NoMemory>
    requires live { node.old.spent ≡ false }
    requires may { May draft.input node.old.node }
    requires kept { draft.kept ≡ draft.input }
    requires above { All (λ used. used < stamp) draft.used }
    requires cell { IsCell has_read node.old.node steps.old.items }
    ensures live { OnOk result (node.new.spent ≡ false) }
    ensures node { OnOk result (node.new.node ≡ (node_step draft.input node.old.node).node) }
    ensures steps { OnOk result (steps.new.items
        ≡ steps.old.items ++ made_step stamp draft.event draft.input draft.used node.old.node ∷ []) }
    ensures cell { OnOk result (IsCell has_read node.new.node steps.new.items) }
    ensures opening { OnOk result (opening_node has_read node.new.node ≡ opening_node has_read node.old.node) }
{
    let step = draft.step_of(node, stamp)?;
    steps.push(step)?;
    Ok(())
}
