//! What a cell keeps, as laws: each is the contract of a call that changes nothing.
ghost use Rattle.std.specs.Prelude.{◌≡◌, ◌<◌, ℕ, false, List, [], ◌∷◌, All, Some};
ghost use Rattle.object_id.specs.declared.entry.Entry.{Entry};
ghost use Rattle.object_id.specs.declared.limits.TheConstants.{EPOCH_MAX};
ghost use Rattle.epoch_log.specs.Epochs.{epoch_of};
ghost use Rattle.epoch_log.specs.Appending.{MayAppend};
ghost use Rattle.sheep_node.specs.declared.input.Input.{Input};
ghost use Rattle.sheep_node.specs.declared.input.Input.TheVariants as inputs;
ghost use Rattle.sheep_node.specs.State.{Node};
ghost use Rattle.sheep_node.specs.Step.{node_step};
ghost use Rattle.live_cells.specs.declared.step.Step.{Step};
ghost use Rattle.live_cells.specs.Opening.{IsOpening};
ghost use Rattle.live_cells.specs.History.{Replays};
ghost use Rattle.live_cells.specs.Cell.{opening_of};

use crate::node_cell::NodeCell;
use sheep_node::outputs_are_as_the_input;

/// A node behind its lock is the node of one thread: replaying its steps' inputs from its opening node gives the node and each step's
/// outputs. The opening node had made no step, or one on the log's first entry.
pub fn a_locked_node_replays_its_history(cell: &NodeCell)
    requires { cell.now.spent ≡ false }
    ensures opening { IsOpening (opening_of cell.now) }
    ensures history { Replays (opening_of cell.now) cell.now.steps cell.now.node }
{
    let _steps = cell.steps();
}

/// What replaying says of the first of some steps: it had its input, gave what the node's step on that gives, has a stamp above each that
/// was brought to it, and the later steps replay from the node behind it.
pub fn a_step_gives_what_its_node_would()
    ensures { (before after : Node) (step : Step) (later : List Step) (input : Input)
        → Replays before (step ∷ later) after → step.input ≡ Some input
        → (step.outputs ≡ (node_step input before).outputs) × All (λ stamp. stamp < step.stamp) step.used
        × Replays (node_step input before).node later after }
{}

/// What the node of a cell puts may stand in each log that has room for it: it is no entry that opens a log or begins an epoch, and what it
/// names may be named.
pub fn what_a_node_puts_may_stand_in_the_log(cell: &NodeCell)
    requires { cell.now.spent ≡ false }
    ensures { (log : List Entry) (entry : Entry) → (node_step inputs.Put cell.now.node).outputs.put ≡ Some entry
        → epoch_of log < EPOCH_MAX → MayAppend log entry }
{
    let _node = cell.node();
    outputs_are_as_the_input();
}
