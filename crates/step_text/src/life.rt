//! The lives of nodes, line by line.

ghost use Rattle.std.specs.Prelude.{◌≡◌, false, OnOk, IfErr};
ghost use Rattle.sheep_node.specs.State.{initial_node};
ghost use Rattle.step_text.specs.declared.fault.Fault.TheVariants as faults;
ghost use Rattle.step_text.specs.Lives.{HasMadeStep, HasGoneOn, HasToldNothing};

use crate::fault::Fault;
use crate::input_words::read_input;
use crate::output_words::outputs_line;
use crate::words::Words;
use object_id::NodeId;
use sheep_node::{Input, Node, Outputs, conditions_are_tests};
use std::alloc::Global;

/// The node that opened last. Before the first one opens it is a node that has read nothing.
#[derive(Drop)]
pub struct Life {
    alloc: Global,
    node: Node,
}

impl Life {
    /// No node has opened yet: there is node 0, with one attempt for each work.
    pub fn new(alloc: Global) -> Life
        ensures { result.node ≡ record { spent = false; node = initial_node (record { 0 = 0 }) 1 } }
    {
        Life {
            alloc,
            node: Node::new(alloc, NodeId(0), 1),
        }
    }

    /// The node that opened last.
    pub fn node(&self) -> &Node
        ensures { result.now ≡ self.now.node }
    {
        &self.node
    }

    /// What a line of the list gives: nothing if a node opens, and otherwise the outputs of the node's step. A line that is refused
    /// for its words, or because the node may not make the step, leaves the node as it is; without memory the node may be spent, or
    /// have made a step that can't be told.
    pub fn step(&mut self, line: &str) -> Result<String, Fault>
        ensures ok { OnOk result (HasGoneOn self.old.node self.new.node) }
        ensures err { IfErr result (λ fault. HasToldNothing fault self.old.node self.new.node) }
    {
        let mut words = Words::new(self.alloc, line);
        match words.word()? {
            "new" => {
                let me = words.node()?;
                self.node = Node::new(self.alloc, me, words.number()?);
                Ok(String::new(self.alloc))
            }
            kind => {
                let input = read_input(kind, &mut words)?;
                outputs_of(self.alloc, &mut self.node, input)
            }
        }
    }
}

fn outputs_of(alloc: Global, node: &mut Node, input: Input) -> Result<String, Fault>
    ensures ok { OnOk result (HasMadeStep node.old node.new) }
    ensures err { IfErr result (λ fault. HasToldNothing fault node.old node.new) }
{
    if node.spent() {
        return Err(Fault::Spent);
    }
    if !node.may(&input) {
        return Err(Fault::MayNot);
    }
    // The test is the condition of a step.
    conditions_are_tests();
    let outputs = node.step(input)?;
    line_of(alloc, outputs)
}

/// The line that a step's outputs give.
fn line_of(alloc: Global, outputs: Outputs) -> Result<String, Fault>
    ensures { IfErr result (λ fault. fault ≡ faults.NoMemory) }
{
    Ok(outputs_line(alloc, &outputs)?)
}
