ghost use Rattle.std.specs.Prelude.{◌≡◌, IfOk};

use object_id::{Items, NoMemory};
use sheep_node::{Event, Input, Outputs};
use std::alloc::Global;

/// Stamps, in the order in which they were brought.
pub type StampList = Items<u64>;

/// An event that was made, with its stamp. A node's step has its input and what the node gave; an event at which no node steps has no input
/// and gives nothing.
#[derive(Debug)]
pub struct Step {
    pub stamp: u64,
    pub event: Event,
    pub input: Option<Input>,
    pub outputs: Outputs,
    /// The stamps that were brought to it.
    pub used: StampList,
}

/// Written out, so that letting a step go is one call wherever it is done.
impl Drop for Step {
    fn drop(self) {
        let Step {
            stamp: _,
            event: _,
            input,
            outputs,
            used,
        } = self;
        drop(input);
        drop(outputs);
        drop(used);
    }
}

impl Step {
    pub fn copy(&self, alloc: Global) -> Result<Step, NoMemory>
        ensures { IfOk result (λ copy. copy ≡ self.now) }
    {
        let input = match &self.input {
            Some(input) => Some(input.copy(alloc)?),
            None => None,
        };
        let used = StampList::from_vec(Vec::from_slice(alloc, self.used.as_slice())?);
        Ok(Step {
            stamp: self.stamp,
            event: self.event,
            input,
            outputs: self.outputs.copy(alloc)?,
            used,
        })
    }
}
