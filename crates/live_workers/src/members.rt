//! What worker 256 keeps.

ghost use Rattle.std.specs.Prelude.{◌≡◌, [], ◌∷◌, ◌++◌, All, OnOk};
ghost use Rattle.live_workers.specs.OtherSteps.{IsOther};

use crate::controls::Control;
use live_cells::Step;
use object_id::NoMemory;
use std::alloc::Global;
use std::collections::VecDeque;
use std::marker::Model;

/// The steps at which no node stepped, as they were made. Contracts see them as a list.
#[derive(Drop)]
pub struct Others {
    steps: Vec<Step>,
}

impl Model for Others {
    ghost use Rattle.std.specs.Prelude.{List, All};
    ghost use Rattle.std.specs.Coded.{codes};
    ghost use Rattle.live_cells.specs.declared.step.Step.{Step};
    ghost use Rattle.live_workers.specs.OtherSteps.{IsOther};

    ghost Value = { List Step };

    ghost view = { λ others. others.steps.items };

    ghost invariant = { λ others. All IsOther others.steps.items };
}

impl Others {
    /// No step yet. Takes no memory.
    pub(crate) fn new(alloc: Global) -> Others
        ensures { result ≡ [] }
    {
        Others {
            steps: Vec::new(alloc),
        }
    }

    /// Makes room for a step.
    pub(crate) fn reserve(&mut self) -> Result<(), NoMemory>
        ensures { self.new ≡ self.old }
    {
        self.steps.reserve(1)?;
        Ok(())
    }

    /// A step more.
    #[tactic(auto, using(crate::proofs::OtherStepLemmas::other_more))]
    pub(crate) fn push(&mut self, step: Step) -> Result<(), NoMemory>
        requires { IsOther step }
        ensures { OnOk result (self.new ≡ self.old ++ step ∷ []) }
    {
        self.steps.push(step)?;
        Ok(())
    }

    /// The steps. Takes no memory.
    pub(crate) fn as_slice(&self) -> &[Step]
        ensures value { result.now ≡ self.now }
        ensures others { All IsOther result.now }
    {
        self.steps.as_slice()
    }

    /// The steps. Costs nothing.
    pub fn into_vec(self) -> Vec<Step>
        ensures value { result.items ≡ self }
        ensures others { All IsOther result.items }
    {
        let Others { steps } = self;
        steps
    }
}

/// The controls that aren't taken, and the steps at which no node stepped.
#[derive(Drop)]
pub(crate) struct Members {
    pub controls: VecDeque<Control>,
    pub others: Others,
}

impl Members {
    pub(crate) fn new(alloc: Global) -> Members {
        Members {
            controls: VecDeque::new(alloc),
            others: Others::new(alloc),
        }
    }
}
