ghost use Rattle.std.specs.Prelude.{◌≡◌};
ghost use Rattle.vdi_directory.specs.Decisions.{nothing, silent_outcome, grant_outcome, refusal_outcome};

use crate::effect::Effect;
use object_id::{Cause, Vid};

/// What is decided on an entry at its place in the log.
#[derive(Clone, Copy, Debug, PartialEq, Eq)]
pub enum Decision {
    /// The entry asks for no disk, or for nothing that can be done.
    None,
    Granted { vid: Vid },
    Refused(Cause),
}

/// A decision, and what it changes.
#[derive(Debug, Drop)]
pub struct Outcome {
    pub decision: Decision,
    pub effect: Effect,
}

impl Outcome {
    pub(crate) fn nothing() -> Outcome
        ensures { result ≡ nothing }
    {
        Outcome {
            decision: Decision::None,
            effect: Effect::Nothing,
        }
    }

    pub(crate) fn silent(effect: Effect) -> Outcome
        ensures { result ≡ silent_outcome effect }
    {
        Outcome {
            decision: Decision::None,
            effect,
        }
    }

    pub(crate) fn granted(vid: Vid, effect: Effect) -> Outcome
        ensures { result ≡ grant_outcome vid effect }
    {
        Outcome {
            decision: Decision::Granted { vid },
            effect,
        }
    }

    pub(crate) fn refused(cause: Cause) -> Outcome
        ensures { result ≡ refusal_outcome cause }
    {
        Outcome {
            decision: Decision::Refused(cause),
            effect: Effect::Nothing,
        }
    }
}
