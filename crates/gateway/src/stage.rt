ghost use Rattle.std.specs.Prelude.{◌≡◌};
ghost use Rattle.gateway.specs.Stage.{work_stage, NumbersDifferAt};
ghost use Rattle.gateway.specs.Kept.{stage_with_status};

use crate::message::Status;
use crate::messages::Messages;
use object_id::Epoch;

/// Where a work stands.
#[derive(Debug, Drop)]
pub(crate) enum Stage {
    /// Its last attempt is open.
    Open { epoch: Epoch, messages: Messages },
    /// Its last attempt, if it had one, has ended.
    Ended,
    /// Its next attempt couldn't begin in this epoch, for want of members.
    WaitsForMembers(Epoch),
}

/// What the message of a number came to is known.
pub(crate) fn set_status(stage: &mut Stage, number: u32, status: Status)
    requires { NumbersDifferAt (work_stage stage.old) }
    ensures { work_stage stage.new ≡ stage_with_status number status (work_stage stage.old) }
{
    if let Stage::Open { messages, .. } = stage {
        messages.set_status(number, status);
    }
}
