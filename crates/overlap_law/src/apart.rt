//! Laws of what an event tells reads beside the writes that it ends.
ghost use Rattle.std.specs.Prelude.{◌≡◌, ◌≢◌, ℕ, false, Contains, List, Some};
ghost use Rattle.cluster_script.specs.declared.statement.Statement.{Statement};
ghost use Rattle.peer_proto.specs.declared.guest.GuestRsp.{GuestRsp};
ghost use Rattle.sheep_node.specs.StepState.{StepState};
ghost use Rattle.overlap_law.specs.ApartTold.{IsApartFromTold};
ghost use Rattle.overlap_law.specs.MomentChanges.{RunsAreInRange};
ghost use Rattle.overlap_law.specs.Past.{MomentWithPast, run_with_past};
ghost use Rattle.overlap_law.specs.PastWords.{is_refusal};
ghost use Rattle.overlap_law.specs.StepMoments.{SteppingNode, IsStepping, StepsByChanges, IsWithinStep, moment_in_step};
ghost use Rattle.sheep_world.specs.RunsWithAsks.{Move};

/// In each run in range, in the middle of whatever step of an event: a request to which the step's next change replies, and which it
/// doesn't refuse, has no item in a block that was told since the event began. For a write ends by the message alone that the step is told
/// of, so it has gone on since the step began; the reads to which the step has replied began meanwhile, as they came to holes alone, which
/// no read of the write's session does beside it where they have a block in common; and a check that came to the write of what it read goes
/// on.
pub fn what_an_event_told_is_apart_from_done_writes()
    ensures { (script : List Statement) (moves : List Move) (start : MomentWithPast) (stepping : SteppingNode) (so_far next : StepState)
        (reply : ℕ × GuestRsp) → RunsAreInRange script → run_with_past script moves ≡ Some start → IsStepping script start.world stepping
        → StepsByChanges stepping.cause → IsWithinStep stepping so_far next → Contains next.outputs.replies reply
        → ((one : ℕ × GuestRsp) → Contains so_far.outputs.replies one → one.0 ≢ reply.0) → is_refusal reply.1 ≡ false
        → IsApartFromTold start (moment_in_step script stepping start so_far) reply.0 }
{}
