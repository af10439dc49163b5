//! Laws of reads that are open beside the writes that are done.
ghost use Rattle.std.specs.Prelude.{◌≡◌, ◌≢◌, ℕ, false, Contains, List, Some};
ghost use Rattle.cluster_script.specs.declared.statement.Statement.{Statement};
ghost use Rattle.peer_proto.specs.declared.guest.GuestRsp.{GuestRsp};
ghost use Rattle.sheep_node.specs.StepState.{StepState};
ghost use Rattle.overlap_law.specs.MomentChanges.{MomentTrail, RunsAreInRange};
ghost use Rattle.overlap_law.specs.Past.{MomentWithPast, run_with_past};
ghost use Rattle.overlap_law.specs.PastWords.{is_refusal};
ghost use Rattle.overlap_law.specs.StepMoments.{SteppingNode, IsStepping, StepsByChanges, IsWithinStep, moment_in_step};
ghost use Rattle.overlap_law.specs.UnwrittenReads.{IsApartFromOpenReads};
ghost use Rattle.sheep_world.specs.RunsWithAsks.{Move};

/// In each run in range, in the middle of whatever step of an event: a request to which the step's next change replies, and which it
/// doesn't refuse, has no item in a block that a read was told which is open behind the change. For the session that holds the disk has
/// both, where they stand in one queue, and two that may run there have no object in common; and one that is no read or write is alone.
pub fn writes_that_are_done_are_apart_from_open_reads()
    ensures { (script : List Statement) (moves : List Move) (start : MomentWithPast) (stepping : SteppingNode) (so_far next : StepState)
        (reply : ℕ × GuestRsp) → RunsAreInRange script → run_with_past script moves ≡ Some start → IsStepping script start.world stepping
        → StepsByChanges stepping.cause → IsWithinStep stepping so_far next
        → MomentTrail script start (moment_in_step script stepping start so_far) → Contains next.outputs.replies reply
        → ((one : ℕ × GuestRsp) → Contains so_far.outputs.replies one → one.0 ≢ reply.0) → is_refusal reply.1 ≡ false
        → IsApartFromOpenReads script (moment_in_step script stepping start so_far) (moment_in_step script stepping start next) reply.0 }
{}
