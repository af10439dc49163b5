//! Laws of the conjunct that each row has what it owes: what each change of a moment keeps of it.
ghost use Rattle.std.specs.Prelude.{◌≡◌, ℕ, Bool, true, false, List, Some};
ghost use Rattle.cluster_script.specs.declared.statement.Statement.{Statement};
ghost use Rattle.message_wire.specs.declared.name.MessageName.{MessageName};
ghost use Rattle.object_id.specs.declared.node.NodeId.{NodeId};
ghost use Rattle.peer_proto.specs.declared.ask.PeerReq.{PeerReq};
ghost use Rattle.sheep_node.specs.declared.event.Event.{Event};
ghost use Rattle.sheep_world.specs.Began.{Began, MakesMove};
ghost use Rattle.sheep_world.specs.EventKinds.{EventKind};
ghost use Rattle.sheep_world.specs.NodeCauses.{RequestComes};
ghost use Rattle.sheep_world.specs.Step.{EventOutcome};
ghost use Rattle.sheep_world.specs.World.{Host};
ghost use Rattle.sheep_world.specs.RunsWithAsks.{Move};
ghost use Rattle.vdi_directory.specs.Decisions.{log_effects};
ghost use Rattle.overlap_law.specs.EventsElsewhere.{IsElsewhere};
ghost use Rattle.overlap_law.specs.Holders.{targets_by, is_dead_by_log};
ghost use Rattle.overlap_law.specs.MomentChanges.{MomentChange, MomentTrail, RunsAreInRange};
ghost use Rattle.overlap_law.specs.Past.{MomentWithPast, moment_after, run_with_past};
ghost use Rattle.overlap_law.specs.Rows.{RecoveredRowsAreKept, AttemptsAreCarried};
ghost use Rattle.overlap_law.specs.Searches.{PassedLevelsLackRows, ToldRowsAreSince};
ghost use Rattle.overlap_law.specs.Since.{RowsAreSince};
ghost use Rattle.overlap_law.specs.StepMoments.{SteppingNode, IsStepping, last_in_step, moment_in_step};
ghost use Rattle.overlap_law.specs.WorksOfAttempts.{AttemptsAreOfWorks};

/// Each attempt is of a work that there may be: its policy is one, its piece ends inside the object, and both go by whole parts where rows
/// are strips. For it is of a work that its node had or asked for. Each change of a moment keeps that, and so it is in each run in range,
/// at each moment on the way of an event too.
pub fn attempts_are_of_works()
    ensures change { (script : List Statement) (start before after : MomentWithPast) → RunsAreInRange script → Began script start.world
        → MomentChange script start before after → AttemptsAreOfWorks before.past.attempts → AttemptsAreOfWorks after.past.attempts }
    ensures run { (script : List Statement) (moves : List Move) (start moment : MomentWithPast) → RunsAreInRange script
        → run_with_past script moves ≡ Some start → MomentTrail script start moment → AttemptsAreOfWorks moment.past.attempts }
{}

/// In each run in range an event at which no node steps, or one comes back, keeps that each row of a good object has what it owes,
/// whichever objects are called good: who is lost or came to an epoch is so still, so what is doomed stays so; and a node that comes back
/// ends its open rows where it was lost, so they owe as much as before.
pub fn rows_have_what_they_owe_as_no_node_steps()
    ensures { (script : List Statement) (moves : List Move) (start : MomentWithPast) (event : Event) (made : EventOutcome)
        (good : ℕ → Bool) → RunsAreInRange script → run_with_past script moves ≡ Some start → MakesMove script event start.world made
        → (kind : EventKind script event start.world made) → IsElsewhere script event start.world made kind
        → RowsAreSince (log_effects start.world.log) good start.world.hosts start.past.attempts
        → RowsAreSince (log_effects (moment_after script event start made).world.log) good
        (moment_after script event start made).world.hosts (moment_after script event start made).past.attempts }
{}

/// In each run in range a node that answers a request keeps that each row of a good object has what it owes, whichever objects are called
/// good: of what is served it makes a row with the bytes of the create at each unit, or writes over its open row those of the write; and
/// each attempt that such a row owes stands no later, as what is in flight is of a later epoch than all before it.
pub fn rows_have_what_they_owe_as_requests_are_answered()
    ensures { (script : List Statement) (moves : List Move) (start : MomentWithPast) (n : ℕ) (host : Host) (name : MessageName)
        (to : NodeId) (request : PeerReq) (stepping : SteppingNode) (good : ℕ → Bool) → RunsAreInRange script
        → run_with_past script moves ≡ Some start → stepping ≡ record { n = n; host = host; cause = RequestComes name to request }
        → IsStepping script start.world stepping
        → RowsAreSince (log_effects start.world.log) good start.world.hosts start.past.attempts
        → RowsAreSince (log_effects (moment_in_step script stepping start (last_in_step stepping)).world.log) good
        (moment_in_step script stepping start (last_in_step stepping)).world.hosts
        (moment_in_step script stepping start (last_in_step stepping)).past.attempts }
{}

/// Of each run in range, each change of a moment on the way of an event keeps that each row of a good object has what it owes; whichever
/// objects are good, if their ids aren't dead, and if before the change attempts are carried, recovered rows are kept, the levels that
/// searches passed lack rows, and what recoveries were told has what it owes. So what a recovery finds has it too: an attempt from before
/// its epoch that isn't doomed was made, as all came to the epoch, and so is of no later epoch than the level, since no search has passed
/// it; each row of the level owes it, and has it or its strip; and of strips as many as a read needs give each other one. Of the recovery's
/// own epoch nothing was served of what is pending.
pub fn rows_have_what_they_owe_over_each_change()
    ensures { (script : List Statement) (moves : List Move) (start before after : MomentWithPast) → RunsAreInRange script
        → run_with_past script moves ≡ Some start → MomentTrail script start before → MomentChange script start before after
        → (good : ℕ → Bool) → ((oid : ℕ) → good oid ≡ true → is_dead_by_log before.world.log oid ≡ false)
        → RecoveredRowsAreKept (targets_by before.world.log) before.world.log (log_effects before.world.log) good before.world.hosts
        before.past.attempts
        → AttemptsAreCarried (targets_by before.world.log) before.world.log (log_effects before.world.log) good before.world.hosts
        before.past.attempts
        → PassedLevelsLackRows (targets_by before.world.log) before.world.log (log_effects before.world.log) good before.world.hosts
        → ToldRowsAreSince (log_effects before.world.log) good before.world.hosts before.world.wire before.past.attempts
        → RowsAreSince (log_effects before.world.log) good before.world.hosts before.past.attempts
        → RowsAreSince (log_effects after.world.log) good after.world.hosts after.past.attempts }
{}
