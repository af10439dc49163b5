//! Laws of what checks have written: each value is being written, or the last attempt on its object wrote it, so nothing else is to come of
//! its blocks.
ghost use Rattle.std.specs.Prelude.{◌≡◌, ◌≢◌, ℕ, List, Some};
ghost use Rattle.std.specs.FinMap as tree;
ghost use Rattle.cluster_script.specs.declared.statement.Statement.{Statement};
ghost use Rattle.disk_check.specs.Check.{Check, Answered};
ghost use Rattle.gateway.specs.State.{Work};
ghost use Rattle.sheep_node.specs.declared.course.Course.TheVariants.{Checking};
ghost use Rattle.sheep_node.specs.declared.course.Request.{Request};
ghost use Rattle.sheep_world.specs.World.{Host};
ghost use Rattle.sheep_world.specs.RunsWithAsks.{Move};
ghost use Rattle.overlap_law.specs.AloneChecksWritten.{ChecksHaveWritten, NoneComes};
ghost use Rattle.overlap_law.specs.MomentChanges.{MomentTrail, RunsAreInRange};
ghost use Rattle.overlap_law.specs.Past.{MomentWithPast, run_with_past};

/// In each run in range, at the end of every event: each block of which a check has begun a write is one of an own object of its disk, and
/// has the bytes of a value that is being written over the object, or that the last attempt on it wrote.
pub fn what_checks_have_written_stays_alone()
    ensures { (script : List Statement) (moves : List Move) (moment : MomentWithPast) → RunsAreInRange script
        → run_with_past script moves ≡ Some moment
        → ChecksHaveWritten NoneComes moment.past.history moment.world.hosts moment.past.attempts }
{}

/// In each run in range, at each moment on the way of an event: a check that hasn't told what it found has a work at its node's gateway.
/// For the work begins there at once, since it is on a data object, and stays until it is done.
pub fn checks_have_their_works()
    ensures { (script : List Statement) (moves : List Move) (start moment : MomentWithPast) → RunsAreInRange script
        → run_with_past script moves ≡ Some start → MomentTrail script start moment → (n : ℕ) (host : Host)
        → tree.get moment.world.hosts n ≡ Some host → (req : ℕ) (request : Request) (check : Check)
        → tree.get host.node.requests req ≡ Some request → request.course ≡ Checking check → check.stage ≢ Answered
        → (work : Work) × (tree.get host.node.gateway.works req ≡ Some work) }
{}
