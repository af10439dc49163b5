//! Laws of what sessions read: a read is on an id that its session may write, or on a snapshot.

ghost use Rattle.std.specs.Prelude.{◌≡◌, List, Some};
ghost use Rattle.cluster_script.specs.declared.statement.Statement.{Statement};
ghost use Rattle.overlap_law.specs.Groups.{WritersAreKept};
ghost use Rattle.overlap_law.specs.LastReads.{SnapshotsAreTaken, ReadsAreKnown};
ghost use Rattle.overlap_law.specs.MomentChanges.{MomentTrail, RunsAreInRange};
ghost use Rattle.overlap_law.specs.Past.{MomentWithPast, run_with_past};
ghost use Rattle.sheep_world.specs.RunsWithAsks.{Move};

/// In each run in range each entry of a snapshot that the log has made its disk one: the node that put it had the disk's lock, and the
/// reservation of the id that took the disk's place. So it is at each moment on the way of an event, and at its end.
pub fn each_snapshot_is_taken()
    ensures { (script : List Statement) (moves : List Move) (start moment : MomentWithPast) → RunsAreInRange script
        → run_with_past script moves ≡ Some start → MomentTrail script start moment → SnapshotsAreTaken moment.world.log }
{}

/// In each run in range each open read of a session is on an id that the session may write, or on a disk that became a snapshot by what
/// the node has read. So it is at each moment on the way of an event, and at its end.
pub fn reads_are_known()
    ensures { (script : List Statement) (moves : List Move) (start moment : MomentWithPast) → RunsAreInRange script
        → run_with_past script moves ≡ Some start → MomentTrail script start moment
        → ReadsAreKnown moment.world.log moment.world.hosts }
{}

/// In each run in range the group of the writers holds: only the writer of an id has creates and writes open on it, attempts follow on each
/// other by their writers, works are apart, open disks are held, and reads come behind all attempts.
pub fn the_writers_are_kept()
    ensures { (script : List Statement) (moves : List Move) (moment : MomentWithPast) → RunsAreInRange script
        → run_with_past script moves ≡ Some moment
        → WritersAreKept moment.world.log moment.world.hosts moment.world.wire moment.past.attempts }
{}
