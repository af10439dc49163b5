//! Laws of what the inodes of open disks and of snapshots may come to have, and are read to have.
ghost use Rattle.std.specs.Prelude.{◌≡◌, List, Some};
ghost use Rattle.cluster_script.specs.declared.statement.Statement.{Statement};
ghost use Rattle.vdi_directory.specs.Decisions.{log_effects};
ghost use Rattle.overlap_law.specs.Groups.{TablesAreKept};
ghost use Rattle.overlap_law.specs.Holders.{is_available_disk, is_live_object};
ghost use Rattle.overlap_law.specs.MomentChanges.{MomentTrail, TrailLeft, RunsAreInRange};
ghost use Rattle.overlap_law.specs.OpenedTables.{InodesStay};
ghost use Rattle.overlap_law.specs.Past.{MomentWithPast, next_moment, run_with_past};
ghost use Rattle.overlap_law.specs.Tables.{TablesAreTheInodes, SnapshotsAreFrozen};
ghost use Rattle.overlap_law.specs.ToCome.{PublishedTablesStay, OpenInodesAreCreated};
ghost use Rattle.sheep_world.specs.RunsWithAsks.{Move};

/// In each run in range, at each moment on the way of an event: the inode that a session is to have open once it is published, in the place
/// of its disk, may come to have its table alone, as long as the session may write it. For as its creation is done nothing else is to come,
/// and nothing begins on it until it is open.
pub fn published_inodes_have_their_tables()
    ensures { (script : List Statement) (moves : List Move) (start moment : MomentWithPast) → RunsAreInRange script
        → run_with_past script moves ≡ Some start → MomentTrail script start moment
        → PublishedTablesStay (log_effects moment.world.log) moment.world.hosts moment.past.attempts }
{}

/// In each run in range, of disks that were available up to there: what the inode of an open disk may come to have is what the session's
/// table has, or the disk's own id while an entry is being written; what became a snapshot once has one entry alone at each index; and what
/// is written back gives the entries of the table. So it is at each moment on the way of an event too, of the disks that are available up
/// to the event's end.
pub fn inodes_are_as_the_tables_say()
    ensures in_run { (script : List Statement) (moves : List Move) (moment : MomentWithPast) → RunsAreInRange script
        → run_with_past script moves ≡ Some moment
        → InodesStay (log_effects moment.world.log) (is_available_disk moment.world.log moment.past.unavailable) moment.world.hosts
        moment.past.attempts }
    ensures on_the_way { (script : List Statement) (moves : List Move) (move : Move) (start moment end : MomentWithPast)
        → RunsAreInRange script → run_with_past script moves ≡ Some start → next_moment script move start ≡ Some end
        → MomentTrail script start moment → TrailLeft script start moment end
        → InodesStay (log_effects moment.world.log) (is_available_disk end.world.log end.past.unavailable) moment.world.hosts
        moment.past.attempts }
{}

/// In each run in range, at the end of every event: the inode of each open disk, also of a snapshot, was created by the epoch of its node;
/// of disks that were available, that of an open one is read to have what the session's table has, or, while an entry is being written,
/// that or the disk's own id; and that of a snapshot has one entry at each index.
pub fn tables_are_the_inodes()
    ensures created { (script : List Statement) (moves : List Move) (moment : MomentWithPast) → RunsAreInRange script
        → run_with_past script moves ≡ Some moment → OpenInodesAreCreated moment.world.hosts moment.past.attempts }
    ensures table { (script : List Statement) (moves : List Move) (moment : MomentWithPast) → RunsAreInRange script
        → run_with_past script moves ≡ Some moment
        → TablesAreTheInodes (log_effects moment.world.log) (is_available_disk moment.world.log moment.past.unavailable) moment.world.hosts
        moment.past.attempts }
    ensures frozen { (script : List Statement) (moves : List Move) (moment : MomentWithPast) → RunsAreInRange script
        → run_with_past script moves ≡ Some moment
        → SnapshotsAreFrozen (log_effects moment.world.log) (is_available_disk moment.world.log moment.past.unavailable)
        moment.past.attempts }
    // So the whole group of inodes and tables holds.
    ensures group { (script : List Statement) (moves : List Move) (moment : MomentWithPast) → RunsAreInRange script
        → run_with_past script moves ≡ Some moment
        → TablesAreKept moment.world.log (log_effects moment.world.log) (is_live_object moment.world.log moment.past.attempts)
        (is_available_disk moment.world.log moment.past.unavailable) moment.world.hosts moment.past.attempts }
{}
