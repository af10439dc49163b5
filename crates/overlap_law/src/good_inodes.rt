//! Laws of what disks name whether or not they were available, and of inodes that were available themselves, whatever their disks were
//! cloned from.
ghost use Rattle.std.specs.Prelude.{◌≡◌, ℕ, Bool, List, Some};
ghost use Rattle.cluster_script.specs.declared.statement.Statement.{Statement};
ghost use Rattle.vdi_directory.specs.Decisions.{log_effects};
ghost use Rattle.overlap_law.specs.GoodInodes.{is_available_inode};
ghost use Rattle.overlap_law.specs.MadeTables.{TablesNameWhatIsMade};
ghost use Rattle.overlap_law.specs.MomentChanges.{MomentTrail, TrailLeft, RunsAreInRange};
ghost use Rattle.overlap_law.specs.NamedWorks.{InodesNameWhatIsMade};
ghost use Rattle.overlap_law.specs.OpenedTables.{InodesStay};
ghost use Rattle.overlap_law.specs.Past.{MomentWithPast, next_moment, run_with_past};
ghost use Rattle.overlap_law.specs.Tables.{every_id};
ghost use Rattle.sheep_world.specs.RunsWithAsks.{Move};

/// In each run in range, at each moment on the way of an event too, of each disk, whether or not it was available: the entries of sessions'
/// tables, and of the inodes that commands are to open, stand for objects that were created by the epoch of their node, if the disk isn't
/// dead; the entries that attempts gave to inodes stand for objects that were created by the attempt's epoch, whichever objects are live;
/// and those that works are to give to inodes, for objects that were created by now. So each entry is nothing, or names the disk or one
/// above it.
pub fn what_any_disk_names_is_made()
    ensures tables { (script : List Statement) (moves : List Move) (start moment : MomentWithPast) → RunsAreInRange script
        → run_with_past script moves ≡ Some start → MomentTrail script start moment
        → TablesNameWhatIsMade (log_effects moment.world.log) every_id moment.world.hosts moment.past.attempts }
    ensures inodes { (script : List Statement) (moves : List Move) (start moment : MomentWithPast) → RunsAreInRange script
        → run_with_past script moves ≡ Some start → MomentTrail script start moment → (live : ℕ → Bool)
        → InodesNameWhatIsMade live every_id moment }
{}

/// In each run in range, of inodes that were available up to there, whatever their disks were cloned from: what the inode of an open disk
/// may come to have is what the session's table has, or the disk's own id while an entry is being written; what became a snapshot once has
/// one entry alone at each index; and what is written back gives the entries of the table. So it is at each moment on the way of an event
/// too, of the inodes that are available up to the event's end. For what was read of an inode is one that it might come to have, and names
/// what the disk's chain has, whichever disk it is.
pub fn available_inodes_are_as_the_tables_say()
    ensures in_run { (script : List Statement) (moves : List Move) (moment : MomentWithPast) → RunsAreInRange script
        → run_with_past script moves ≡ Some moment
        → InodesStay (log_effects moment.world.log) (is_available_inode moment.past.unavailable) moment.world.hosts moment.past.attempts }
    ensures on_the_way { (script : List Statement) (moves : List Move) (move : Move) (start moment end : MomentWithPast)
        → RunsAreInRange script → run_with_past script moves ≡ Some start → next_moment script move start ≡ Some end
        → MomentTrail script start moment → TrailLeft script start moment end
        → InodesStay (log_effects moment.world.log) (is_available_inode end.past.unavailable) moment.world.hosts moment.past.attempts }
{}
