//! Laws of drafts: what the inodes of reserved ids may come to have, and what commands create for them, is drawn from what the ids are made
//! from; and what is to be published was created.
ghost use Rattle.std.specs.Prelude.{◌≡◌, List, Some};
ghost use Rattle.cluster_script.specs.declared.statement.Statement.{Statement};
ghost use Rattle.vdi_directory.specs.Decisions.{log_effects};
ghost use Rattle.overlap_law.specs.Courses.{WorksAreWaitedFor};
ghost use Rattle.overlap_law.specs.Drafts.{ReservedInodesAreDrawn, WhatIsPublishedIsCreated};
ghost use Rattle.overlap_law.specs.Groups.{CoursesAreKept};
ghost use Rattle.overlap_law.specs.Holders.{is_available_disk};
ghost use Rattle.overlap_law.specs.MomentChanges.{MomentChange, MomentTrail, TrailLeft, RunsAreInRange};
ghost use Rattle.overlap_law.specs.Past.{MomentWithPast, next_moment, run_with_past};
ghost use Rattle.overlap_law.specs.StayingDrafts.{PublishersMayWrite};
ghost use Rattle.overlap_law.specs.KeptHistory.{EntriesKeepBlocks};
ghost use Rattle.overlap_law.specs.StayingDrafts.{DraftsStayDrawn};
ghost use Rattle.overlap_law.specs.StayingDrafts.{PlacesStayDrawn, DataIsOfThePublished};
ghost use Rattle.sheep_world.specs.RunsWithAsks.{Move};

/// In each run in range, at each moment on the way of an event: an attempt on an object of a disk, that is no inode, is of a disk that was
/// published. So nothing was asked of the objects of an id that is reserved.
pub fn data_is_of_published_disks()
    ensures { (script : List Statement) (moves : List Move) (start moment : MomentWithPast) → RunsAreInRange script
        → run_with_past script moves ≡ Some start → MomentTrail script start moment
        → DataIsOfThePublished moment.world.log moment.past.attempts }
{}

/// In each run in range, of disks that were available up to there: what the inode of a reserved id may come to have, that of a new disk or
/// of a clone, is drawn from what the id is made from, and so is what the works have that are to create it. So it is at each moment on the
/// way of an event too, of the disks that are available up to the event's end.
pub fn drafts_are_drawn()
    ensures in_run { (script : List Statement) (moves : List Move) (moment : MomentWithPast) → RunsAreInRange script
        → run_with_past script moves ≡ Some moment
        → DraftsStayDrawn (log_effects moment.world.log) (is_available_disk moment.world.log moment.past.unavailable) moment.world.hosts
        moment.past.attempts }
    ensures on_the_way { (script : List Statement) (moves : List Move) (move : Move) (start moment end : MomentWithPast)
        → RunsAreInRange script → run_with_past script moves ≡ Some start → next_moment script move start ≡ Some end
        → MomentTrail script start moment → TrailLeft script start moment end
        → DraftsStayDrawn (log_effects moment.world.log) (is_available_disk end.world.log end.past.unavailable) moment.world.hosts
        moment.past.attempts }
{}

/// In each run in range, at the end of every event: each work that is open, or waits for the inode, is the one that its request waits for;
/// and what a command creates for an id, while that is reserved, is drawn from what the id is made from, of disks that were available so
/// far. For the inode that is to take a disk's place has the table of the disk, which the session has open while the command is there.
pub fn works_create_what_is_drawn()
    ensures { (script : List Statement) (moves : List Move) (moment : MomentWithPast) → RunsAreInRange script
        → run_with_past script moves ≡ Some moment
        → WorksAreWaitedFor (log_effects moment.world.log) (is_available_disk moment.world.log moment.past.unavailable) moment.world.hosts
        moment.past.attempts }
{}

/// In each run in range, at the end of every event, of disks that were available so far: what is to be published was created, and an inode
/// that is to be open then is read to have its table alone, since its session may write it.
pub fn what_is_to_be_published_is_created()
    ensures { (script : List Statement) (moves : List Move) (moment : MomentWithPast) → RunsAreInRange script
        → run_with_past script moves ≡ Some moment
        → WhatIsPublishedIsCreated (is_available_disk moment.world.log moment.past.unavailable) moment.world.hosts moment.past.attempts }
{}

/// In each run in range, at the end of every event: a session whose command waits for the publication of an inode, that it is to have open
/// then, may write the inode's id. For the command's last entry is on its way: its node has it still to put, and the id is reserved for the
/// session, or it stands in the log, and the session has the id's lock; and the node that reads it tells the command.
pub fn publishers_may_write()
    ensures { (script : List Statement) (moves : List Move) (moment : MomentWithPast) → RunsAreInRange script
        → run_with_past script moves ≡ Some moment → PublishersMayWrite (log_effects moment.world.log) moment.world.hosts }
{}

/// In each run in range, at the end of every event, of disks that were available so far: what the inode of an id may come to have that is
/// reserved to take a disk's place is all that the disk's inode may come to have, and the disk's inode was created. For as long as the
/// node is up, a command of the session makes that inode with the table of the open disk, or waits for its publication, and writes nothing
/// beside; and where the node is lost, nobody else may write the two.
pub fn places_are_drawn()
    ensures { (script : List Statement) (moves : List Move) (moment : MomentWithPast) → RunsAreInRange script
        → run_with_past script moves ≡ Some moment
        → PlacesStayDrawn (log_effects moment.world.log) (is_available_disk moment.world.log moment.past.unavailable) moment.world.hosts
        moment.past.attempts }
{}

/// In each run in range, at the end of every event, of disks that were available so far: what may be read of the inode of an id that is
/// reserved is drawn from what the id is made from; so the whole group of requests and commands holds.
pub fn requests_and_commands_are_kept()
    ensures drawn { (script : List Statement) (moves : List Move) (moment : MomentWithPast) → RunsAreInRange script
        → run_with_past script moves ≡ Some moment
        → ReservedInodesAreDrawn (log_effects moment.world.log) (is_available_disk moment.world.log moment.past.unavailable)
        moment.past.attempts }
    ensures group { (script : List Statement) (moves : List Move) (moment : MomentWithPast) → RunsAreInRange script
        → run_with_past script moves ≡ Some moment
        → CoursesAreKept moment.world.log (log_effects moment.world.log) (is_available_disk moment.world.log moment.past.unavailable)
        moment.world.hosts moment.past.attempts }
{}

/// In each run in range, on the way of every event, what an entry of the log adds to the history keeps what blocks may come to be read as,
/// of the disks that are available up to the event's end: so each change has its part of what histories need to be kept.
pub fn each_entry_keeps_blocks()
    ensures { (script : List Statement) (moves : List Move) (move : Move) (start end before after : MomentWithPast)
        → RunsAreInRange script → run_with_past script moves ≡ Some start → next_moment script move start ≡ Some end
        → MomentTrail script start before → MomentChange script start before after → TrailLeft script start after end
        → EntriesKeepBlocks (is_available_disk end.world.log end.past.unavailable) before after }
{}
