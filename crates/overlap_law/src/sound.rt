//! Laws of the strips of blocks: whose the open items of a block are, and what attempts on its strips have.
ghost use Rattle.std.specs.Prelude.{◌≡◌, List, Some};
ghost use Rattle.vdi_directory.specs.Decisions.{log_effects};
ghost use Rattle.cluster_script.specs.declared.statement.Statement.{Statement};
ghost use Rattle.overlap_law.specs.Headline.{ledger_of};
ghost use Rattle.overlap_law.specs.MomentChanges.{MomentTrail, RunsAreInRange};
ghost use Rattle.overlap_law.specs.Past.{MomentWithPast, run_with_past};
ghost use Rattle.overlap_law.specs.SoundCoded.{StripItemsAreCoded};
ghost use Rattle.overlap_law.specs.SoundItems.{OpenItemsAreUnderWay};
ghost use Rattle.overlap_law.specs.SoundReads.{ReadBlocksAreUnwritten, ReadStripsComeAlike, WaitersMadeNone};
ghost use Rattle.overlap_law.specs.SoundUnwritten.{StripsComeAlike, StripsAreSoundUnlessWritten};
ghost use Rattle.overlap_law.specs.Holders.{is_available_disk};
ghost use Rattle.sheep_world.specs.RunsWithAsks.{Move};

/// In each run in range, at the end of every event: an open item of a block is of a request that hasn't ended; and each item of a request
/// that hasn't ended is on the working disk that the request's session has open, at a node that isn't lost and has the request. For a reply
/// ends the writes of its request, and so does the loss of its node; and a disk is copied only where nobody writes it any more.
pub fn open_items_are_under_way()
    ensures { (script : List Statement) (moves : List Move) (moment : MomentWithPast) → RunsAreInRange script
        → run_with_past script moves ≡ Some moment → OpenItemsAreUnderWay (ledger_of moment.past.history) moment.world.hosts }
{}

/// In each run in range, at the end of every event: each item of a request, in a block of a disk whose blocks are kept in strips, is one of
/// a coded write. So one that a lost writer left tears its block.
pub fn items_of_strips_are_coded()
    ensures { (script : List Statement) (moves : List Move) (moment : MomentWithPast) → RunsAreInRange script
        → run_with_past script moves ≡ Some moment
        → StripItemsAreCoded (ledger_of moment.past.history) (log_effects moment.world.log) }
{}

/// In each run in range, at the end of every event, of disks that were available: of strips that aren't torn two attempts by which a block
/// may come to be read have the same bytes there, in whatever object the disk's inode may come to name; unless the block is being written:
/// an open item of it is of a request of which an attempt began. So each attempt behind the own base of the block is mute, or has the
/// base's bytes there.
pub fn strips_are_sound_unless_written()
    ensures alike { (script : List Statement) (moves : List Move) (moment : MomentWithPast) → RunsAreInRange script
        → run_with_past script moves ≡ Some moment
        → StripsComeAlike (ledger_of moment.past.history) (log_effects moment.world.log)
        (is_available_disk moment.world.log moment.past.unavailable) moment.world.hosts moment.past.attempts }
    ensures sound { (script : List Statement) (moves : List Move) (moment : MomentWithPast) → RunsAreInRange script
        → run_with_past script moves ≡ Some moment
        → StripsAreSoundUnlessWritten (ledger_of moment.past.history) (log_effects moment.world.log)
        (is_available_disk moment.world.log moment.past.unavailable) moment.past.attempts }
{}

/// In each run in range, at each moment on the way of an event, a request that waits for its turn has made no attempt at its gateway: one
/// that begins has its work at once, and none comes to wait again.
pub fn requests_that_wait_made_none()
    ensures { (script : List Statement) (moves : List Move) (start moment : MomentWithPast) → RunsAreInRange script
        → run_with_past script moves ≡ Some start → MomentTrail script start moment
        → WaitersMadeNone moment.world.hosts moment.past.attempts }
{}

/// In each run in range, at each moment on the way of an event, no block of the piece that a read is at is being written, on the disk that
/// its session has open. For who writes it is of the session that holds the disk, and of what has begun of a session no two meet on an
/// index; and a reply ends the writes of its request. So there what stands of strips that aren't torn is one write.
pub fn blocks_that_are_read_are_not_written()
    ensures { (script : List Statement) (moves : List Move) (start moment : MomentWithPast) → RunsAreInRange script
        → run_with_past script moves ≡ Some start → MomentTrail script start moment
        → ReadBlocksAreUnwritten (ledger_of moment.past.history) moment.world.hosts moment.past.attempts }
{}

/// So in each run in range, at the end of every event, of disks that were available: of the piece that a read is at two attempts by which
/// strips that aren't torn may come to be read have the same bytes there.
pub fn strips_that_are_read_come_alike()
    ensures { (script : List Statement) (moves : List Move) (moment : MomentWithPast) → RunsAreInRange script
        → run_with_past script moves ≡ Some moment
        → ReadStripsComeAlike (ledger_of moment.past.history) (log_effects moment.world.log)
        (is_available_disk moment.world.log moment.past.unavailable) moment.world.hosts moment.past.attempts }
{}
