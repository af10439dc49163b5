//! Laws on the way to one legal history of replies: what may come next in it, what open disks are by it, and what comes of reads.
ghost use Rattle.std.specs.Prelude.{◌≡◌, ℕ, Bool, List, Some};
ghost use Rattle.std.specs.List.{list_any};
ghost use Rattle.object_id.specs.declared.entry.Entry.{Entry};
ghost use Rattle.disk_history.specs.declared.event.HistEvent.{HistEvent};
ghost use Rattle.disk_history.specs.Ledger as histories;
ghost use Rattle.disk_history.specs.Legal.{has_place};
ghost use Rattle.vdi_directory.specs.Decisions.{log_effects};
ghost use Rattle.guest_driver.specs.Pieces.{pieces};
ghost use Rattle.cluster_script.specs.declared.statement.Statement.{Statement};
ghost use Rattle.sheep_node.specs.declared.event.Event.{Event};
ghost use Rattle.sheep_world.specs.Granted.{entry_adds};
ghost use Rattle.sheep_world.specs.Step.{EventOutcome};
ghost use Rattle.sheep_world.specs.RunsWithAsks.{Move};
ghost use Rattle.sheep_world.specs.Began.{MakesMove};
ghost use Rattle.overlap_law.specs.DiskEvents.{ends_write_of};
ghost use Rattle.overlap_law.specs.Headline.{ledger_of};
ghost use Rattle.overlap_law.specs.MomentChanges.{MomentTrail, RunsAreInRange, MomentChange};
ghost use Rattle.overlap_law.specs.Past.{MomentWithPast, run_with_past};
ghost use Rattle.overlap_law.specs.StandingReads.{ReadsMayGoOnIn};
ghost use Rattle.overlap_law.specs.StandingReads.{WorkingDisksAreOfHistory};
ghost use Rattle.overlap_law.specs.StandingReads.{OpenSnapshotsAreOfHistory};
ghost use Rattle.overlap_law.specs.StandingReads.{ReadPiecesAreToCome, ReadHolesAreToCome};
ghost use Rattle.overlap_law.specs.ToldReads.{AllElseMayFollow, MayStayReadAs};
ghost use Rattle.overlap_law.specs.ToldReads.{begins_write_at};
ghost use Rattle.overlap_law.specs.HistoryStands.{CallsAvailable};
ghost use Rattle.overlap_law.specs.MomentChanges.{IsOnTheWay};

/// In each run in range, what may be read of a block by its items, whichever requests are refused, may be read so behind each change of a
/// moment on the way of an event too: a request of which a message was served isn't refused any more.
pub fn what_was_read_stays_so()
    ensures { (script : List Statement) (moves : List Move) (start before after : MomentWithPast) → RunsAreInRange script
        → run_with_past script moves ≡ Some start → MomentTrail script start before → MomentChange script start before after
        → (items : List histories.Item) (bytes : List ℕ) → MayStayReadAs before.past.attempts items bytes
        → MayStayReadAs after.past.attempts items bytes }
{}

/// In each run in range, at each moment on the way of an event too: the disks that the history has are those that the log has made, so that
/// what an entry would add to the history, if it were put next, may come next there: it makes no disk that is there, copies none that
/// isn't, and deletes none that was deleted.
pub fn what_entries_add_may_follow()
    ensures { (script : List Statement) (moves : List Move) (start moment : MomentWithPast) → RunsAreInRange script
        → run_with_past script moves ≡ Some start → MomentTrail script start moment → (entry : Entry)
        → AllElseMayFollow (ledger_of moment.past.history) (entry_adds moment.world.log entry) }
{}

/// What a ledger keeps of a write request is told by the events of its history: it ended if one of them ended it, and it began a write of a
/// block if one of them did. So a write that begins may come next if its request has neither ended nor begun a write of that block.
pub fn what_requests_did_is_told_by_events()
    ensures ended { (req : ℕ) (history : List HistEvent)
        → ((ledger_of history).requests req).ended ≡ list_any (ends_write_of req) history }
    ensures places { (req disk block : ℕ) (history : List HistEvent)
        → has_place ((ledger_of history).requests req) disk block ≡ list_any (begins_write_at req disk block) history }
{}

/// In each run in range what an event adds to the history may come next there, reads aside: a write that begins is of a block of 512 bytes
/// of which its request had begun none, and that hadn't ended; one that a reply ends, or whose node is lost, had begun and hadn't ended;
/// and one that is done began blocks alone that its disk had then.
pub fn all_else_may_follow()
    ensures { (script : List Statement) (moves : List Move) (event : Event) (before : MomentWithPast) (made : EventOutcome)
        → RunsAreInRange script → run_with_past script moves ≡ Some before → MakesMove script event before.world made
        → AllElseMayFollow (ledger_of before.past.history) made.grown }
{}

/// In each run in range a working disk that a session has open, in which no command goes on, is one of the history, as large as its inode
/// says, and there by the log.
pub fn working_disks_are_of_the_history()
    ensures { (script : List Statement) (moves : List Move) (moment : MomentWithPast) → RunsAreInRange script
        → run_with_past script moves ≡ Some moment → WorkingDisksAreOfHistory moment }
{}

/// In each run in range a snapshot that a session has open is one of the history, as large as its inode says, and there by the log, unless
/// the history has it deleted. For it was published once, so the history got it, and no id that was published is freed.
pub fn open_snapshots_are_of_the_history()
    ensures { (script : List Statement) (moves : List Move) (moment : MomentWithPast) → RunsAreInRange script
        → run_with_past script moves ≡ Some moment → OpenSnapshotsAreOfHistory moment }
{}

/// In each run in range, before each change on the way of an event, by each test for good ids that serves there: the holes that a read
/// comes to, as it begins or behind a piece that came, are holes that the disk's inode may come to have; for the read meets no write
/// that enters its entry. And what comes of a piece is as long as it, and is what its blocks may come to have of what the inode may come to
/// name. So reads go on with what may be read, whichever requests are refused.
pub fn what_reads_come_to_is_to_come()
    ensures holes { (script : List Statement) (moves : List Move) (move : Move) (start end before after : MomentWithPast)
        → RunsAreInRange script → IsOnTheWay script moves move start end before after → (good_id : ℕ → Bool)
        → CallsAvailable start before good_id → ReadHolesAreToCome script start before (log_effects before.world.log) good_id }
    ensures pieces { (script : List Statement) (moves : List Move) (move : Move) (start end before after : MomentWithPast)
        → RunsAreInRange script → IsOnTheWay script moves move start end before after → (good_id : ℕ → Bool)
        → CallsAvailable start before good_id
        → ReadPiecesAreToCome script start before (ledger_of before.past.history) (log_effects before.world.log) good_id }
    ensures go_on { (script : List Statement) (moves : List Move) (move : Move) (start end before after : MomentWithPast)
        → RunsAreInRange script → IsOnTheWay script moves move start end before after → (good_id : ℕ → Bool)
        → CallsAvailable start before good_id
        → ReadsMayGoOnIn script start before (MayStayReadAs before.past.attempts) (ledger_of before.past.history)
        (log_effects before.world.log) good_id }
{}
