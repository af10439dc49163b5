//! Laws of the group of the history: that what a block may come to be read as may be read of it.
ghost use Rattle.std.specs.Prelude.{◌≡◌, ℕ, Bool, true, List, Some};
ghost use Rattle.disk_history.specs.declared.event.HistEvent.{HistEvent};
ghost use Rattle.vdi_directory.specs.Decisions.{log_effects};
ghost use Rattle.cluster_script.specs.declared.statement.Statement.{Statement};
ghost use Rattle.peer_proto.specs.declared.work.ObjWork.{ObjWork};
ghost use Rattle.sheep_world.specs.Began.{Began};
ghost use Rattle.sheep_world.specs.RunsWithAsks.{Move};
ghost use Rattle.overlap_law.specs.CreatedPieces.{CreatesAreOfPieces};
ghost use Rattle.overlap_law.specs.Headline.{ledger_of};
ghost use Rattle.overlap_law.specs.Holders.{is_available_disk, is_object_among};
ghost use Rattle.overlap_law.specs.HistoryGrowth.{HistoryGrows};
ghost use Rattle.overlap_law.specs.KeptHistory.{WhatIsDoneIsAlone, CommandsWriteWhatMayCome};
ghost use Rattle.overlap_law.specs.MomentChanges.{MomentChange, MomentTrail, TrailLeft, RunsAreInRange};
ghost use Rattle.overlap_law.specs.Past.{MomentWithPast, next_moment, run_with_past};
ghost use Rattle.overlap_law.specs.ServedLast.{IsServedLast, IsOneToCome, BeginsSo};
ghost use Rattle.overlap_law.specs.StayingBlocks.{ItemsAreOpen, EntersWhatMayCome, GrowsKeeping};
ghost use Rattle.overlap_law.specs.StayingBlocks.{DisksAreLive, DisksArePublished};
ghost use Rattle.overlap_law.specs.StayingBlocks.{ComesToNothing};
ghost use Rattle.overlap_law.specs.WrittenPieces.{CreatesHavePieces};
ghost use Rattle.overlap_law.specs.HistoryStands.{CallsAvailable};
ghost use Rattle.overlap_law.specs.MomentChanges.{IsOnTheWay};

/// As long as a request hasn't ended by a history, each item of it is open, in each block of each disk, also where it was copied to.
pub fn items_are_open_until_their_request_ends()
    ensures { (history : List HistEvent) → ItemsAreOpen (ledger_of history) }
{}

/// Of each run in range, each change of a moment adds to the history what one of five kinds says: nothing; the writes that a guest's
/// request begins, or a check; what one reply ends or reads; what the log's new entry makes, copies or deletes; the writers that a lost
/// node leaves. The log gets an entry in the fourth kind alone.
pub fn each_change_adds_to_the_history()
    ensures { (script : List Statement) (start before after : MomentWithPast) → RunsAreInRange script → Began script start.world
        → MomentChange script start before after
        → HistoryGrows script start.world after.world.log before.past.history after.past.history }
{}

/// In each run in range, at each moment on the way of an event: the disks that the history has were published by the log, and those that
/// aren't deleted are there.
pub fn disks_are_there_by_the_log()
    ensures there { (script : List Statement) (moves : List Move) (start moment : MomentWithPast) → RunsAreInRange script
        → run_with_past script moves ≡ Some start → MomentTrail script start moment
        → DisksAreLive (ledger_of moment.past.history) (log_effects moment.world.log) }
    ensures published { (script : List Statement) (moves : List Move) (start moment : MomentWithPast) → RunsAreInRange script
        → run_with_past script moves ≡ Some start → MomentTrail script start moment
        → DisksArePublished (ledger_of moment.past.history) (log_effects moment.world.log) }
{}

/// In each run in range, at each moment on the way of an event: the attempts of a request that was refused come to nothing, since no
/// message of them was served, and none flies. So a refusal takes no item by which a block may be read.
pub fn attempts_of_the_refused_come_to_nothing()
    ensures { (script : List Statement) (moves : List Move) (start moment : MomentWithPast) → RunsAreInRange script
        → run_with_past script moves ≡ Some start → MomentTrail script start moment → (req : ℕ)
        → is_object_among req moment.past.refused ≡ true → ComesToNothing moment.world.hosts moment.past.attempts req }
{}

/// In each run in range, over each change of a moment on the way of an event, by each test for good ids that serves there: a write that is
/// done in it is alone where it was written; and whatever the change adds to the history keeps what blocks may come to be read as. For who
/// is refused, or loses its reply as a node is lost, hadn't ended, and nothing comes of what was refused; and an entry that the log gets
/// makes disks blank, or like other ones.
pub fn what_ends_keeps_blocks()
    ensures alone { (script : List Statement) (moves : List Move) (move : Move) (start end before after : MomentWithPast)
        → RunsAreInRange script → IsOnTheWay script moves move start end before after → (good_id : ℕ → Bool)
        → CallsAvailable start after good_id → WhatIsDoneIsAlone good_id before after }
    ensures keeps { (script : List Statement) (moves : List Move) (move : Move) (start end before after : MomentWithPast)
        → RunsAreInRange script → IsOnTheWay script moves move start end before after → (good_id : ℕ → Bool)
        → CallsAvailable start after good_id
        → GrowsKeeping (log_effects after.world.log) good_id after.world.hosts after.past.attempts before.past.history
        after.past.history }
{}

/// In each run in range, at each moment on the way of an event: where an attempt on a unit was served, which is so by a test of works, and
/// each behind it on the unit may be there by another test, or is doomed, the unit may come to be read by one that is so, if what may be
/// there is. Each change of a moment keeps that, if what begins on the unit in it may be there. So what was read of an inode may come as
/// long as nothing else is written to it.
pub fn what_was_served_stays_to_come()
    ensures comes { (script : List Statement) (moves : List Move) (start moment : MomentWithPast) → RunsAreInRange script
        → run_with_past script moves ≡ Some start → MomentTrail script start moment → (so may : ObjWork → Bool) (oid unit : ℕ)
        → ((work : ObjWork) → may work ≡ true → so work ≡ true)
        → IsServedLast so may moment.world.hosts moment.past.attempts oid unit
        → IsOneToCome so moment.world.hosts moment.past.attempts oid unit }
    ensures stays { (script : List Statement) (moves : List Move) (start before after : MomentWithPast) → RunsAreInRange script
        → run_with_past script moves ≡ Some start → MomentTrail script start before → MomentChange script start before after
        → (so may : ObjWork → Bool) (oid unit : ℕ) → BeginsSo may before after oid unit
        → IsServedLast so may before.world.hosts before.past.attempts oid unit
        → IsServedLast so may after.world.hosts after.past.attempts oid unit }
{}

/// In each run in range, on the way of an event: what commands write back, behind a change, into inodes of ids that aren't dead might
/// come to be had before it, of disks that are available up to the event's end. For what was read of such an inode was served, each
/// attempt behind it is doomed, and nothing but the command's own work begins on the inode until it is written back.
pub fn commands_write_what_may_come()
    ensures { (script : List Statement) (moves : List Move) (move : Move) (start end before after : MomentWithPast)
        → RunsAreInRange script → run_with_past script moves ≡ Some start → next_moment script move start ≡ Some end
        → MomentTrail script start before → MomentChange script start before after → TrailLeft script start after end
        → CommandsWriteWhatMayCome (is_available_disk end.world.log end.past.unavailable) before after }
{}

/// In each run in range, on the way of an event, by each test for good ids that serves there: an attempt that begins in a change, on the
/// inode of a good id that was published and isn't dead, gives the inode that id, or an entry that it might come to have before. For a
/// write enters the own id, a check is on no inode, a tag goes over no entry, the inode of an id is created before its disk is there, and
/// what a command writes back might come to be had.
pub fn attempts_enter_what_may_come()
    ensures { (script : List Statement) (moves : List Move) (move : Move) (start end before after : MomentWithPast)
        → RunsAreInRange script → IsOnTheWay script moves move start end before after → (good_id : ℕ → Bool)
        → CallsAvailable start after good_id → EntersWhatMayCome good_id before after }
{}

/// In each run in range, at each moment on the way of an event: an open work that creates the own object of a write's piece creates it of
/// the piece, by the table of the disk that its session has open: where that has a hole, with the piece in it; or where it has another
/// disk's object, with the piece laid over as many bytes. So it has the write's bytes in each of the piece's blocks.
pub fn creates_are_of_their_pieces()
    ensures pieces { (script : List Statement) (moves : List Move) (start moment : MomentWithPast) → RunsAreInRange script
        → run_with_past script moves ≡ Some start → MomentTrail script start moment → CreatesAreOfPieces moment.world.hosts }
    ensures bytes { (script : List Statement) (moves : List Move) (start moment : MomentWithPast) → RunsAreInRange script
        → run_with_past script moves ≡ Some start → MomentTrail script start moment → CreatesHavePieces moment.world.hosts }
{}
