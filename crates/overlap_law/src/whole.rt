//! Laws of the whole history: that it stands over events, by one induction, and that reads are told what may be read.
ghost use Rattle.std.specs.Prelude.{◌≡◌, ℕ, Bool, List, Some};
ghost use Rattle.cluster_script.specs.declared.statement.Statement.{Statement};
ghost use Rattle.vdi_directory.specs.Decisions.{log_effects};
ghost use Rattle.overlap_law.specs.Headline.{ledger_of};
ghost use Rattle.overlap_law.specs.HistoryStands.{CallsAvailable, HistoryStands};
ghost use Rattle.overlap_law.specs.Holders.{is_available_disk};
ghost use Rattle.overlap_law.specs.MomentChanges.{MomentTrail, TrailLeft, RunsAreInRange};
ghost use Rattle.overlap_law.specs.Past.{MomentWithPast, next_moment, run_with_past};
ghost use Rattle.overlap_law.specs.Pieces.{WhatIsReadMayBeRead};
ghost use Rattle.overlap_law.specs.StandingReads.{EachEventTellsWhatMayBeRead};
ghost use Rattle.overlap_law.specs.ToDo.{WorksMayBeMade};
ghost use Rattle.overlap_law.specs.WrittenBlocks.{BlocksAreWritten};
ghost use Rattle.sheep_world.specs.RunsWithAsks.{Move};

/// In each run in range the history stands, of disks that were available, whichever requests are refused: what a block may come to be read
/// as may be read of it, and so may what open works would make of it, and what open reads were told so far.
pub fn the_history_stands()
    ensures in_run { (script : List Statement) → RunsAreInRange script
        → (moves : List Move) (moment : MomentWithPast) → run_with_past script moves ≡ Some moment
        → HistoryStands script (is_available_disk moment.world.log moment.past.unavailable) moment }
    // At each moment on the way of an event too, by whichever test for good ids serves there.
    ensures on_the_way { (script : List Statement) (moves : List Move) (move : Move) (start moment end : MomentWithPast)
        → RunsAreInRange script → run_with_past script moves ≡ Some start
        → next_moment script move start ≡ Some end → MomentTrail script start moment → TrailLeft script start moment end
        → (good_id : ℕ → Bool) → CallsAvailable start moment good_id → HistoryStands script good_id moment }
    // So the blocks are written as the group of the history says,
    ensures written { (script : List Statement) → RunsAreInRange script
        → (moves : List Move) (moment : MomentWithPast) → run_with_past script moves ≡ Some moment
        → BlocksAreWritten (ledger_of moment.past.history) (log_effects moment.world.log)
        (is_available_disk moment.world.log moment.past.unavailable) moment.world.hosts moment.past.attempts }
    // what works to do would make of a block may be read of it,
    ensures to_make { (script : List Statement) → RunsAreInRange script
        → (moves : List Move) (moment : MomentWithPast) → run_with_past script moves ≡ Some moment
        → WorksMayBeMade (ledger_of moment.past.history) (log_effects moment.world.log)
        (is_available_disk moment.world.log moment.past.unavailable) moment.world.hosts }
    // and what was read so far may be read.
    ensures read { (script : List Statement) → RunsAreInRange script
        → (moves : List Move) (moment : MomentWithPast) → run_with_past script moves ≡ Some moment
        → WhatIsReadMayBeRead (ledger_of moment.past.history) (log_effects moment.world.log)
        (is_available_disk moment.world.log moment.past.unavailable) moment.world.hosts }
{}

/// So each event of a run in range tells reads, of disks that were available up to there, what may be read.
pub fn each_event_of_a_run_tells_what_may_be_read()
    ensures { (script : List Statement) → RunsAreInRange script → EachEventTellsWhatMayBeRead script }
{}
