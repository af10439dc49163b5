//! Laws of what writes copy of strips of other disks' objects.
ghost use Rattle.std.specs.Prelude.{◌≡◌, ℕ, Bool, List, Some};
ghost use Rattle.cluster_script.specs.declared.statement.Statement.{Statement};
ghost use Rattle.overlap_law.specs.CopiedStrips.{IsFetchedOfStrips, BesidePiecesIsUnwritten, NoneElseWrites};
ghost use Rattle.overlap_law.specs.CreatedPieces.{CreatesAreOf};
ghost use Rattle.overlap_law.specs.Headline.{ledger_of};
ghost use Rattle.overlap_law.specs.HistoryStands.{CallsAvailable};
ghost use Rattle.overlap_law.specs.MomentChanges.{MomentChange, MomentTrail, TrailLeft, RunsAreInRange};
ghost use Rattle.overlap_law.specs.Past.{MomentWithPast, next_moment, run_with_past};
ghost use Rattle.sheep_world.specs.RunsWithAsks.{Move};

/// In each run in range, at each moment on the way of an event, by each test for good ids that serves there: what an open create of a write
/// copies of strips of another disk's object was read of it, and each block of it is still that of each attempt on the object that isn't
/// doomed, where those behind it add nothing. For the object is a snapshot's, on which nothing begins; so what is doomed stays so, and
/// where nothing is added behind an attempt, nothing was before.
pub fn what_is_copied_of_strips_was_read()
    ensures { (script : List Statement) (moves : List Move) (move : Move) (start moment end : MomentWithPast) → RunsAreInRange script
        → run_with_past script moves ≡ Some start → next_moment script move start ≡ Some end → MomentTrail script start moment
        → TrailLeft script start moment end → (good_id : ℕ → Bool) → CallsAvailable start moment good_id
        → CreatesAreOf (IsFetchedOfStrips moment.world.log good_id moment.world.hosts moment.past.attempts) moment.world.hosts }
{}

/// So in each run in range, behind each change on the way of an event: in the object of the piece that a write is at nothing is being
/// written beside the piece, on the disk that its session has open; and no other request is writing there, at any moment on the way.
pub fn nothing_is_written_beside_pieces()
    ensures beside { (script : List Statement) (moves : List Move) (start before after : MomentWithPast) → RunsAreInRange script
        → run_with_past script moves ≡ Some start → MomentTrail script start before → MomentChange script start before after
        → BesidePiecesIsUnwritten (ledger_of after.past.history) after.world.hosts after.past.attempts }
    ensures others { (script : List Statement) (moves : List Move) (start moment : MomentWithPast) → RunsAreInRange script
        → run_with_past script moves ≡ Some start → MomentTrail script start moment
        → NoneElseWrites (ledger_of moment.past.history) moment.world.hosts moment.past.attempts }
{}
