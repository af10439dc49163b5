//! Laws of checks that are done: what one leaves of the blocks of its disk is one value each, until a write of the block begins.
ghost use Rattle.std.specs.Prelude.{◌≡◌, ℕ, false, List, ◌++◌, Some};
ghost use Rattle.std.specs.List.{list_any};
ghost use Rattle.cluster_script.specs.declared.statement.Statement.{Statement};
ghost use Rattle.disk_history.specs.declared.event.HistEvent.{HistEvent};
ghost use Rattle.sheep_node.specs.declared.event.Event.{Event};
ghost use Rattle.sheep_world.specs.Began.{MakesMove};
ghost use Rattle.sheep_world.specs.Run.{Moment};
ghost use Rattle.sheep_world.specs.RunsWithAsks.{Move, run_with_asks};
ghost use Rattle.sheep_world.specs.Step.{EventOutcome};
ghost use Rattle.overlap_law.specs.CheckDone.{ChecksLeaveOneValue, EachCheckLeavesOneValue, HasOneValue, HasReplyToCheck};
ghost use Rattle.overlap_law.specs.CheckDone.{IsOfCheckUnderWay, begins_on_block};
ghost use Rattle.overlap_law.specs.Headline.{ledger_of};
ghost use Rattle.overlap_law.specs.MomentChanges.{RunsAreInRange};
ghost use Rattle.overlap_law.specs.Past.{MomentWithPast, next_moment, run_with_past};

/// In each run in range, after a move that replies to a check and doesn't refuse it: each block that the disk has in its own objects, by
/// the table that the check's session has, has one value. The last write of it is the check's, and acknowledged; so the block isn't torn,
/// and unless the disk is deleted no read may give other bytes. For the check wrote each, and nobody else begins writes of the disk.
pub fn what_is_checked_is_one_value()
    ensures { (script : List Statement) (moves : List Move) (move : Move) (before after : MomentWithPast) → RunsAreInRange script
        → run_with_past script moves ≡ Some before → next_moment script move before ≡ Some after → ChecksLeaveOneValue before after }
{}

/// And it keeps this value, of each run in range, until a write of the block begins: nothing else that comes in the history changes it.
pub fn what_is_checked_stays_one_value()
    ensures { (script : List Statement) (moves : List Move) (moment : MomentWithPast) → RunsAreInRange script
        → run_with_past script moves ≡ Some moment → (history later : List HistEvent) → moment.past.history ≡ history ++ later
        → (vid block req : ℕ) (bytes : List ℕ) → HasOneValue (ledger_of history) vid block req bytes
        → list_any (begins_on_block vid block) later ≡ false → HasOneValue (ledger_of moment.past.history) vid block req bytes }
{}

/// In each run in range each reply to a check of the script that isn't a refusal is of one that the node, which is up, has under way in the
/// moment before the move, on the disk that the session has open and on which the check began; or this disk has no own objects. For a check
/// replies at once only where it has nothing to compare, and else as a work of it is done, which no request has that comes with the move.
pub fn what_is_checked_was_under_way()
    ensures { (script : List Statement) (moves : List Move) (move : Move) (before after : MomentWithPast) → RunsAreInRange script
        → run_with_past script moves ≡ Some before → next_moment script move before ≡ Some after → (req session : ℕ)
        → HasReplyToCheck script after.world req session → IsOfCheckUnderWay script move before after req session }
{}

/// So behind each such reply each block of this disk that is in its own objects has one value, by the table and the size that the session's
/// disk has in the moment before the move.
pub fn each_check_leaves_one_value()
    ensures { (script : List Statement) → RunsAreInRange script → (moves : List Move) (last : Moment)
        → run_with_asks script moves ≡ Some last → (event : Event) (made : EventOutcome) → MakesMove script event last.world made
        → EachCheckLeavesOneValue script event last.world last.history made }
{}
