//! Laws of the group of rows: what each row of every run in range keeps.
ghost use Rattle.std.specs.Prelude.{◌≡◌, List, Some};
ghost use Rattle.cluster_script.specs.declared.statement.Statement.{Statement};
ghost use Rattle.cluster_script.specs.Language.{IsScript};
ghost use Rattle.vdi_directory.specs.Decisions.{log_effects};
ghost use Rattle.sheep_world.specs.Began.{Began};
ghost use Rattle.sheep_world.specs.LogHolds.{MayGrow};
ghost use Rattle.sheep_world.specs.World.{World};
ghost use Rattle.sheep_world.specs.RunsWithAsks.{Move};
ghost use Rattle.overlap_law.specs.Past.{MomentWithPast, run_with_past};
ghost use Rattle.overlap_law.specs.MomentChanges.{MomentChange, MomentTrail, RunsAreInRange};
ghost use Rattle.overlap_law.specs.Traffic.{MakersAreOfAttempts};
ghost use Rattle.overlap_law.specs.Holders.{targets_by, is_live_object};
ghost use Rattle.overlap_law.specs.BornObjects.{ObjectsWereBorn};
ghost use Rattle.overlap_law.specs.Rows.{RowsHaveEnds, OneRowIsOpen, RowsAreApart, RowsAreWhole, RowsAreAtTargets};
ghost use Rattle.overlap_law.specs.Rows.{RowsAreBegun, ServedRowsStay};

/// In each run in range the rows of an object at a node stand in turn: each begins no later than it ends, and a closed one of a node that
/// isn't lost has ended before the node's epoch; at most one is open; and no two cover one epoch.
pub fn rows_stand_in_turn()
    ensures ends { (script : List Statement) (moves : List Move) (moment : MomentWithPast) → RunsAreInRange script
        → run_with_past script moves ≡ Some moment → RowsHaveEnds moment.world.hosts }
    ensures one_open { (script : List Statement) (moves : List Move) (moment : MomentWithPast) → RunsAreInRange script
        → run_with_past script moves ≡ Some moment → OneRowIsOpen moment.world.hosts }
    ensures apart { (script : List Statement) (moves : List Move) (moment : MomentWithPast) → RunsAreInRange script
        → run_with_past script moves ≡ Some moment → RowsAreApart moment.world.hosts }
{}

/// In each run a row has the length of its object's parts, if in each world of a run there is room for one epoch more.
pub fn rows_are_whole()
    ensures { (script : List Statement) → IsScript script → ((world : World) → Began script world → MayGrow world)
        → (moves : List Move) (moment : MomentWithPast) → run_with_past script moves ≡ Some moment
        → RowsAreWhole (log_effects moment.world.log) moment.world.hosts }
{}

/// In each run in range a row's node is a target of the object in each epoch that the row covers, at the row's index.
pub fn rows_are_at_targets()
    ensures { (script : List Statement) (moves : List Move) (moment : MomentWithPast) → RunsAreInRange script
        → run_with_past script moves ≡ Some moment
        → RowsAreAtTargets (targets_by moment.world.log) (log_effects moment.world.log) moment.world.hosts }
{}

/// In each run in range a row of a live object begins with a create of its first epoch that its node served, or in an epoch that was
/// entered.
pub fn rows_are_begun()
    ensures { (script : List Statement) (moves : List Move) (moment : MomentWithPast) → RunsAreInRange script
        → run_with_past script moves ≡ Some moment
        → RowsAreBegun moment.world.log (is_live_object moment.world.log moment.past.attempts) moment.world.hosts moment.past.attempts }
{}

/// In each run in range a node that served an attempt on a live object has a row of the object that covers the attempt's epoch, unless the
/// node has read that a later epoch is settled. So it is at each moment on the way of an event, and at its end.
pub fn served_rows_stay()
    ensures { (script : List Statement) (moves : List Move) (start moment : MomentWithPast) → RunsAreInRange script
        → run_with_past script moves ≡ Some start → MomentTrail script start moment
        → ServedRowsStay (is_live_object moment.world.log moment.past.attempts) moment.world.hosts moment.past.attempts }
{}

/// Each request to create or write in the wire is a message of an attempt, to the target at its place: each change of a moment keeps that,
/// and so it is in each run in range.
pub fn requests_are_of_attempts()
    ensures change { (script : List Statement) (start before after : MomentWithPast) → RunsAreInRange script → Began script start.world
        → MomentChange script start before after → MakersAreOfAttempts before.world.wire before.past.attempts
        → MakersAreOfAttempts after.world.wire after.past.attempts }
    ensures run { (script : List Statement) (moves : List Move) (moment : MomentWithPast) → RunsAreInRange script
        → run_with_past script moves ≡ Some moment → MakersAreOfAttempts moment.world.wire moment.past.attempts }
{}

/// In each run in range what nodes have rows of, have still to recover, and search, and what their recoveries were told of, was born; so
/// was what lists on their way name. An object that is born with an event has nothing before it.
pub fn what_nodes_have_was_born()
    ensures { (script : List Statement) (moves : List Move) (moment : MomentWithPast) → RunsAreInRange script
        → run_with_past script moves ≡ Some moment
        → ObjectsWereBorn moment.world.hosts moment.world.wire moment.past.attempts }
{}
