//! Laws of every run: the groups of rows and of recoveries, and what they give.
ghost use Rattle.std.specs.Prelude.{◌≡◌, List, Some};
ghost use Rattle.cluster_script.specs.declared.statement.Statement.{Statement};
ghost use Rattle.vdi_directory.specs.Decisions.{log_effects};
ghost use Rattle.overlap_law.specs.Past.{MomentWithPast, run_with_past};
ghost use Rattle.overlap_law.specs.MomentChanges.{RunsAreInRange};
ghost use Rattle.overlap_law.specs.Holders.{targets_by, is_live_object, is_good};
ghost use Rattle.overlap_law.specs.Groups.{RowsAreKept, SearchesAreKept};
ghost use Rattle.sheep_world.specs.RunsWithAsks.{Move};

/// The groups of rows and of recoveries hold in every run in range, of the objects that are live and good. Each change on the way of an
/// event keeps them, by the test for good objects of the moment at which the event ends: what is made is carried on to the newest epoch, as
/// what is good there has enough targets; so a recovery finds it at the level at which the nodes hold it, and passes no level by that has
/// enough rows; what it finds has what it owes; and nothing that was made is missing.
pub fn rows_and_recoveries_are_kept()
    ensures rows { (script : List Statement) → RunsAreInRange script → (moves : List Move)
        (moment : MomentWithPast) → run_with_past script moves ≡ Some moment
        → RowsAreKept (targets_by moment.world.log) moment.world.log (log_effects moment.world.log)
        (is_live_object moment.world.log moment.past.attempts)
        (is_good moment.world.log moment.past.attempts moment.past.unavailable) moment.world.hosts moment.past.attempts }
    ensures recoveries { (script : List Statement) → RunsAreInRange script → (moves : List Move)
        (moment : MomentWithPast) → run_with_past script moves ≡ Some moment
        → SearchesAreKept (targets_by moment.world.log) moment.world.log (log_effects moment.world.log)
        (is_live_object moment.world.log moment.past.attempts)
        (is_good moment.world.log moment.past.attempts moment.past.unavailable) moment.past.listed moment.world.hosts moment.world.wire
        moment.past.attempts }
{}
