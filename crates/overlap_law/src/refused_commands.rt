//! The law of commands that are refused.
ghost use Rattle.std.specs.Prelude.{◌≡◌, List, Some};
ghost use Rattle.cluster_script.specs.declared.statement.Statement.{Statement};
ghost use Rattle.sheep_world.specs.RunsWithAsks.{Move};
ghost use Rattle.overlap_law.specs.MomentChanges.{RunsAreInRange};
ghost use Rattle.overlap_law.specs.Past.{MomentWithPast, run_with_past};
ghost use Rattle.overlap_law.specs.RefusedCommands.{RefusedCommandsChangeNothing};

/// In each run in range an entry that publishes, replaces or deletes a disk was put for a request, and for none that is refused. And where
/// an entry that was put for a refused one reserved an id, or gave a lock, the unlock by which that is given back was put behind it, and
/// freed it unless nobody is given the id again by then; or it stands in its node's outbox, unless the node was lost.
pub fn refused_commands_change_nothing()
    ensures { (script : List Statement) (moves : List Move) (moment : MomentWithPast) → RunsAreInRange script
        → run_with_past script moves ≡ Some moment → RefusedCommandsChangeNothing script moment }
{}
