//! Laws at the top: the runs of a script that an input spells are in range, and what then holds in every run.
ghost use Rattle.std.specs.Prelude.{◌≡◌, ℕ, ◌+◌, ◌≤◌, List, length, Some, Ok};
ghost use Rattle.object_id.specs.declared.limits.TheConstants.{INPUT_BYTES_MAX};
ghost use Rattle.cluster_script.specs.declared.statement.Statement.{Statement};
ghost use Rattle.cluster_script.specs.Script.{script_in};
ghost use Rattle.sheep_world.specs.Run.{Moment, run};
ghost use Rattle.sheep_node.specs.declared.event.Event.{Event};
ghost use Rattle.sheep_world.specs.RunsWithAsks.{Move};
ghost use Rattle.overlap_law.specs.Headline.{Headline};
ghost use Rattle.overlap_law.specs.MomentChanges.{RunsAreInRange};
ghost use Rattle.overlap_law.specs.Overlap.{OverlapOf};
ghost use Rattle.overlap_law.specs.Past.{MomentWithPast, next_moment, run_with_past};
ghost use Rattle.overlap_law.specs.HeadlineOfRuns.{RunKeepsHeadline};

/// A text spells no more statements than it has lines, so the runs of a script that an input spells are in range: one of no more bytes than
/// an input may have.
pub fn scripts_of_an_input_are_in_range()
    ensures few { (text : List ℕ) (script : List Statement) → script_in text ≡ Ok script → length script ≤ length text + 1 }
    ensures range { (text : List ℕ) (script : List Statement) → length text ≤ INPUT_BYTES_MAX → script_in text ≡ Ok script
        → RunsAreInRange script }
{}

/// The headline holds of each script whose runs are in range, also where a client reads objects between the events; and so of each script
/// that an input spells.
pub fn the_headline_holds()
    ensures in_range { (script : List Statement) → RunsAreInRange script → Headline script }
    ensures of_an_input { (text : List ℕ) (script : List Statement) → length text ≤ INPUT_BYTES_MAX → script_in text ≡ Ok script
        → Headline script }
    // So each run of events has it, in its own history, at its end and wherever it came by.
    ensures of_a_run { (script : List Statement) → RunsAreInRange script → (events : List Event) (last : Moment)
        → run script events ≡ Some last → RunKeepsHeadline script events last.history }
{}

/// In each run in range the whole invariant holds; so each event that may happen there, and each read that a client may make, leads to a
/// moment that has it.
pub fn the_overlap_holds_in_every_run()
    ensures in_run { (script : List Statement) → RunsAreInRange script → (moves : List Move) (moment : MomentWithPast)
        → run_with_past script moves ≡ Some moment → OverlapOf script moment }
    ensures by_event { (script : List Statement) → RunsAreInRange script → (moves : List Move) (move : Move)
        (before after : MomentWithPast) → run_with_past script moves ≡ Some before → next_moment script move before ≡ Some after
        → OverlapOf script after }
{}
