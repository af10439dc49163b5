//! Laws of the lists of recoveries: what is noted of a finished list, and that a finished list stays complete.
ghost use Rattle.std.specs.Prelude.{◌≡◌, ◌⊎◌, ℕ, ◌<◌, Bool, true, false, List, Some, None};
ghost use Rattle.std.specs.List.{find};
ghost use Rattle.std.specs.FinMap.{get};
ghost use Rattle.cluster_script.specs.declared.statement.Statement.{Statement};
ghost use Rattle.recovery.specs.State.{is_listed};
ghost use Rattle.vdi_directory.specs.Decisions.{log_effects};
ghost use Rattle.sheep_world.specs.World.{Host};
ghost use Rattle.sheep_world.specs.RunsWithAsks.{Move};
ghost use Rattle.overlap_law.specs.Past.{MomentWithPast, run_with_past};
ghost use Rattle.overlap_law.specs.MomentChanges.{MomentChange, MomentTrail, RunsAreInRange};
ghost use Rattle.overlap_law.specs.Facts.{is_list_of};
ghost use Rattle.overlap_law.specs.Holders.{targets_by, is_dead_by_log};
ghost use Rattle.overlap_law.specs.Lists.{ListsAreComplete, WhatIsNotPendingIsThere};
ghost use Rattle.overlap_law.specs.Rows.{RecoveredRowsAreKept, AttemptsAreCarried};
ghost use Rattle.overlap_law.specs.Searches.{TheMadeIsNotMissing};

/// In each run in range a node's finished list is noted once: none is noted of an epoch that the node's recovery hasn't come to, or in
/// which its list isn't finished. For a recovery goes on to later epochs alone, and in its epoch a finished list stays finished.
pub fn finished_lists_are_noted_once()
    ensures { (script : List Statement) (moves : List Move) (moment : MomentWithPast) → RunsAreInRange script
        → run_with_past script moves ≡ Some moment → (n : ℕ) (host : Host) → get moment.world.hosts n ≡ Some host → (epoch : ℕ)
        → (host.node.recovery.epoch < epoch) ⊎ ((epoch ≡ host.node.recovery.epoch) × (is_listed host.node.recovery ≡ false))
        → find (is_list_of n epoch) moment.past.listed ≡ None }
{}

/// In each run in range each change of a moment on the way of an event keeps that finished lists are complete, whichever objects are good,
/// as long as their ids aren't dead, if before it recovered rows were kept and after it attempts are carried. A list that was finished
/// names what it named, and what was noted of it stays noted; what is made late is of its epoch or a later one, as all members of it came
/// to it. A list that is finished now, also that of a recovery that begins so, has what the nodes hold at a level below, or the node itself
/// has a row of it; and none of this epoch was noted of the node before.
pub fn lists_stay_complete()
    ensures { (script : List Statement) (moves : List Move) (start before after : MomentWithPast) → RunsAreInRange script
        → run_with_past script moves ≡ Some start → MomentTrail script start before → MomentChange script start before after
        → (good : ℕ → Bool) → ((oid : ℕ) → good oid ≡ true → is_dead_by_log after.world.log oid ≡ false)
        → RecoveredRowsAreKept (targets_by before.world.log) before.world.log (log_effects before.world.log) good before.world.hosts
        before.past.attempts
        → AttemptsAreCarried (targets_by after.world.log) after.world.log (log_effects after.world.log) good after.world.hosts
        after.past.attempts
        → ListsAreComplete good before.past.listed before.world.hosts before.past.attempts
        → ListsAreComplete good after.past.listed after.world.hosts after.past.attempts }
{}

/// In each run in range each change of a moment on the way of an event keeps together, whichever objects are good, as long as their ids
/// aren't dead, and attempts are carried before it and after it: that recovered rows are kept, that finished lists are complete, that what
/// isn't pending is there, and that nothing is missing that was made. For who has recovered the settled epoch by the log had finished it
/// before the change, so the nodes hold after it what was made; so a list that is finished now names it, and none of it is missing or
/// passed over.
pub fn what_is_recovered_stays_kept()
    ensures { (script : List Statement) (moves : List Move) (start before after : MomentWithPast) → RunsAreInRange script
        → run_with_past script moves ≡ Some start → MomentTrail script start before → MomentChange script start before after
        → (good : ℕ → Bool) → ((oid : ℕ) → good oid ≡ true → is_dead_by_log after.world.log oid ≡ false)
        → AttemptsAreCarried (targets_by before.world.log) before.world.log (log_effects before.world.log) good before.world.hosts
        before.past.attempts
        → AttemptsAreCarried (targets_by after.world.log) after.world.log (log_effects after.world.log) good after.world.hosts
        after.past.attempts
        → RecoveredRowsAreKept (targets_by before.world.log) before.world.log (log_effects before.world.log) good before.world.hosts
        before.past.attempts
        → ListsAreComplete good before.past.listed before.world.hosts before.past.attempts
        → WhatIsNotPendingIsThere (targets_by before.world.log) (log_effects before.world.log) good before.world.hosts before.past.attempts
        → TheMadeIsNotMissing good before.world.hosts before.past.attempts
        → RecoveredRowsAreKept (targets_by after.world.log) after.world.log (log_effects after.world.log) good after.world.hosts
        after.past.attempts
        × ListsAreComplete good after.past.listed after.world.hosts after.past.attempts
        × WhatIsNotPendingIsThere (targets_by after.world.log) (log_effects after.world.log) good after.world.hosts after.past.attempts
        × TheMadeIsNotMissing good after.world.hosts after.past.attempts }
{}
