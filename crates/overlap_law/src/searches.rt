//! Laws of the group of recoveries: what the recoveries of every run in range keep.
ghost use Rattle.std.specs.Prelude.{◌≡◌, ◌≢◌, ◌⊎◌, ℕ, ◌<◌, Bool, true, false, List, Some};
ghost use Rattle.cluster_script.specs.declared.statement.Statement.{Statement};
ghost use Rattle.vdi_directory.specs.Decisions.{log_effects};
ghost use Rattle.overlap_law.specs.Holders.{targets_by, is_object_among, is_dead_by_log};
ghost use Rattle.overlap_law.specs.Past.{MomentWithPast, run_with_past};
ghost use Rattle.overlap_law.specs.MomentChanges.{MomentChange, MomentTrail, RunsAreInRange};
ghost use Rattle.overlap_law.specs.Lists.{ListsComeFirst, TellersHaveCome, ListsAreWhole, PendingIsLacked};
ghost use Rattle.overlap_law.specs.Lists.{HasOpenRow, WhatIsNotPendingIsThere};
ghost use Rattle.std.specs.FinMap.{get};
ghost use Rattle.object_id.specs.declared.policy.Policy.{Policy};
ghost use Rattle.recovery.specs.Shown.{is_pending_object};
ghost use Rattle.recovery.specs.State.{is_listed};
ghost use Rattle.sheep_world.specs.World.{Host};
ghost use Rattle.sheep_world.specs.RunsWithAsks.{Move};
ghost use Rattle.overlap_law.specs.Searches.{SearchesAreOfTheFirst, LevelsAreAsked, ToldRowsAreTrue, ToldRowsAreSince, NoRowIsTrue};
ghost use Rattle.overlap_law.specs.Searches.{PassedLevelsLackRows};
ghost use Rattle.overlap_law.specs.Searches.{TheMadeIsNotMissing};
ghost use Rattle.overlap_law.specs.Rows.{IsMadeBy, RecoveredRowsAreKept, AttemptsAreCarried};
ghost use Rattle.overlap_law.specs.Each.{has_row_at, policy_in, index_of_part};
ghost use Rattle.overlap_law.specs.Since.{RowsAreSince};

/// In each run in range nothing is known to be pending, nothing is searched, and nothing is missing, before a recovery's list is finished;
/// and a search is of the first pending object, at a level from 1 to the one before the recovery's epoch. So it is at each moment on the
/// way of an event, and at its end.
pub fn searches_are_in_order()
    ensures listing { (script : List Statement) (moves : List Move) (start moment : MomentWithPast) → RunsAreInRange script
        → run_with_past script moves ≡ Some start → MomentTrail script start moment → ListsComeFirst moment.world.hosts }
    ensures first { (script : List Statement) (moves : List Move) (start moment : MomentWithPast) → RunsAreInRange script
        → run_with_past script moves ≡ Some start → MomentTrail script start moment → SearchesAreOfTheFirst moment.world.hosts }
{}

/// In each run in range, at each moment on the way of an event too, each node that told its objects or a row to a recovery came to the
/// recovery's epoch. So what it told stays so, of any object: a list has each object of which its node has a row from before that epoch,
/// and a node that told that it has no row of a level has none.
pub fn what_was_told_stays()
    ensures beyond { (script : List Statement) (moves : List Move) (start moment : MomentWithPast) → RunsAreInRange script
        → run_with_past script moves ≡ Some start → MomentTrail script start moment
        → TellersHaveCome moment.world.hosts moment.world.wire }
    ensures lists { (script : List Statement) (moves : List Move) (start moment : MomentWithPast) (live : ℕ → Bool)
        → RunsAreInRange script → run_with_past script moves ≡ Some start → MomentTrail script start moment
        → ListsAreWhole live moment.world.hosts moment.world.wire }
    ensures no_rows { (script : List Statement) (moves : List Move) (start moment : MomentWithPast) (good : ℕ → Bool)
        → RunsAreInRange script → run_with_past script moves ≡ Some start → MomentTrail script start moment
        → NoRowIsTrue good moment.world.hosts moment.world.wire }
{}

/// In each run in range, at each moment on the way of an event too, a pending object is one of which the node is a target in the recovered
/// epoch, and has no open row, and whose id it knows. For rows are at targets: an open one would be at the node's index there.
pub fn what_is_pending_is_lacked()
    ensures { (script : List Statement) (moves : List Move) (start moment : MomentWithPast) (live : ℕ → Bool) → RunsAreInRange script
        → run_with_past script moves ≡ Some start → MomentTrail script start moment
        → PendingIsLacked (targets_by moment.world.log) (log_effects moment.world.log) live moment.world.hosts }
{}

/// In each run in range, at each moment on the way of an event too, a row that was told to a recovery covers its level, at the index that
/// its node has there, whichever objects are called good.
pub fn told_rows_are_true()
    ensures { (script : List Statement) (moves : List Move) (start moment : MomentWithPast) (good : ℕ → Bool) → RunsAreInRange script
        → run_with_past script moves ≡ Some start → MomentTrail script start moment
        → ToldRowsAreTrue (targets_by moment.world.log) (log_effects moment.world.log) good moment.world.hosts moment.world.wire }
{}

/// Of each run in range, each change of a moment on the way of an event keeps that each row which a recovery was told has what it owes,
/// whichever objects are called good, if in the moment before the rows in stores have what they owe. For it is told by such a row; what its
/// node serves later is of the recovery's epoch or a later one; and an attempt of an earlier epoch that begins is doomed.
pub fn told_rows_keep_what_they_owe()
    ensures { (script : List Statement) (moves : List Move) (start before after : MomentWithPast) (good : ℕ → Bool)
        → RunsAreInRange script → run_with_past script moves ≡ Some start → MomentTrail script start before
        → MomentChange script start before after
        → RowsAreSince (log_effects before.world.log) good before.world.hosts before.past.attempts
        → ToldRowsAreSince (log_effects before.world.log) good before.world.hosts before.world.wire before.past.attempts
        → ToldRowsAreSince (log_effects after.world.log) good after.world.hosts after.world.wire after.past.attempts }
{}

/// In each run in range, at each moment on the way of an event too, while answers of a level are awaited and none was refused or lost,
/// those awaited and those kept are all that it is asked of: its targets that are members of the recovery's epoch, but for the node itself.
/// So it is of every object whose policy the log knows.
pub fn levels_are_asked()
    ensures { (script : List Statement) (moves : List Move) (start moment : MomentWithPast) (good : ℕ → Bool) → RunsAreInRange script
        → run_with_past script moves ≡ Some start → MomentTrail script start moment
        → LevelsAreAsked (targets_by moment.world.log) moment.world.log (log_effects moment.world.log) good moment.world.hosts }
{}

/// In each run in range, at each moment on the way of an event too, a level that a search has passed has rows of fewer indexes than a read
/// needs, at the targets that are members of the recovery's epoch. For a level is passed only once each node that it was asked of has told,
/// and too few rows are among that; and no step makes a row of a level before its node's epoch. So it is of every object, good or not.
pub fn what_a_search_passes_lacks_rows()
    ensures { (script : List Statement) (moves : List Move) (start moment : MomentWithPast) (good : ℕ → Bool) → RunsAreInRange script
        → run_with_past script moves ≡ Some start → MomentTrail script start moment
        → PassedLevelsLackRows (targets_by moment.world.log) moment.world.log (log_effects moment.world.log) good moment.world.hosts }
{}

/// Whichever objects are good, as long as their ids aren't dead: in each run in range each change of a moment on the way of an event leaves
/// nothing missing that was made before the recovery's epoch, if before the change nothing such is missing, the rows of recovered epochs
/// are kept, and attempts carried on. For an object is missing only once the level at which the nodes hold it has ended with too few rows,
/// and there are enough.
pub fn the_made_stays_unmissed()
    ensures { (script : List Statement) (moves : List Move) (start before after : MomentWithPast) → RunsAreInRange script
        → run_with_past script moves ≡ Some start → MomentTrail script start before → MomentChange script start before after
        → (good : ℕ → Bool) → ((oid : ℕ) → good oid ≡ true → is_dead_by_log before.world.log oid ≡ false)
        → RecoveredRowsAreKept (targets_by before.world.log) before.world.log (log_effects before.world.log) good before.world.hosts
        before.past.attempts
        → AttemptsAreCarried (targets_by before.world.log) before.world.log (log_effects before.world.log) good before.world.hosts
        before.past.attempts
        → TheMadeIsNotMissing good before.world.hosts before.past.attempts
        → TheMadeIsNotMissing good after.world.hosts after.past.attempts }
{}

/// Whichever objects are good, as long as their ids aren't dead: in each run in range each change of a moment on the way of an event keeps,
/// at a node whose list was finished before the change, in the same epoch, that of what was made up to that epoch, and of which the node is
/// a target, it has an open row, or the object is pending, if that was so before, and nothing that was made is missing after the change.
/// For an object is pending no more only once its row is there, or it is missing; and what is made later of an earlier epoch than the
/// recovery's is doomed.
pub fn what_was_there_stays_there()
    ensures { (script : List Statement) (moves : List Move) (start before after : MomentWithPast) → RunsAreInRange script
        → run_with_past script moves ≡ Some start → MomentTrail script start before → MomentChange script start before after
        → (good : ℕ → Bool) → ((oid : ℕ) → good oid ≡ true → is_dead_by_log after.world.log oid ≡ false)
        → TheMadeIsNotMissing good after.world.hosts after.past.attempts
        → WhatIsNotPendingIsThere (targets_by before.world.log) (log_effects before.world.log) good before.world.hosts before.past.attempts
        → (n : ℕ) (was now : Host) → get before.world.hosts n ≡ Some was → get after.world.hosts n ≡ Some now → now.is_lost ≡ false
        → is_listed was.node.recovery ≡ true → is_listed now.node.recovery ≡ true
        → was.node.recovery.epoch ≡ now.node.recovery.epoch → (oid index : ℕ) (policy : Policy) → good oid ≡ true
        → policy_in (log_effects after.world.log) oid ≡ Some policy
        → index_of_part (targets_by after.world.log) now.node.recovery.epoch oid policy (record { 0 = n }) ≡ Some index
        → IsMadeBy after.past.attempts oid now.node.recovery.epoch
        → (is_pending_object oid now.node.peer.pending ≡ true) ⊎ HasOpenRow now.node.peer.rows oid index }
{}

/// Whichever objects are good, as long as their ids aren't dead: in each run in range each change of a moment on the way of an event keeps
/// that what a node with a finished list hasn't pending it has, of all that was made up to its epoch. This is so if nothing that was made
/// is missing after the change; and if a list that is finished by the change, so not before in the same epoch, names each object that was
/// made before its epoch, or the node has a row of it.
pub fn what_isnt_pending_is_there()
    ensures { (script : List Statement) (moves : List Move) (start before after : MomentWithPast) → RunsAreInRange script
        → run_with_past script moves ≡ Some start → MomentTrail script start before → MomentChange script start before after
        → (good : ℕ → Bool) → ((oid : ℕ) → good oid ≡ true → is_dead_by_log after.world.log oid ≡ false)
        → TheMadeIsNotMissing good after.world.hosts after.past.attempts
        → ((n : ℕ) (now : Host) → get after.world.hosts n ≡ Some now → now.is_lost ≡ false → is_listed now.node.recovery ≡ true
        → ((was : Host) → get before.world.hosts n ≡ Some was → is_listed was.node.recovery ≡ true
        → was.node.recovery.epoch ≢ now.node.recovery.epoch) → (oid before_epoch : ℕ) → good oid ≡ true
        → before_epoch < now.node.recovery.epoch → IsMadeBy after.past.attempts oid before_epoch
        → (is_object_among oid now.node.recovery.lists.objects ≡ true)
        ⊎ ((level : ℕ) × (has_row_at now.node.peer.epoch now.node.peer.rows oid level ≡ true)))
        → WhatIsNotPendingIsThere (targets_by before.world.log) (log_effects before.world.log) good before.world.hosts before.past.attempts
        → WhatIsNotPendingIsThere (targets_by after.world.log) (log_effects after.world.log) good after.world.hosts after.past.attempts }
{}
