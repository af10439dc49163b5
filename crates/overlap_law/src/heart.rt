//! Laws of what the searches of recoveries rest on: at which level the nodes hold what was made, and what each change of a moment keeps of
//! it.
ghost use Rattle.std.specs.Prelude.{◌≡◌, ℕ, ◌<◌, Bool, true, false, List, length, Some};
ghost use Rattle.std.specs.FinMap.{get};
ghost use Rattle.object_id.specs.declared.policy.Policy.{Policy};
ghost use Rattle.object_id.specs.Oid.{kind_of};
ghost use Rattle.object_id.specs.Policy.{need_of};
ghost use Rattle.vdi_directory.specs.Decisions.{log_effects};
ghost use Rattle.cluster_script.specs.declared.statement.Statement.{Statement};
ghost use Rattle.recovery.specs.State.{Search, search_on};
ghost use Rattle.sheep_node.specs.RecoveryView.{recovery_state_of};
ghost use Rattle.sheep_world.specs.World.{Host};
ghost use Rattle.sheep_world.specs.RunsWithAsks.{Move};
ghost use Rattle.overlap_law.specs.Past.{MomentWithPast, run_with_past};
ghost use Rattle.overlap_law.specs.MomentChanges.{MomentChange, MomentTrail, RunsAreInRange};
ghost use Rattle.overlap_law.specs.Holders.{targets_by, is_good, is_dead_by_log};
ghost use Rattle.overlap_law.specs.Each.{has_row_at, policy_in};
ghost use Rattle.overlap_law.specs.Lists.{WhatIsNotPendingIsThere};
ghost use Rattle.overlap_law.specs.Rows.{RecoveredRowsAreKept, AttemptsAreCarried};
ghost use Rattle.overlap_law.specs.Searches.{indexes_held, PassedLevelsLackRows};
ghost use Rattle.overlap_law.specs.HeldLevels.{TheMadeIsHeld, TheMadeCanBeFound, TheMadeIsListed, NoSearchHasPassed};
ghost use Rattle.overlap_law.specs.HeldLevels.{NewestHasTargets, NoneIsBeforeBirth};

/// In each run in range, at each moment on the way of an event at which attempts are carried and recovered rows are kept, the nodes hold
/// what was made, of each good object, at the level that is the greater of the attempt's epoch and the settled one: each target of the
/// level has a row that covers it, no node has read that a later epoch is settled, and as many of the targets as a read needs are members
/// of each later epoch. So a recovery of an epoch behind the settled one, whose list is finished, can find there what was made before its
/// epoch: the targets that are members of its epoch are enough, came to it, and have their rows. And the list has it, as each of them told
/// of what it has, or the node itself has such a row. Whichever objects are good, as long as their ids aren't dead.
pub fn what_is_made_is_held()
    ensures held { (script : List Statement) (moves : List Move) (start moment : MomentWithPast) → RunsAreInRange script
        → run_with_past script moves ≡ Some start → MomentTrail script start moment
        → (good : ℕ → Bool) → ((oid : ℕ) → good oid ≡ true → is_dead_by_log moment.world.log oid ≡ false)
        → RecoveredRowsAreKept (targets_by moment.world.log) moment.world.log (log_effects moment.world.log) good moment.world.hosts
        moment.past.attempts
        → AttemptsAreCarried (targets_by moment.world.log) moment.world.log (log_effects moment.world.log) good moment.world.hosts
        moment.past.attempts
        → TheMadeIsHeld (targets_by moment.world.log) moment.world.log (log_effects moment.world.log) good moment.world.hosts
        moment.past.attempts }
    ensures found { (script : List Statement) (moves : List Move) (start moment : MomentWithPast) → RunsAreInRange script
        → run_with_past script moves ≡ Some start → MomentTrail script start moment
        → (good : ℕ → Bool) → ((oid : ℕ) → good oid ≡ true → is_dead_by_log moment.world.log oid ≡ false)
        → RecoveredRowsAreKept (targets_by moment.world.log) moment.world.log (log_effects moment.world.log) good moment.world.hosts
        moment.past.attempts
        → AttemptsAreCarried (targets_by moment.world.log) moment.world.log (log_effects moment.world.log) good moment.world.hosts
        moment.past.attempts
        → TheMadeCanBeFound (targets_by moment.world.log) moment.world.log (log_effects moment.world.log) good moment.world.hosts
        moment.past.attempts }
    ensures listed { (script : List Statement) (moves : List Move) (start moment : MomentWithPast) → RunsAreInRange script
        → run_with_past script moves ≡ Some start → MomentTrail script start moment
        → (good : ℕ → Bool) → ((oid : ℕ) → good oid ≡ true → is_dead_by_log moment.world.log oid ≡ false)
        → RecoveredRowsAreKept (targets_by moment.world.log) moment.world.log (log_effects moment.world.log) good moment.world.hosts
        moment.past.attempts
        → AttemptsAreCarried (targets_by moment.world.log) moment.world.log (log_effects moment.world.log) good moment.world.hosts
        moment.past.attempts
        → TheMadeIsListed moment.world.log (log_effects moment.world.log) good moment.world.hosts moment.past.attempts }
{}

/// In each run in range, at each moment on the way of an event, no search has passed the level at which the nodes hold what was made of its
/// object before its recovery's epoch, if attempts are carried then, recovered rows are kept, and the levels that were passed lack rows:
/// the rows there are of as many different indexes as a read needs.
pub fn no_search_has_passed_what_is_made()
    ensures { (script : List Statement) (moves : List Move) (start moment : MomentWithPast) → RunsAreInRange script
        → run_with_past script moves ≡ Some start → MomentTrail script start moment
        → (good : ℕ → Bool) → ((oid : ℕ) → good oid ≡ true → is_dead_by_log moment.world.log oid ≡ false)
        → RecoveredRowsAreKept (targets_by moment.world.log) moment.world.log (log_effects moment.world.log) good moment.world.hosts
        moment.past.attempts
        → AttemptsAreCarried (targets_by moment.world.log) moment.world.log (log_effects moment.world.log) good moment.world.hosts
        moment.past.attempts
        → PassedLevelsLackRows (targets_by moment.world.log) moment.world.log (log_effects moment.world.log) good moment.world.hosts
        → NoSearchHasPassed moment.world.log good moment.world.hosts moment.past.attempts }
{}

/// Whichever objects are good: in each run in range each change of a moment on the way of an event carries the attempts on, if the newest
/// epoch has enough targets then, of each epoch that counts. For who is a member of an epoch and neither lost nor beyond it stays a member,
/// what is doomed stays so, and so does an epoch that is dying.
pub fn attempts_stay_carried()
    ensures { (script : List Statement) (moves : List Move) (start before after : MomentWithPast) → RunsAreInRange script
        → run_with_past script moves ≡ Some start → MomentTrail script start before → MomentChange script start before after
        → (good : ℕ → Bool)
        → NewestHasTargets (targets_by after.world.log) after.world.log (log_effects after.world.log) good after.past.attempts
        → AttemptsAreCarried (targets_by before.world.log) before.world.log (log_effects before.world.log) good before.world.hosts
        before.past.attempts
        → AttemptsAreCarried (targets_by after.world.log) after.world.log (log_effects after.world.log) good after.world.hosts
        after.past.attempts }
{}

/// In each run in range, after each change of a moment on the way of an event, the newest epoch has enough targets of each epoch that
/// counts, for each object that is good then, if no attempt on one is of an epoch before its object's birth. For what is good is available
/// at that moment, and who counts as a holder is up, and so a member of the newest epoch.
pub fn what_is_good_has_targets()
    ensures { (script : List Statement) (moves : List Move) (start before after : MomentWithPast) → RunsAreInRange script
        → run_with_past script moves ≡ Some start → MomentTrail script start before → MomentChange script start before after
        → NoneIsBeforeBirth (is_good after.world.log after.past.attempts after.past.unavailable) after.past.attempts
        → NewestHasTargets (targets_by after.world.log) after.world.log (log_effects after.world.log)
        (is_good after.world.log after.past.attempts after.past.unavailable) after.past.attempts }
{}

/// Whichever objects are good, as long as their ids aren't dead: in each run in range each change of a moment on the way of an event keeps
/// that a target which has recovered in an epoch has a row that covers it, of each object made by then, if after the change what a node
/// with a finished list hasn't pending is there.
pub fn recovered_rows_stay_kept()
    ensures { (script : List Statement) (moves : List Move) (start before after : MomentWithPast) → RunsAreInRange script
        → run_with_past script moves ≡ Some start → MomentTrail script start before → MomentChange script start before after
        → (good : ℕ → Bool) → ((oid : ℕ) → good oid ≡ true → is_dead_by_log after.world.log oid ≡ false)
        → WhatIsNotPendingIsThere (targets_by after.world.log) (log_effects after.world.log) good after.world.hosts after.past.attempts
        → RecoveredRowsAreKept (targets_by before.world.log) before.world.log (log_effects before.world.log) good before.world.hosts
        before.past.attempts
        → RecoveredRowsAreKept (targets_by after.world.log) after.world.log (log_effects after.world.log) good after.world.hosts
        after.past.attempts }
{}

/// In each run in range a change of a moment on the way of an event makes no row that covers a level below the epoch in which its node was:
/// a row begins with the node's epoch or a later one, and none grows backwards.
pub fn no_row_is_of_an_earlier_level()
    ensures { (script : List Statement) (moves : List Move) (start before after : MomentWithPast) → RunsAreInRange script
        → run_with_past script moves ≡ Some start → MomentTrail script start before → MomentChange script start before after
        → (n : ℕ) (was host : Host) → get before.world.hosts n ≡ Some was → get after.world.hosts n ≡ Some host → (oid level : ℕ)
        → level < was.node.peer.epoch → has_row_at host.node.peer.epoch host.node.peer.rows oid level ≡ true
        → has_row_at was.node.peer.epoch was.node.peer.rows oid level ≡ true }
{}

/// So at a level that a search had passed before the change fewer rows are than a read needs, also after it: who is a member of the
/// recovery's epoch came to that.
pub fn what_was_passed_lacks_rows()
    ensures { (script : List Statement) (moves : List Move) (start before after : MomentWithPast) → RunsAreInRange script
        → run_with_past script moves ≡ Some start → MomentTrail script start before → MomentChange script start before after
        → (good : ℕ → Bool)
        → PassedLevelsLackRows (targets_by before.world.log) before.world.log (log_effects before.world.log) good before.world.hosts
        → (n : ℕ) (was : Host) (search : Search) (policy : Policy) (level : ℕ) → get before.world.hosts n ≡ Some was
        → was.is_lost ≡ false → search_on (recovery_state_of was.node) ≡ Some search
        → good search.oid ≡ true → policy_in (log_effects before.world.log) search.oid ≡ Some policy → search.level < level
        → level < was.node.recovery.epoch
        → length (indexes_held (targets_by after.world.log) after.world.log after.world.hosts search.oid level was.node.recovery.epoch
        policy)
        < need_of policy (kind_of search.oid) }
{}
