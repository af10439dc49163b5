//! Laws of how objects come to be: before each write of an object stands a made create of it, so no attempt is of an epoch before that in
//! which its object was born. By this what is good at the end of an event is carried on by each change on the way to it.
ghost use Rattle.std.specs.Prelude.{◌≡◌, ℕ, Bool, List, Some};
ghost use Rattle.cluster_script.specs.declared.statement.Statement.{Statement};
ghost use Rattle.vdi_directory.specs.Decisions.{log_effects};
ghost use Rattle.overlap_law.specs.Past.{MomentWithPast, run_with_past};
ghost use Rattle.overlap_law.specs.MomentChanges.{MomentChange, MomentTrail, IsOnTheWay, RunsAreInRange};
ghost use Rattle.overlap_law.specs.Attempts.{AttemptRecord};
ghost use Rattle.overlap_law.specs.BornObjects.{AttemptsAreOfTheBorn};
ghost use Rattle.overlap_law.specs.Fates.{CreatesComeFirst};
ghost use Rattle.overlap_law.specs.FirstCreates.{CreatesAlwaysComeFirst};
ghost use Rattle.overlap_law.specs.HeldLevels.{NewestHasTargets, NoneIsBeforeBirth};
ghost use Rattle.overlap_law.specs.Holders.{targets_by, is_good};
ghost use Rattle.overlap_law.specs.Rows.{AttemptsAreCarried};
ghost use Rattle.overlap_law.specs.Tables.{OwnEntriesAreMade, TablesAreOfTheChain};
ghost use Rattle.overlap_law.specs.ToDo.{WorksNameWhatIsMade};
ghost use Rattle.sheep_world.specs.RunsWithAsks.{Move};

/// In each run in range each change of a moment on the way of an event keeps that before each write of an object stands a made create of
/// it, whether or not the object was available, if before it the own entries of tables stand for what was made, and so do those of works
/// that are still to be made. For a write that begins goes to an inode of a working disk, which is published; or to an object of which the
/// open disk's table says that it is the disk's own, or of which that entry has just been written.
pub fn creates_come_first()
    ensures { (script : List Statement) (moves : List Move) (start before after : MomentWithPast) → RunsAreInRange script
        → run_with_past script moves ≡ Some start → MomentTrail script start before → MomentChange script start before after
        → (good_id : ℕ → Bool)
        → TablesAreOfTheChain (log_effects before.world.log) before.world.hosts before.past.attempts
        → WorksNameWhatIsMade (log_effects before.world.log) good_id before.world.hosts before.past.attempts
        → CreatesComeFirst before.past.attempts → CreatesComeFirst after.past.attempts }
{}

/// So in every run in range a made create of an object stands before each write of it, at each moment on the way of an event. And at the
/// end of each event an own entry that was written into an inode stands for an object that was created by then, whether the object is live
/// or not. All of this is carried together: the own entries of open tables, of works to do and of attempts stand for what was created; and
/// a new inode has none.
pub fn a_made_create_always_comes_first()
    ensures creates { (script : List Statement) → RunsAreInRange script → CreatesAlwaysComeFirst script }
    ensures own { (script : List Statement) → RunsAreInRange script → (moves : List Move) (moment : MomentWithPast)
        → run_with_past script moves ≡ Some moment → (live : ℕ → Bool) → OwnEntriesAreMade live moment.past.attempts }
{}

/// So no attempt is of an epoch before that in which its object was born, whichever objects are good, at each moment on the way of an
/// event: the attempts on an object are in order, and the first one is a create.
pub fn none_is_before_birth()
    ensures { (script : List Statement) (moves : List Move) (start moment : MomentWithPast) → RunsAreInRange script
        → run_with_past script moves ≡ Some start → MomentTrail script start moment → CreatesComeFirst moment.past.attempts
        → (good : ℕ → Bool) → NoneIsBeforeBirth good moment.past.attempts }
{}

/// Where a made create comes before each write, each attempt is on an object that was born.
pub fn attempts_are_of_the_born()
    ensures { (attempts : List AttemptRecord) → CreatesComeFirst attempts → AttemptsAreOfTheBorn attempts }
{}

/// In each run in range, after each change of a moment on the way of an event, the newest epoch has enough targets of each epoch that
/// counts, for each object that is good at the end of the event, if a made create comes before each write. For a node's step leaves the
/// log, and the attempts that begin in it stand behind the first create of their object.
pub fn what_is_good_at_the_end_has_targets()
    ensures { (script : List Statement) (moves : List Move) (move : Move) (start end before after : MomentWithPast)
        → RunsAreInRange script → IsOnTheWay script moves move start end before after → CreatesComeFirst after.past.attempts
        → NewestHasTargets (targets_by after.world.log) after.world.log (log_effects after.world.log)
        (is_good end.world.log end.past.attempts end.past.unavailable) after.past.attempts }
{}

/// So each change on the way of an event carries on the attempts on what is good at the end of the event.
pub fn attempts_stay_carried_to_the_end()
    ensures { (script : List Statement) (moves : List Move) (move : Move) (start end before after : MomentWithPast)
        → RunsAreInRange script → IsOnTheWay script moves move start end before after → CreatesComeFirst after.past.attempts
        → AttemptsAreCarried (targets_by before.world.log) before.world.log (log_effects before.world.log)
        (is_good end.world.log end.past.attempts end.past.unavailable) before.world.hosts before.past.attempts
        → AttemptsAreCarried (targets_by after.world.log) after.world.log (log_effects after.world.log)
        (is_good end.world.log end.past.attempts end.past.unavailable) after.world.hosts after.past.attempts }
{}
