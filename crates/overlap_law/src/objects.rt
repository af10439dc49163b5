//! Laws of what nodes lack: a message for a disk that is there finds its object where it goes.
ghost use Rattle.std.specs.Prelude.{◌≡◌, List, Some};
ghost use Rattle.cluster_script.specs.declared.statement.Statement.{Statement};
ghost use Rattle.vdi_directory.specs.Decisions.{log_effects};
ghost use Rattle.sheep_node.specs.declared.event.Event.{Event};
ghost use Rattle.sheep_world.specs.Step.{EventOutcome, step};
ghost use Rattle.sheep_world.specs.RunsWithAsks.{Move};
ghost use Rattle.sheep_world.specs.Began.{MakesMove};
ghost use Rattle.overlap_law.specs.AskedTargets.{AsksGoToTargets};
ghost use Rattle.overlap_law.specs.Fates.{CreatesComeFirst};
ghost use Rattle.overlap_law.specs.Holders.{targets_by, is_good, is_available_disk};
ghost use Rattle.overlap_law.specs.Lists.{WhatIsNotPendingIsThere};
ghost use Rattle.overlap_law.specs.MomentChanges.{IsOnTheWay, RunsAreInRange};
ghost use Rattle.overlap_law.specs.NoObjects.{NothingIsLacked, NoObjectIsMissing, NoObjects};
ghost use Rattle.overlap_law.specs.Overlap.{OverlapGivesObjects};
ghost use Rattle.overlap_law.specs.Past.{MomentWithPast, run_with_past};
ghost use Rattle.overlap_law.specs.Tables.{every_id, TablesAreMade, PublishedInodesAreMade};

/// In each run in range a request in the wire that asks for a row goes to a target of the object in the request's epoch, under the index of
/// the target's part: for it is of a work, and a work begins with the targets of its node's epoch, by the policy of its object.
pub fn rows_are_asked_of_targets()
    ensures { (script : List Statement) (moves : List Move) (moment : MomentWithPast) → RunsAreInRange script
        → run_with_past script moves ≡ Some moment → AsksGoToTargets moment.world }
{}

/// In each run in range each change on the way of an event leaves that no message of an open work is refused for want of its object, and
/// that no reply on its way says so, where the message is for a disk that was available up to the end of the event, and is neither deleted
/// nor given back. This is so if it holds where the event starts, and what a node with a finished list hasn't pending is there, a made
/// create comes before each write, and so it does for what tables name and for the inodes that are published. For a request goes to a
/// target of its object, which was created by the request's epoch; so the target has a row, or is still to recover it.
pub fn nothing_comes_to_be_lacked()
    ensures { (script : List Statement) (moves : List Move) (move : Move) (start end before after : MomentWithPast)
        → RunsAreInRange script → IsOnTheWay script moves move start end before after
        → CreatesComeFirst start.past.attempts
        → TablesAreMade (log_effects start.world.log) (is_available_disk start.world.log start.past.unavailable) start.world.hosts
        start.past.attempts
        → PublishedInodesAreMade start.world.log every_id start.past.attempts
        → WhatIsNotPendingIsThere (targets_by start.world.log) (log_effects start.world.log)
        (is_good start.world.log start.past.attempts start.past.unavailable) start.world.hosts start.past.attempts
        → NothingIsLacked (log_effects start.world.log) (is_available_disk start.world.log start.past.unavailable) start.world.hosts
        start.world.wire
        → NothingIsLacked (log_effects after.world.log) (is_available_disk end.world.log end.past.unavailable) after.world.hosts
        after.world.wire }
{}

/// In each run in range no object is missing at the event or client's read that comes next, if no message for a disk that was available,
/// and is neither deleted nor given back, is lacked before it: no reply of it says that a node doesn't have an object, where the request is
/// the script's, on a disk that is there by the log and was available. For only a node's step refuses a request so, and only one of whose
/// work a message was refused so, by its gateway's knowledge or by what the step is told; and that message was for the disk that the
/// request is on.
pub fn no_object_is_missing()
    ensures { (script : List Statement) (moves : List Move) (before : MomentWithPast) (event : Event) (made : EventOutcome)
        → RunsAreInRange script → run_with_past script moves ≡ Some before
        → NothingIsLacked (log_effects before.world.log) (is_available_disk before.world.log before.past.unavailable) before.world.hosts
        before.world.wire
        → MakesMove script event before.world made → NoObjectIsMissing script before made }
{}

/// The invariant gives that no object is missing, at each event that may come next in a run in range.
pub fn the_overlap_gives_objects()
    ensures { (script : List Statement) → OverlapGivesObjects script }
{}

/// In each run in range no message for a disk that was available, and is neither deleted nor given back, is lacked, and no object is
/// missing at the event or client's read that comes next. For what the tables of such disks name was created, and what a node with a
/// finished list hasn't pending is there.
pub fn no_object_is_lacked()
    ensures nowhere { (script : List Statement) → RunsAreInRange script
        → (moves : List Move) (moment : MomentWithPast) → run_with_past script moves ≡ Some moment
        → NothingIsLacked (log_effects moment.world.log) (is_available_disk moment.world.log moment.past.unavailable) moment.world.hosts
        moment.world.wire }
    ensures missing { (script : List Statement) → RunsAreInRange script → NoObjects script }
{}
