//! Laws of the group of inodes and tables: what inodes may come to have, and that what they and tables name was created.
ghost use Rattle.std.specs.Prelude.{◌≡◌, ℕ, Bool, true, false, List, slice_get, Some};
ghost use Rattle.std.specs.FinMap as tree;
ghost use Rattle.std.specs.List.{list_any};
ghost use Rattle.cluster_script.specs.declared.statement.Statement.{Statement};
ghost use Rattle.gateway.specs.Attempt as gateways;
ghost use Rattle.gateway.specs.declared.message.Status.{Status};
ghost use Rattle.gateway.specs.State.{Work};
ghost use Rattle.guest_driver.specs.declared.disk.Disk.{Disk};
ghost use Rattle.sheep_node.specs.Changes.{LearnsStatus};
ghost use Rattle.sheep_node.specs.declared.session.Session.{Session};
ghost use Rattle.sheep_node.specs.StepState.{StepState};
ghost use Rattle.sheep_world.specs.NodeCauses.{input_of_cause};
ghost use Rattle.sheep_world.specs.RunsWithAsks.{Move};
ghost use Rattle.vdi_directory.specs.Decisions.{log_effects};
ghost use Rattle.overlap_law.specs.Attempts.{AttemptRecord};
ghost use Rattle.overlap_law.specs.Drafts.{published_by};
ghost use Rattle.overlap_law.specs.Each.{EachAttempt, EachUp};
ghost use Rattle.object_id.specs.declared.entry.Entry.{Entry};
ghost use Rattle.object_id.specs.declared.oid.Vid.{Vid};
ghost use Rattle.object_id.specs.Oid.{inode_number};
ghost use Rattle.overlap_law.specs.Fates.{IsCreated};
ghost use Rattle.overlap_law.specs.Grants.{publishes, published_in};
ghost use Rattle.overlap_law.specs.Holders.{is_available_disk};
ghost use Rattle.overlap_law.specs.MadeTables.{TablesNameWhatIsMade};
ghost use Rattle.overlap_law.specs.MomentChanges.{MomentChange, MomentTrail, IsOnTheWay, RunsAreInRange};
ghost use Rattle.overlap_law.specs.NamedWorks.{InodesNameWhatIsMade};
ghost use Rattle.overlap_law.specs.OpenWorks.{IsOpenAs};
ghost use Rattle.overlap_law.specs.Past.{MomentWithPast, run_with_past};
ghost use Rattle.overlap_law.specs.Sessions.{HoldsDisk};
ghost use Rattle.overlap_law.specs.StepMoments.{SteppingNode, IsStepping, StepsByChanges, LeadsInStep, first_in_step};
ghost use Rattle.overlap_law.specs.StepMoments.{moment_in_step};
ghost use Rattle.overlap_law.specs.Tables.{entry_by, candidates, PublishedInodesAreMade};
ghost use Rattle.overlap_law.specs.Tables.{TablesAreOfTheChain};
ghost use Rattle.overlap_law.specs.ToCome.{IsToCome, IsEntryToCome};
ghost use Rattle.overlap_law.specs.Words.{is_made};

/// Of each run in range, an object that was created by an epoch stays so, over each change of a moment on the way of an event: a create
/// that is made stays made.
pub fn what_was_created_stays_created()
    ensures { (script : List Statement) (moves : List Move) (start before after : MomentWithPast) → RunsAreInRange script
        → run_with_past script moves ≡ Some start → MomentTrail script start before → MomentChange script start before after
        → (oid epoch : ℕ) → IsCreated before.past.attempts oid epoch → IsCreated after.past.attempts oid epoch }
{}

/// In each run in range the inode of an id that is published was created by the epoch of its publication, whichever ids are good, at each
/// moment on the way of an event: of an id that isn't deleted, and also of one that was published once and is. And at the end of every
/// event the inode of an id that an entry in an outbox publishes was created by the epoch of its node: a command puts such an entry once
/// its node has learned that the inode is made.
pub fn published_inodes_are_made()
    ensures published { (script : List Statement) (moves : List Move) (start moment : MomentWithPast) → RunsAreInRange script
        → run_with_past script moves ≡ Some start → MomentTrail script start moment → (good_id : ℕ → Bool)
        → PublishedInodesAreMade moment.world.log good_id moment.past.attempts }
    ensures once { (script : List Statement) (moves : List Move) (start moment : MomentWithPast) → RunsAreInRange script
        → run_with_past script moves ≡ Some start → MomentTrail script start moment
        → (vid : ℕ) → list_any (publishes vid) (log_effects moment.world.log) ≡ true
        → IsCreated moment.past.attempts (inode_number vid) (published_in moment.world.log vid) }
    ensures to_publish { (script : List Statement) (moves : List Move) (moment : MomentWithPast) → RunsAreInRange script
        → run_with_past script moves ≡ Some moment → EachUp moment.world.hosts (λ n node. (place : ℕ) (entry : Entry) (vid : Vid)
        → slice_get node.outbox place ≡ Some entry → published_by entry ≡ Some vid
        → IsCreated moment.past.attempts (inode_number vid.0) node.peer.epoch) }
{}

/// Of each run in range, over each change of a moment on the way of an event a unit may come to be read by an attempt that was there only
/// if it might before: an attempt that comes to nothing does so still, and one that is made stays made. So only an attempt that begins
/// adds to what may come of a unit.
pub fn what_may_come_might_before()
    ensures { (script : List Statement) (moves : List Move) (start before after : MomentWithPast) → RunsAreInRange script
        → run_with_past script moves ≡ Some start → MomentTrail script start before → MomentChange script start before after
        → (oid unit j : ℕ) (was now : AttemptRecord) → slice_get before.past.attempts j ≡ Some was
        → IsToCome after.world.hosts after.past.attempts oid unit j now
        → IsToCome before.world.hosts before.past.attempts oid unit j was }
{}

/// In each run in range, at each moment on the way of an event: an entry that an inode may be read to have is that of an attempt by which
/// it may come to be read.
pub fn candidates_are_of_what_may_come()
    ensures { (script : List Statement) (moves : List Move) (start moment : MomentWithPast) → RunsAreInRange script
        → run_with_past script moves ≡ Some start → MomentTrail script start moment
        → (vid index p entry : ℕ) (entries : List ℕ) → candidates moment.past.attempts vid index ≡ Some entries
        → slice_get entries p ≡ Some entry
        → (j : ℕ) × (attempt : AttemptRecord) × IsEntryToCome moment.world.hosts moment.past.attempts vid index j attempt
        × (entry_by index attempt ≡ entry) }
{}

/// Of each run in range: where a node learns in the middle of its step that each message of an open create or write succeeded, the attempt
/// is made. For what it knew of the others fits their fates, and what it is told then was served before.
pub fn what_is_done_was_made()
    ensures { (script : List Statement) (moves : List Move) (start : MomentWithPast) (stepping : SteppingNode) (so_far : StepState)
        → RunsAreInRange script → run_with_past script moves ≡ Some start → IsStepping script start.world stepping
        → StepsByChanges stepping.cause → LeadsInStep stepping (first_in_step stepping) so_far
        → MomentTrail script start (moment_in_step script stepping start so_far)
        → (req number : ℕ) (work : Work) (current : gateways.Attempt) (status : Status)
        → LearnsStatus (input_of_cause stepping.cause) stepping.host.node so_far req number work current status
        → gateways.is_done work.work (gateways.messages_with_status number status current.messages) ≡ true
        → EachAttempt (moment_in_step script stepping start so_far).past.attempts
        (λ j attempt. IsOpenAs so_far.node req work current attempt
        → is_made attempt ≡ true) }
{}

/// In each run in range, of disks that were available up to there: the entries of sessions' tables, and of the inodes that commands are to
/// open, stand for objects that were created by the epoch of their node, if the disk isn't dead; the entries that attempts gave to inodes
/// stand for objects that were created by the attempt's epoch, whichever objects are live; and those that works are to give to inodes, for
/// objects that were created by now. So it is at each moment on the way of an event too, of the disks that are available up to the event's
/// end.
pub fn what_is_named_is_made()
    ensures tables { (script : List Statement) (moves : List Move) (moment : MomentWithPast) → RunsAreInRange script
        → run_with_past script moves ≡ Some moment
        → TablesNameWhatIsMade (log_effects moment.world.log) (is_available_disk moment.world.log moment.past.unavailable)
        moment.world.hosts moment.past.attempts }
    ensures inodes { (script : List Statement) (moves : List Move) (moment : MomentWithPast) → RunsAreInRange script
        → run_with_past script moves ≡ Some moment → (live : ℕ → Bool)
        → InodesNameWhatIsMade live (is_available_disk moment.world.log moment.past.unavailable) moment }
    ensures tables_on_the_way { (script : List Statement) (moves : List Move) (move : Move) (start end before after : MomentWithPast)
        → RunsAreInRange script → IsOnTheWay script moves move start end before after
        → TablesNameWhatIsMade (log_effects after.world.log) (is_available_disk end.world.log end.past.unavailable) after.world.hosts
        after.past.attempts }
    ensures inodes_on_the_way { (script : List Statement) (moves : List Move) (move : Move) (start end before after : MomentWithPast)
        → RunsAreInRange script → IsOnTheWay script moves move start end before after → (live : ℕ → Bool)
        → InodesNameWhatIsMade live (is_available_disk end.world.log end.past.unavailable) after }
{}

/// In each run in range, at each moment on the way of an event too, the own entries of the tables of open disks stand for objects that were
/// created by the epoch of their node, if the disk isn't dead, whether or not it was available. So such a table names none but the disk and
/// those above it, and of the disk itself what was created.
pub fn own_entries_of_tables_are_made()
    ensures { (script : List Statement) (moves : List Move) (start moment : MomentWithPast) → RunsAreInRange script
        → run_with_past script moves ≡ Some start → MomentTrail script start moment
        → TablesAreOfTheChain (log_effects moment.world.log) moment.world.hosts moment.past.attempts }
{}

/// In each run in range the inode of a disk that a session holds, and whose node has read the grant, was created by the node's epoch; and
/// so was that of each working disk that a session has open, also while the session lets it go. So it is at each moment on the way of an
/// event, and at its end.
pub fn inodes_of_working_disks_are_made()
    ensures held { (script : List Statement) (moves : List Move) (start moment : MomentWithPast) → RunsAreInRange script
        → run_with_past script moves ≡ Some start → MomentTrail script start moment → EachUp moment.world.hosts (λ n node. (number vid : ℕ)
        → HoldsDisk moment.world.log n number vid node → IsCreated moment.past.attempts (inode_number vid) node.peer.epoch) }
    ensures opened { (script : List Statement) (moves : List Move) (start moment : MomentWithPast) → RunsAreInRange script
        → run_with_past script moves ≡ Some start → MomentTrail script start moment → EachUp moment.world.hosts (λ n node. (number : ℕ)
        (session : Session) (disk : Disk) → tree.get node.sessions number ≡ Some session → session.disk ≡ Some disk
        → disk.snapshot ≡ false → IsCreated moment.past.attempts (inode_number disk.inode.vid) node.peer.epoch) }
{}
