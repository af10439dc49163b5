//! Laws of requests and their works: where the requests of nodes are, and what their works make of objects.

ghost use Rattle.std.specs.Prelude.{◌≡◌, ◌≢◌, ℕ, Bool, false, List, [], ◌∷◌, ◌++◌, All, Some, slice_index};
ghost use Rattle.object_id.specs.declared.entry.Entry.{Entry};
ghost use Rattle.object_id.specs.declared.entry.Entry.TheVariants.{Reserve};
ghost use Rattle.object_id.specs.declared.entry.Origin.TheVariants.{SnapshotOf};
ghost use Rattle.object_id.specs.declared.node.NodeId.{NodeId};
ghost use Rattle.object_id.specs.declared.oid.Vid.{Vid};
ghost use Rattle.vdi_directory.specs.declared.decision.Decision.TheVariants as decisions;
ghost use Rattle.epoch_log.specs.Appending.{IsReservable};
ghost use Rattle.cluster_script.specs.declared.statement.Statement.{Statement};
ghost use Rattle.vdi_directory.specs.Decisions.{log_effects, decision_after};
ghost use Rattle.vdi_directory.specs.declared.header.Header.{Header};
ghost use Rattle.vdi_directory.specs.Chains.{chain_of};
ghost use Rattle.vdi_directory.specs.Effects.{header_of, name_of};
ghost use Rattle.vdi_directory.specs.Dead.{is_dead};
ghost use Rattle.gateway.specs.declared.message.Status.{Status};
ghost use Rattle.gateway.specs.Attempt as gateways;
ghost use Rattle.gateway.specs.State.{Work};
ghost use Rattle.vdi_ops.specs.InodeWorks.{write_back};
ghost use Rattle.vdi_ops.specs.Op.{Opening, Working, Op};
ghost use Rattle.vdi_ops.specs.Tables.{table_in, inode_by};
ghost use Rattle.sheep_node.specs.declared.course.Course.TheVariants.{Commanding};
ghost use Rattle.sheep_node.specs.Changes.{EndsWork};
ghost use Rattle.sheep_node.specs.StepState.{StepState};
ghost use Rattle.sheep_world.specs.NodeCauses.{input_of_cause};
ghost use Rattle.overlap_law.specs.StepMoments.{SteppingNode, IsStepping, StepsByChanges, LeadsInStep, first_in_step, moment_in_step};
ghost use Rattle.overlap_law.specs.Each.{spec_in};
ghost use Rattle.sheep_world.specs.Began.{Began};
ghost use Rattle.sheep_world.specs.RunsWithAsks.{Move};
ghost use Rattle.overlap_law.specs.Past.{MomentWithPast, run_with_past};
ghost use Rattle.overlap_law.specs.MomentChanges.{MomentChange, MomentTrail, RunsAreInRange};
ghost use Rattle.overlap_law.specs.ShapedAttempts.{AreShaped};
ghost use Rattle.overlap_law.specs.Fates.{AttemptsAreWhole};
ghost use Rattle.overlap_law.specs.RequestsOfScript.{RequestsAreTheScripts};
ghost use Rattle.overlap_law.specs.Courses.{WorksAreWaitedFor};
ghost use Rattle.overlap_law.specs.NamedWorks.{NamesWhatIsMade, NewInodesNameWhatIsMade};
ghost use Rattle.overlap_law.specs.OpenTables.{CallsLive, EntriesAreOfTheChain, OpenTablesAreMade};
ghost use Rattle.overlap_law.specs.Tables.{EntriesAreMade, OwnEntriesAreMade};
ghost use Rattle.overlap_law.specs.ToDo.{WorksNameWhatIsMade};
ghost use Rattle.overlap_law.specs.WholeTables.{TablesAreWhole};

/// An attempt makes a whole object, as long as those of its disk are, or whole units inside it: blocks of a data object, and of an inode
/// bytes of the header and entries of the table. For it is of a work that its node had or asked for: a read or write goes by blocks, as
/// each request of a script does, and writes an entry after what it created; a command writes a tag, or the header with all entries; and
/// a check writes the value of a whole object. Each change of a moment keeps that, and so it is in each run in range, at each moment on
/// the way of an event too.
pub fn the_attempts_are_whole()
    ensures change { (script : List Statement) (start before after : MomentWithPast) → RunsAreInRange script → Began script start.world
        → MomentChange script start before after → AreShaped before
        → AttemptsAreWhole (log_effects before.world.log) before.past.attempts
        → AttemptsAreWhole (log_effects after.world.log) after.past.attempts }
    ensures run { (script : List Statement) (moves : List Move) (start moment : MomentWithPast) → RunsAreInRange script
        → run_with_past script moves ≡ Some start → MomentTrail script start moment
        → AttemptsAreWhole (log_effects moment.world.log) moment.past.attempts }
{}

/// In each run in range each request of a node that isn't lost, but for a client's read, is the script's of its number, of a session of the
/// node's incarnation, and has no reply there. It began on the disk that the session has open, if it is on one, and is at a place that its
/// statement allows: a read or write waits, or has the last pieces of what it asked left; a command waits for its first entry, or for what
/// that leads to; and a check has counted the own objects before the one that it is at.
pub fn requests_of_nodes_are_the_scripts()
    ensures { (script : List Statement) (moves : List Move) (moment : MomentWithPast) → RunsAreInRange script
        → run_with_past script moves ≡ Some moment → RequestsAreTheScripts script moment.world }
{}

/// In each run in range each work that is open, or waits for the inode, is the one that its request's driver, command or check waits for,
/// on the disk that the session has open: a read or write's by the entries of the open disk's table, a tag of the open disk's inode, an
/// inode of the id that was granted, or a check's value of the own object before those that it has left. Of no id it is asked here what
/// the table of an inode that is created is drawn from.
pub fn works_are_waited_for()
    ensures { (script : List Statement) (moves : List Move) (moment : MomentWithPast) → RunsAreInRange script
        → run_with_past script moves ≡ Some moment
        → WorksAreWaitedFor (log_effects moment.world.log) (λ (id : ℕ). false) moment.world.hosts moment.past.attempts }
{}

/// The disks above one are known by the log, and were made like it: so each entry of a table that is read, where it names a disk, names one
/// of this spec. And the id that is granted to take the place of a working disk is of that disk's spec.
pub fn tables_are_of_one_spec()
    ensures chain { (log : List Entry) (vid : ℕ) (header : Header) → All IsReservable log → header_of (log_effects log) vid ≡ Some header
        → All (λ (id : ℕ). spec_in (log_effects log) id ≡ Some header.spec) (vid ∷ chain_of (log_effects log) vid) }
    ensures table { (log : List Entry) (vid : ℕ) (header : Header) (bytes : List ℕ) (index : ℕ) → All IsReservable log
        → header_of (log_effects log) vid ≡ Some header
        → slice_index (table_in (vid ∷ chain_of (log_effects log) vid) header.spec bytes) index ≢ 0
        → spec_in (log_effects log) (slice_index (table_in (vid ∷ chain_of (log_effects log) vid) header.spec bytes) index)
        ≡ Some header.spec }
    ensures snapshot { (read : List Entry) (by : NodeId) (session : ℕ) (name tag : List ℕ) (vid old : Vid) (header : Header)
        → All IsReservable (read ++ Reserve by session name (SnapshotOf tag) ∷ [])
        → decision_after read (Reserve by session name (SnapshotOf tag)) ≡ decisions.Granted vid
        → (name_of (log_effects read) name).working ≡ Some old
        → header_of (log_effects (read ++ Reserve by session name (SnapshotOf tag) ∷ [])) vid.0 ≡ Some header
        → spec_in (log_effects (read ++ Reserve by session name (SnapshotOf tag) ∷ [])) old.0 ≡ Some header.spec }
{}

/// In each run in range, at each moment on the way of an event too, the table of a disk that a session has open at a node that isn't lost
/// names none but the disk and those above it, and has an entry for each object of the disk. For a table that is read keeps no other
/// entries, a write enters the disk's own id, and the id that takes the place of a disk is its child.
pub fn tables_are_of_the_chain()
    ensures chain { (script : List Statement) (moves : List Move) (start moment : MomentWithPast) → RunsAreInRange script
        → run_with_past script moves ≡ Some start → MomentTrail script start moment
        → EntriesAreOfTheChain (log_effects moment.world.log) moment.world.hosts }
    ensures whole { (script : List Statement) (moves : List Move) (start moment : MomentWithPast) → RunsAreInRange script
        → run_with_past script moves ≡ Some start → MomentTrail script start moment → TablesAreWhole moment.world.hosts }
{}

/// In runs in range each change of a moment keeps that the own entries of the tables of open disks, and of the inodes that commands are to
/// open, stand for objects that were created by their node's epoch, where the disk isn't dead. It does so if in the moment before it what
/// works write into inodes names what was created, and so do the own entries that attempts gave to inodes: what is read of an inode as its
/// disk is opened has its entries of those.
pub fn own_entries_of_tables_stay_made()
    ensures { (script : List Statement) (moves : List Move) (start before after : MomentWithPast) (live good_id : ℕ → Bool)
        → RunsAreInRange script → run_with_past script moves ≡ Some start → MomentTrail script start before
        → MomentChange script start before after
        → WorksNameWhatIsMade (log_effects before.world.log) good_id before.world.hosts before.past.attempts
        → CallsLive live before.world.log before.past.attempts → OwnEntriesAreMade live before.past.attempts
        → OpenTablesAreMade (log_effects before.world.log) before.world.hosts before.past.attempts
        → OpenTablesAreMade (log_effects after.world.log) after.world.hosts after.past.attempts }
{}

/// In runs in range each change of a moment keeps that the entries which works give to inodes stand for objects that were created by the
/// epoch of the node that has the work to do, whichever ids are good, and likewise the entries that say "own". It does so if the entries
/// that attempts gave to inodes do, and those of an inode that a command creates next. For a work that is to do after a change was to do
/// before, or was asked for just then; of what reads and writes ask for only the write of an entry is on an inode, which follows the
/// creation of its object; an opening writes back the entries that it read; and a tag and a check's value go over no entry.
pub fn works_keep_naming_what_is_made()
    ensures { (script : List Statement) (moves : List Move) (start before after : MomentWithPast) (live good_id : ℕ → Bool)
        → RunsAreInRange script → run_with_past script moves ≡ Some start → MomentTrail script start before
        → MomentChange script start before after → CallsLive live before.world.log before.past.attempts
        → EntriesAreMade (log_effects before.world.log) live good_id before.past.attempts
        → OwnEntriesAreMade live before.past.attempts → NewInodesNameWhatIsMade script good_id start before
        → WorksNameWhatIsMade (log_effects before.world.log) good_id before.world.hosts before.past.attempts
        → WorksNameWhatIsMade (log_effects after.world.log) good_id after.world.hosts after.past.attempts }
{}

/// In runs in range: where in the middle of a step an opening has read the inode of a disk that isn't dead, what it writes back to it names
/// what was created by the epoch of its node, whichever ids are good, and its entries that say "own" do, if the entries that attempts gave
/// to inodes do: they are those that were read.
pub fn what_is_written_back_names_what_is_made()
    ensures { (script : List Statement) (moves : List Move) (start : MomentWithPast) (stepping : SteppingNode) (so_far : StepState)
        (live good_id : ℕ → Bool) → RunsAreInRange script → run_with_past script moves ≡ Some start
        → IsStepping script start.world stepping → StepsByChanges stepping.cause → LeadsInStep stepping (first_in_step stepping) so_far
        → MomentTrail script start (moment_in_step script stepping start so_far)
        → CallsLive live (moment_in_step script stepping start so_far).world.log (moment_in_step script stepping start so_far).past.attempts
        → EntriesAreMade (log_effects (moment_in_step script stepping start so_far).world.log) live good_id
        (moment_in_step script stepping start so_far).past.attempts
        → OwnEntriesAreMade live (moment_in_step script stepping start so_far).past.attempts
        → (session req number : ℕ) (work : Work) (attempt : gateways.Attempt) (status : Status) (op : Op) (bytes : List ℕ) (vid : Vid)
        (snapshot : Bool) (ids : List ℕ) (header : Header)
        → EndsWork (input_of_cause stepping.cause) stepping.host.node so_far session req number work attempt status (Commanding op) bytes
        → op.stage ≡ Working vid (Opening snapshot ids header)
        → is_dead (log_effects (moment_in_step script stepping start so_far).world.log) vid.0 ≡ false
        → NamesWhatIsMade (log_effects (moment_in_step script stepping start so_far).world.log) good_id
        (moment_in_step script stepping start so_far).past.attempts so_far.node.peer.epoch
        (write_back (inode_by header vid.0 (table_in ids header.spec bytes)) bytes) }
{}
