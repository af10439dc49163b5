//! Laws of the bytes of rows, in the group of rows: what each change of a moment keeps of them.
ghost use Rattle.std.specs.Prelude.{◌≡◌, ◌≢◌, ◌⊎◌, ℕ, ◌+◌, ◌<◌, ◌≤◌, Bool, true, false, List, length, slice_get, Some};
ghost use Rattle.cluster_script.specs.declared.statement.Statement.{Statement};
ghost use Rattle.gf256.specs.Part.{part, part_size};
ghost use Rattle.object_id.specs.declared.entry.Entry.{Entry};
ghost use Rattle.object_id.specs.declared.node.NodeId.{NodeId};
ghost use Rattle.object_id.specs.declared.policy.Policy.{Policy};
ghost use Rattle.object_id.specs.Fields.{zeros};
ghost use Rattle.object_id.specs.Oid.{kind_of};
ghost use Rattle.object_id.specs.Piece.{laid_over};
ghost use Rattle.peer_proto.specs.declared.work.ObjWork.TheVariants.{Create, Write};
ghost use Rattle.peer_proto.specs.Work.{IsWork};
ghost use Rattle.sheep_node.specs.StepState.{StepState};
ghost use Rattle.sheep_world.specs.NodeCauses.{EntryIsRead};
ghost use Rattle.sheep_world.specs.World.{Host};
ghost use Rattle.sheep_world.specs.RunsWithAsks.{Move};
ghost use Rattle.vdi_directory.specs.Decisions.{log_effects};
ghost use Rattle.overlap_law.specs.Attempts.{AttemptRecord, object_of};
ghost use Rattle.overlap_law.specs.Each.{EachAttempt, EachHost, EachRowOf, end_of_row, row_covers};
ghost use Rattle.overlap_law.specs.Fates.{AreUnits, AttemptsAreShaped, AttemptsAreOrdered, FatesAreOfTheWire};
ghost use Rattle.overlap_law.specs.Holders.{targets_by};
ghost use Rattle.overlap_law.specs.MomentChanges.{MomentChange, MomentTrail, RunsAreInRange};
ghost use Rattle.overlap_law.specs.Past.{MomentWithPast, run_with_past};
ghost use Rattle.overlap_law.specs.Rows.{RowsHaveEnds, RowsAreAtTargets, RowsAreBegun};
ghost use Rattle.overlap_law.specs.Searches.{ToldCopiesAreOfAttempts};
ghost use Rattle.overlap_law.specs.Since.{reading_of, owes_attempt, HasWhatItOwes, RowsAreSince, CopiesAreOfAttempts};
ghost use Rattle.overlap_law.specs.StepMoments.{SteppingNode, IsStepping, StepsByChanges, IsWithinStep, first_in_step, moment_in_step};
ghost use Rattle.overlap_law.specs.ToldPieces.{ToldPiecesAreOfAttempts};
ghost use Rattle.overlap_law.specs.Units.{covers_unit, row_bytes_at};
ghost use Rattle.overlap_law.specs.Words.{Hosts, has_served, is_doomed, is_mute};

/// Of each run in range, each change of a moment on the way of an event keeps that copies are of attempts, whichever objects it is said
/// of: at each unit a copy in a store has the bytes of some attempt that covers it. It does so if in the moment before the copies that
/// recoveries were told are of attempts.
pub fn copies_stay_of_attempts()
    ensures { (script : List Statement) (moves : List Move) (start before after : MomentWithPast) (live : ℕ → Bool)
        → RunsAreInRange script → run_with_past script moves ≡ Some start → MomentTrail script start before
        → MomentChange script start before after
        → ToldCopiesAreOfAttempts (log_effects before.world.log) live before.world.hosts before.world.wire before.past.attempts
        → CopiesAreOfAttempts (log_effects before.world.log) live before.world.hosts before.past.attempts
        → CopiesAreOfAttempts (log_effects after.world.log) live after.world.hosts after.past.attempts }
{}

/// In each run in range, at each moment on the way of an event too, copies are of attempts, in stores and as recoveries were told them,
/// whichever objects it is said of: at each unit such a copy has the bytes of some attempt that covers it.
pub fn copies_are_of_attempts()
    ensures stored { (script : List Statement) (moves : List Move) (start moment : MomentWithPast) (live : ℕ → Bool)
        → RunsAreInRange script → run_with_past script moves ≡ Some start → MomentTrail script start moment
        → CopiesAreOfAttempts (log_effects moment.world.log) live moment.world.hosts moment.past.attempts }
    ensures told { (script : List Statement) (moves : List Move) (start moment : MomentWithPast) (live : ℕ → Bool)
        → RunsAreInRange script → run_with_past script moves ≡ Some start → MomentTrail script start moment
        → ToldCopiesAreOfAttempts (log_effects moment.world.log) live moment.world.hosts moment.world.wire moment.past.attempts }
{}

/// In each run in range, at each moment on the way of an event too, what an open read, a client's too, is told of a copy is of attempts: at
/// each unit inside it a piece that is on its way back to the read has the bytes of some attempt that covers the unit, whether or not the
/// object is good.
pub fn what_reads_are_told_is_of_attempts()
    ensures { (script : List Statement) (moves : List Move) (start moment : MomentWithPast)
        → RunsAreInRange script → run_with_past script moves ≡ Some start → MomentTrail script start moment
        → ToldPiecesAreOfAttempts (log_effects moment.world.log) moment.world.hosts moment.world.wire moment.past.attempts }
{}

/// An attempt whose epoch a row of its object covers and reaches beyond was served by the row's node, or is doomed: at any moment at
/// which attempts are shaped and rows stand at targets. So where a row comes to reach a later epoch it owes nothing more that isn't
/// doomed.
pub fn what_a_node_passed_by_is_doomed()
    ensures { (moment : MomentWithPast)
        → AttemptsAreShaped (targets_by moment.world.log) moment.world.log moment.past.attempts
        → FatesAreOfTheWire moment.world.wire moment.past.attempts → RowsHaveEnds moment.world.hosts
        → RowsAreAtTargets (targets_by moment.world.log) (log_effects moment.world.log) moment.world.hosts
        → EachAttempt moment.past.attempts (λ j attempt. EachHost moment.world.hosts (λ n host.
        EachRowOf host.node.peer.rows (object_of attempt) (λ row. row_covers host.node.peer.epoch attempt.epoch row ≡ true
        → attempt.epoch < end_of_row host.node.peer.epoch row.to → has_served (record { 0 = n }) attempt ≡ false
        → is_doomed moment.world.hosts attempt ≡ true))) }
{}

/// In the middle of a node's step each change of the node keeps that each row of a good object has what it owes, whichever objects are
/// called good: an attempt that begins is owed by no row, or is doomed, since its targets have passed by its epoch. It does so if in the
/// moment behind it attempts are ordered, and rows stand at targets and have begun, of objects that are live.
pub fn rows_have_what_they_owe_as_attempts_begin()
    ensures { (script : List Statement) (moves : List Move) (start : MomentWithPast) (stepping : SteppingNode) (so_far next : StepState)
        (live good : ℕ → Bool) → RunsAreInRange script → run_with_past script moves ≡ Some start
        → IsStepping script start.world stepping → StepsByChanges stepping.cause → IsWithinStep stepping so_far next
        → MomentTrail script start (moment_in_step script stepping start so_far)
        → ((oid : ℕ) → good oid ≡ true → live oid ≡ true)
        → AttemptsAreOrdered (moment_in_step script stepping start next).world.wire
        (moment_in_step script stepping start next).past.attempts
        → RowsAreAtTargets (targets_by (moment_in_step script stepping start next).world.log)
        (log_effects (moment_in_step script stepping start next).world.log) (moment_in_step script stepping start next).world.hosts
        → RowsAreBegun (moment_in_step script stepping start next).world.log live (moment_in_step script stepping start next).world.hosts
        (moment_in_step script stepping start next).past.attempts
        → RowsAreSince (log_effects (moment_in_step script stepping start so_far).world.log) good
        (moment_in_step script stepping start so_far).world.hosts (moment_in_step script stepping start so_far).past.attempts
        → RowsAreSince (log_effects (moment_in_step script stepping start next).world.log) good
        (moment_in_step script stepping start next).world.hosts (moment_in_step script stepping start next).past.attempts }
{}

/// Once a node has read an entry each row of a good object has what it owes, at that node and at each other one, whichever objects are
/// called good, if before it rows have what they owe and stand at targets: a row that stays open into the next epoch owes nothing more
/// that isn't doomed, and one that ends owes as much as before.
pub fn rows_have_what_they_owe_as_entries_are_read()
    ensures { (script : List Statement) (moves : List Move) (start : MomentWithPast) (n : ℕ) (host : Host) (entry : Entry)
        (stepping : SteppingNode) (good : ℕ → Bool) → RunsAreInRange script → run_with_past script moves ≡ Some start
        → stepping ≡ record { n = n; host = host; cause = EntryIsRead entry } → IsStepping script start.world stepping
        → RowsAreAtTargets (targets_by start.world.log) (log_effects start.world.log) start.world.hosts
        → RowsAreSince (log_effects start.world.log) good start.world.hosts start.past.attempts
        → RowsAreSince (log_effects (moment_in_step script stepping start (first_in_step stepping)).world.log) good
        (moment_in_step script stepping start (first_in_step stepping)).world.hosts
        (moment_in_step script stepping start (first_in_step stepping)).past.attempts }
{}

/// A row that a served create makes has what it owes, of any list of attempts on its object, if the create covers each unit that one of
/// them covers, and each attempt that is owed is doomed or stands no later. And a row that a served write goes over has what it owes, if
/// it had what it owed but for the write.
pub fn served_rows_have_what_they_owe()
    ensures created { (oid : ℕ) (policy : Policy) (attempts : List AttemptRecord) (hosts : Hosts) (k : ℕ) (attempt : AttemptRecord)
        (node : NodeId) (index end served_to size offset : ℕ) (piece : List ℕ) → slice_get attempts k ≡ Some attempt
        → is_mute attempt ≡ false → attempt.work ≡ Create oid policy size offset piece → IsWork (Create oid policy size offset piece)
        → EachAttempt attempts (λ j one. (unit : ℕ) → covers_unit unit one ≡ true → covers_unit unit attempt ≡ true)
        → EachAttempt attempts (λ j one. owes_attempt node end served_to one ≡ true → (is_doomed hosts one ≡ true) ⊎ (j ≤ k))
        → HasWhatItOwes (reading_of policy oid) policy (kind_of oid) hosts attempts node index end served_to
        (laid_over (zeros (part_size policy (kind_of oid) size)) (part_size policy (kind_of oid) offset)
        (part policy (kind_of oid) index piece)) }
    ensures written { (oid : ℕ) (policy : Policy) (attempts : List AttemptRecord) (hosts : Hosts) (k : ℕ) (attempt : AttemptRecord)
        (node : NodeId) (index end served_to offset : ℕ) (piece row : List ℕ) → slice_get attempts k ≡ Some attempt
        → is_mute attempt ≡ false → attempt.work ≡ Write oid policy offset piece → IsWork (Write oid policy offset piece)
        → AreUnits (kind_of oid) offset (offset + length piece)
        → part_size policy (kind_of oid) offset + length (part policy (kind_of oid) index piece) ≤ length row
        → EachAttempt attempts (λ j one. owes_attempt node end served_to one ≡ true → (is_doomed hosts one ≡ true) ⊎ (j ≤ k))
        → EachAttempt attempts (λ j one. j ≢ k → (unit : ℕ) → covers_unit unit one ≡ true → owes_attempt node end served_to one ≡ true
        → (is_doomed hosts one ≡ true) ⊎ reading_of policy oid attempts unit j index (row_bytes_at policy (kind_of oid) unit row))
        → HasWhatItOwes (reading_of policy oid) policy (kind_of oid) hosts attempts node index end served_to
        (laid_over row (part_size policy (kind_of oid) offset) (part policy (kind_of oid) index piece)) }
{}
