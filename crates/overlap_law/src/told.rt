//! Laws of what open reads of sessions are told of good objects: it has what is owed, so it is what an object may come to have.
ghost use Rattle.std.specs.Prelude.{◌≡◌, ℕ, ◌+◌, ◌*◌, ◌-◌, ◌%◌, ◌<◌, ◌≤◌, Bool, true, false, All, List, length, map, slice_get, Some};
ghost use Rattle.std.specs.FinMap as tree;
ghost use Rattle.disk_history.specs.Ledger.{Ledger};
ghost use Rattle.cluster_script.specs.declared.statement.Statement.{Statement};
ghost use Rattle.gateway.specs.Attempt as gateways;
ghost use Rattle.gateway.specs.Attempt.{bytes_through};
ghost use Rattle.gateway.specs.declared.message.Message.{Message};
ghost use Rattle.gateway.specs.declared.message.Status.{Status};
ghost use Rattle.gateway.specs.State.{Work};
ghost use Rattle.gf256.specs.Part.{is_in_strips};
ghost use Rattle.gf256.specs.Polynomial.{ArePoints};
ghost use Rattle.gf256.specs.Strip.{IsBlock};
ghost use Rattle.guest_driver.specs.Pieces.{Piece as PieceOfRequest, AreBlocks};
ghost use Rattle.guest_driver.specs.PieceWorks.{read_piece};
ghost use Rattle.inode.specs.Layout.{Content};
ghost use Rattle.message_wire.specs.Message.{message_name};
ghost use Rattle.object_id.specs.declared.node.NodeId.{NodeId};
ghost use Rattle.object_id.specs.declared.limits.TheConstants.{BLOCK_BYTES, OBJECTS_MAX};
ghost use Rattle.object_id.specs.declared.oid.Kind.TheVariants.{Block};
ghost use Rattle.object_id.specs.declared.policy.Policy.TheVariants.{Coded};
ghost use Rattle.object_id.specs.Policy.{IsPolicy};
ghost use Rattle.object_id.specs.Oid.{IsVid, kind_of, object_number};
ghost use Rattle.object_store.specs.Bytes.{piece_at};
ghost use Rattle.peer_proto.specs.declared.say.PeerRsp.{PeerRsp};
ghost use Rattle.peer_proto.specs.declared.say.PeerSay.TheVariants.{Piece};
ghost use Rattle.peer_proto.specs.Work.{oid_of, policy_of};
ghost use Rattle.sheep_node.specs.declared.course.Course.{Course};
ghost use Rattle.sheep_node.specs.Changes.{EndsWork};
ghost use Rattle.sheep_node.specs.StepState.{StepState};
ghost use Rattle.sheep_world.specs.NodeCauses.{input_of_cause};
ghost use Rattle.sheep_world.specs.World.{Host};
ghost use Rattle.sheep_world.specs.RunsWithAsks.{Move};
ghost use Rattle.vdi_directory.specs.declared.effect.Effect.{Effect};
ghost use Rattle.vdi_directory.specs.Decisions.{log_effects};
ghost use Rattle.overlap_law.specs.Attempts.{AttemptRecord, object_of, attempts_on};
ghost use Rattle.overlap_law.specs.Each.{policy_in};
ghost use Rattle.overlap_law.specs.Fates.{IsCreated};
ghost use Rattle.overlap_law.specs.Holders.{is_good, is_available_disk};
ghost use Rattle.overlap_law.specs.InodesRead.{IsUnitToCome, ReadsAreToCome};
ghost use Rattle.overlap_law.specs.MomentChanges.{MomentChange, MomentTrail, TrailLeft, RunsAreInRange};
ghost use Rattle.overlap_law.specs.Overlap.{CallsFewer};
ghost use Rattle.overlap_law.specs.Packets.{IsAnswering};
ghost use Rattle.overlap_law.specs.Past.{MomentWithPast, next_moment, run_with_past};
ghost use Rattle.overlap_law.specs.RequestsOfScript.{is_of_client};
ghost use Rattle.overlap_law.specs.Sessions.{is_of_client_at};
ghost use Rattle.overlap_law.specs.Since.{RowsAreSince, AddNothingAfter};
ghost use Rattle.overlap_law.specs.StepMoments.{SteppingNode, IsStepping, StepsByChanges, LeadsInStep, first_in_step, moment_in_step};
ghost use Rattle.overlap_law.specs.ToldPieces.{IsUnansweredOf, offset_read, ToldPiecesAreSince, IsPartInside, part_in_piece, GaveStrip};
ghost use Rattle.overlap_law.specs.ToldReads.{PieceIsToCome};
ghost use Rattle.overlap_law.specs.Units.{unit_start, unit_size, unit_end, covers_unit, unit_part_by};
ghost use Rattle.overlap_law.specs.Words.{is_made};

/// Each change of a moment on the way of an event of a run in range keeps that what a session's open read is told has what is owed: a piece
/// of a good object, of a copy or of strips, that is on its way back to the read is cut of bytes that have what their node owed in the
/// read's epoch; whichever objects are good, if before the change rows have what they owe. For no attempt begins on the object of a
/// session's open read, and nothing is in flight of one of the read's epoch.
pub fn what_reads_are_told_has_what_is_owed()
    ensures { (script : List Statement) (moves : List Move) (start before after : MomentWithPast) (good : ℕ → Bool)
        → RunsAreInRange script → run_with_past script moves ≡ Some start → MomentTrail script start before
        → MomentChange script start before after
        → RowsAreSince (log_effects before.world.log) good before.world.hosts before.past.attempts
        → ToldPiecesAreSince (log_effects before.world.log) good before.world.hosts before.world.wire before.past.attempts
        → ToldPiecesAreSince (log_effects after.world.log) good after.world.hosts after.world.wire after.past.attempts }
{}

/// In each run in range what open reads of sessions are told of good objects has what is owed: at the end of every event, of what is good
/// then; and at each moment on the way of an event, of what is good at its end.
pub fn what_good_reads_are_told_has_what_is_owed()
    ensures in_run { (script : List Statement) (moves : List Move) (moment : MomentWithPast) → RunsAreInRange script
        → run_with_past script moves ≡ Some moment
        → ToldPiecesAreSince (log_effects moment.world.log)
        (is_good moment.world.log moment.past.attempts moment.past.unavailable) moment.world.hosts moment.world.wire
        moment.past.attempts }
    ensures by_the_end { (script : List Statement) (moves : List Move) (move : Move) (start moment end : MomentWithPast)
        → RunsAreInRange script → run_with_past script moves ≡ Some start → next_moment script move start ≡ Some end
        → MomentTrail script start moment → TrailLeft script start moment end
        → ToldPiecesAreSince (log_effects moment.world.log) (is_good end.world.log end.past.attempts end.past.unavailable)
        moment.world.hosts moment.world.wire moment.past.attempts }
{}

/// In each run in range, where a piece of a copy was on its way to a session's open read as an event began: at each moment on the way of
/// the event at which its message is unanswered, also once the step is told of it, each unit inside the piece is one that the object may
/// come to have, if an attempt that covers the unit is made, and the object was good as the event began.
pub fn what_a_read_is_told_is_to_come()
    ensures { (script : List Statement) (moves : List Move) (start moment : MomentWithPast) (n : ℕ) (now first : Host) (req place : ℕ)
        (work : Work) (current : gateways.Attempt) (message : Message) (from : NodeId) (rsp : PeerRsp) (bytes : List ℕ)
        (unit k : ℕ) (made : AttemptRecord)
        → RunsAreInRange script → run_with_past script moves ≡ Some start → MomentTrail script start moment
        → tree.get moment.world.hosts n ≡ Some now → now.is_lost ≡ false
        → IsUnansweredOf now.node.gateway.works req work current place message → is_of_client_at req now.node ≡ false
        → tree.get start.world.hosts n ≡ Some first → message.number < first.node.sends
        → IsAnswering start.world.wire (message_name n message.number) from rsp → rsp.say ≡ Piece bytes
        → is_good start.world.log start.past.attempts start.past.unavailable (oid_of work.work) ≡ true
        → policy_in (log_effects start.world.log) (oid_of work.work) ≡ Some (policy_of work.work)
        → is_in_strips (policy_of work.work) (kind_of (oid_of work.work)) ≡ false
        → offset_read work.work ≤ unit_start (kind_of (oid_of work.work)) unit
        → unit_end (kind_of (oid_of work.work)) unit ≤ offset_read work.work + length bytes
        → slice_get moment.past.attempts k ≡ Some made → object_of made ≡ oid_of work.work → covers_unit unit made ≡ true
        → is_made made ≡ true
        → IsUnitToCome moment.world.hosts moment.past.attempts (oid_of work.work) current.epoch.0 unit
        (piece_at bytes (unit_start (kind_of (oid_of work.work)) unit - offset_read work.work)
        (unit_size (kind_of (oid_of work.work)) unit)) }
{}

/// And of strips: a part of a unit, inside the piece that was told, is that of a made attempt that covers the unit, if each later one that
/// does so is mute or has the same parts of it.
pub fn what_a_read_is_told_of_strips_is_made()
    ensures { (script : List Statement) (moves : List Move) (start moment : MomentWithPast) (n : ℕ) (now first : Host) (req place : ℕ)
        (work : Work) (current : gateways.Attempt) (message : Message) (from : NodeId) (rsp : PeerRsp) (bytes : List ℕ)
        (unit j : ℕ) (made : AttemptRecord)
        → RunsAreInRange script → run_with_past script moves ≡ Some start → MomentTrail script start moment
        → tree.get moment.world.hosts n ≡ Some now → now.is_lost ≡ false
        → IsUnansweredOf now.node.gateway.works req work current place message → is_of_client_at req now.node ≡ false
        → tree.get start.world.hosts n ≡ Some first → message.number < first.node.sends
        → IsAnswering start.world.wire (message_name n message.number) from rsp → rsp.say ≡ Piece bytes
        → is_good start.world.log start.past.attempts start.past.unavailable (oid_of work.work) ≡ true
        → policy_in (log_effects start.world.log) (oid_of work.work) ≡ Some (policy_of work.work)
        → is_in_strips (policy_of work.work) (kind_of (oid_of work.work)) ≡ true
        → slice_get (attempts_on (oid_of work.work) moment.past.attempts) j ≡ Some made → covers_unit unit made ≡ true
        → is_made made ≡ true → AddNothingAfter (attempts_on (oid_of work.work) moment.past.attempts) unit j made
        → IsPartInside work.work unit (length bytes)
        → part_in_piece work.work unit bytes ≡ unit_part_by message.index unit made.work }
{}

/// In each run in range, where a command has read an inode in the middle of a step, as it opens a disk or makes a clone: each entry that it
/// read is that of an attempt by which the inode may come to have it, of ids that aren't dead. So it is of any that were good as the event
/// began, and so of those that are good at its end.
pub fn what_commands_read_is_to_come()
    ensures in_run { (script : List Statement) (moves : List Move) (start before : MomentWithPast) (good_id : ℕ → Bool)
        → RunsAreInRange script → run_with_past script moves ≡ Some start → MomentTrail script start before
        → CallsFewer good_id (is_available_disk start.world.log start.past.unavailable) → ReadsAreToCome script good_id start before }
    ensures by_the_end { (script : List Statement) (moves : List Move) (move : Move) (start before end : MomentWithPast)
        → RunsAreInRange script → run_with_past script moves ≡ Some start → next_moment script move start ≡ Some end
        → MomentTrail script start before
        → ReadsAreToCome script (is_available_disk end.world.log end.past.unavailable) start before }
{}

/// In each run in range, where a session has read a piece of an object of whole copies in the middle of a step: in each block of the piece
/// the bytes read are those of an attempt on the object that was served, and by which the block may come to be read; if the object was
/// created, and was good as the event began.
pub fn what_is_read_of_copies_is_to_come()
    ensures { (script : List Statement) (moves : List Move) (start : MomentWithPast) (stepping : SteppingNode) (so_far : StepState)
        (good_id : ℕ → Bool) (session req number : ℕ) (work : Work) (attempt : gateways.Attempt) (status : Status) (course : Course)
        (bytes : List ℕ) (inode : Content) (home epoch : ℕ) (piece : PieceOfRequest) (ledger : Ledger) (effects : List Effect)
        → RunsAreInRange script → run_with_past script moves ≡ Some start → IsStepping script start.world stepping
        → StepsByChanges stepping.cause → LeadsInStep stepping (first_in_step stepping) so_far
        → MomentTrail script start (moment_in_step script stepping start so_far)
        → EndsWork (input_of_cause stepping.cause) stepping.host.node so_far session req number work attempt status course bytes
        → work.work ≡ read_piece inode piece home → IsVid home → piece.index < OBJECTS_MAX
        → is_in_strips inode.spec.policy Block ≡ false → AreBlocks piece → is_of_client course ≡ false → 1 ≤ piece.size
        → is_good start.world.log start.past.attempts start.past.unavailable (object_number home piece.index) ≡ true
        → IsCreated (moment_in_step script stepping start so_far).past.attempts (object_number home piece.index) epoch
        → PieceIsToCome ledger effects good_id (moment_in_step script stepping start so_far).world.hosts
        (moment_in_step script stepping start so_far).past.attempts inode home piece bytes }
{}

/// What a read of strips gives at a block is the block, if each of as many messages as the read needs, under indexes that are all
/// different, gave the strip of it at its index.
pub fn blocks_are_read_through_their_strips()
    ensures { (d p offset unit : ℕ) (block : List ℕ) (messages : List Message) → IsPolicy (Coded d p) → offset % BLOCK_BYTES ≡ 0
        → offset ≤ BLOCK_BYTES * unit → IsBlock block → length messages ≡ d
        → ArePoints (map (λ (message : Message). message.index) messages) → All (GaveStrip d offset unit block) messages
        → piece_at (bytes_through (Coded d p) Block messages) (BLOCK_BYTES * unit - offset) BLOCK_BYTES ≡ block }
{}
