//! Laws of what reads were told: what each change of a moment keeps of it, and what strips give.

ghost use Rattle.std.specs.Prelude.{◌≡◌, ℕ, ◌*◌, ◌-◌, ◌<◌, Bool, true, false, Contains, List, slice_get, Some};
ghost use Rattle.gateway.specs.Attempt as gateways;
ghost use Rattle.gateway.specs.declared.message.Status.{Status};
ghost use Rattle.gateway.specs.State.{Work};
ghost use Rattle.gf256.specs.Strip.{IsBlock};
ghost use Rattle.guest_driver.specs.Pieces.{Piece, AreBlocks};
ghost use Rattle.guest_driver.specs.PieceWorks.{read_piece};
ghost use Rattle.inode.specs.Layout.{Content};
ghost use Rattle.object_id.specs.declared.limits.TheConstants.{BLOCK_BYTES, OBJECTS_MAX};
ghost use Rattle.object_id.specs.declared.policy.Policy.TheVariants.{Coded};
ghost use Rattle.object_id.specs.Oid.{IsVid, object_number};
ghost use Rattle.object_store.specs.Bytes.{piece_at};
ghost use Rattle.sheep_node.specs.declared.course.Course.{Course};
ghost use Rattle.sheep_node.specs.Changes.{EndsWork};
ghost use Rattle.sheep_node.specs.StepState.{StepState};
ghost use Rattle.sheep_world.specs.NodeCauses.{input_of_cause};
ghost use Rattle.vdi_directory.specs.Decisions.{log_effects};
ghost use Rattle.overlap_law.specs.Attempts.{AttemptRecord, attempts_on};
ghost use Rattle.overlap_law.specs.Each.{policy_in};
ghost use Rattle.overlap_law.specs.Pieces.{IsInPiece};
ghost use Rattle.overlap_law.specs.RequestsOfScript.{is_of_client};
ghost use Rattle.overlap_law.specs.Since.{AddNothingAfter};
ghost use Rattle.overlap_law.specs.StepMoments.{SteppingNode, IsStepping, StepsByChanges, LeadsInStep, first_in_step, moment_in_step};
ghost use Rattle.overlap_law.specs.Units.{bytes_by, covers_unit};
ghost use Rattle.overlap_law.specs.Words.{is_made};
ghost use Rattle.cluster_script.specs.declared.statement.Statement.{Statement};
ghost use Rattle.overlap_law.specs.Holders.{is_good};
ghost use Rattle.overlap_law.specs.MomentChanges.{MomentChange, MomentTrail, RunsAreInRange};
ghost use Rattle.overlap_law.specs.Past.{MomentWithPast, run_with_past};
ghost use Rattle.overlap_law.specs.Headline.{ledger_of};
ghost use Rattle.overlap_law.specs.StripReadsGiven.{GivenPiecesAreSince};
ghost use Rattle.overlap_law.specs.StripReadsBases.{StripsHaveBases};
ghost use Rattle.overlap_law.specs.StripReadsAlike.{ItemsAreOfBytes, CodedWritesAreOfBytes};
ghost use Rattle.overlap_law.specs.StandingReads.{AllReadsAreKept};
ghost use Rattle.overlap_law.specs.StandingReads.{StripPiecesAreToCome};
ghost use Rattle.overlap_law.specs.HistoryStands.{CallsAvailable};
ghost use Rattle.overlap_law.specs.MomentChanges.{IsOnTheWay};
ghost use Rattle.peer_proto.specs.declared.guest.DiskAsk.{DiskAsk};
ghost use Rattle.peer_proto.specs.declared.guest.GuestRsp.{GuestRsp};
ghost use Rattle.peer_proto.specs.declared.guest.VdiAsk.TheVariants.{Check};
ghost use Rattle.sheep_node.specs.declared.ask.Ask.TheVariants.{Disk, Vdi};
ghost use Rattle.sheep_node.specs.declared.event.Event.{Event};
ghost use Rattle.sheep_world.specs.Began.{MakesMove};
ghost use Rattle.sheep_world.specs.Run.{Moment};
ghost use Rattle.sheep_world.specs.RunsWithAsks.{Move, run_with_asks};
ghost use Rattle.sheep_world.specs.Step.{EventOutcome};
ghost use Rattle.overlap_law.specs.PastWords.{is_refusal};
ghost use Rattle.overlap_law.specs.DoneOnDisks.{IsCheckedOnDisk, IsDoneOnDisk, world_without_reply};
ghost use Rattle.overlap_law.specs.StandingReads.{asked_in};

/// In each run in range a reply to a read or write of a disk that isn't a refusal tells all that was asked, of the disk that the session of
/// the request had open as it began: as many bytes as were to be read, or that what was to be written is. So each reply that tells of a
/// read or write as done has added its events to the history.
pub fn what_is_done_is_of_an_open_disk()
    ensures { (script : List Statement) → RunsAreInRange script → (moves : List Move) (last : Moment)
        → run_with_asks script moves ≡ Some last
        → (event : Event) (made : EventOutcome) → MakesMove script event last.world made → (req : ℕ) (ask : DiskAsk) (rsp : GuestRsp)
        → asked_in script req ≡ Some (Disk ask) → Contains made.world.outputs.replies (req, rsp) → is_refusal rsp ≡ false
        → IsDoneOnDisk script (world_without_reply script event last.world) req ask rsp }
{}

/// So is a reply to a check that isn't a refusal: it tells what was found on the disk that the session had open as the check began.
pub fn what_is_checked_is_of_an_open_disk()
    ensures { (script : List Statement) → RunsAreInRange script → (moves : List Move) (last : Moment)
        → run_with_asks script moves ≡ Some last
        → (event : Event) (made : EventOutcome) → MakesMove script event last.world made → (req : ℕ) (rsp : GuestRsp)
        → asked_in script req ≡ Some (Vdi Check) → Contains made.world.outputs.replies (req, rsp) → is_refusal rsp ≡ false
        → IsCheckedOnDisk script (world_without_reply script event last.world) req rsp }
{}

/// In each run in range, whatever a change of a moment on the way of an event adds to the history keeps what open reads were told of the
/// blocks before their pieces, and what the event told so far: a write that begins takes nothing away, one that is done has no item in
/// these blocks, an entry makes no disk that a session reads, who is refused or loses its reply hadn't ended, and nothing was served of
/// what is refused.
pub fn each_change_keeps_what_reads_were_told()
    ensures { (script : List Statement) (moves : List Move) (start before after : MomentWithPast) → RunsAreInRange script
        → run_with_past script moves ≡ Some start → MomentTrail script start before → MomentChange script start before after
        → AllReadsAreKept script start before after }
{}

/// In each run in range what open reads of sessions were given of good objects by the messages that they heard of, of copies or of strips,
/// has what the nodes that told it owed in the read's epoch: at the end of every event, and at each moment on the way of one, of what was
/// good as it began. For no attempt begins on the object of a session's open read, and nothing is in flight of one of its epoch.
pub fn what_reads_were_given_has_what_was_owed()
    ensures in_run { (script : List Statement) (moves : List Move) (moment : MomentWithPast) → RunsAreInRange script
        → run_with_past script moves ≡ Some moment
        → GivenPiecesAreSince moment.world.log (is_good moment.world.log moment.past.attempts moment.past.unavailable) moment.world.hosts
        moment.past.attempts }
    ensures on_the_way { (script : List Statement) (moves : List Move) (start moment : MomentWithPast) → RunsAreInRange script
        → run_with_past script moves ≡ Some start → MomentTrail script start moment
        → GivenPiecesAreSince moment.world.log (is_good start.world.log start.past.attempts start.past.unavailable) moment.world.hosts
        moment.past.attempts }
{}

/// In each run in range, where a session has read a piece of an object in strips in the middle of a step: in each block of the piece the
/// bytes read are those of a made attempt that covers the block, if each later one that does so is mute or has the same parts of it, the
/// attempt's are bytes, and the object was good as the event began. For each of as many messages as the read needs gave the strip of it at
/// its own index, whether it was heard now or before.
pub fn what_strips_give_is_made()
    ensures { (script : List Statement) (moves : List Move) (start : MomentWithPast) (stepping : SteppingNode) (so_far : StepState)
        (session req number : ℕ) (work : Work) (attempt : gateways.Attempt) (status : Status) (course : Course) (bytes : List ℕ)
        (inode : Content) (home : ℕ) (piece : Piece) (d p unit j : ℕ) (made : AttemptRecord)
        → RunsAreInRange script → run_with_past script moves ≡ Some start → IsStepping script start.world stepping
        → StepsByChanges stepping.cause → LeadsInStep stepping (first_in_step stepping) so_far
        → MomentTrail script start (moment_in_step script stepping start so_far)
        → EndsWork (input_of_cause stepping.cause) stepping.host.node so_far session req number work attempt status course bytes
        → work.work ≡ read_piece inode piece home → IsVid home → piece.index < OBJECTS_MAX → AreBlocks piece
        → inode.spec.policy ≡ Coded d p → is_of_client course ≡ false
        → policy_in (log_effects (moment_in_step script stepping start so_far).world.log) (object_number home piece.index)
        ≡ Some inode.spec.policy
        → is_good start.world.log start.past.attempts start.past.unavailable (object_number home piece.index) ≡ true
        → IsInPiece piece unit
        → slice_get (attempts_on (object_number home piece.index) (moment_in_step script stepping start so_far).past.attempts) j ≡ Some made
        → covers_unit unit made ≡ true → is_made made ≡ true
        → AddNothingAfter (attempts_on (object_number home piece.index) (moment_in_step script stepping start so_far).past.attempts)
        unit j made
        → IsBlock (bytes_by unit made.work)
        → piece_at bytes (BLOCK_BYTES * unit - piece.offset) BLOCK_BYTES ≡ bytes_by unit made.work }
{}

/// So in each run in range, before each change on the way of an event, by each test for good ids that serves there: each block of strips
/// that was read and isn't torn has a made attempt of bytes behind which none is made or adds anything, and its object was born as the
/// event began; and what comes of a read of strips is to come. For nobody writes what is read, so the block has one thing that it may come
/// to be read as; and the attempt is the last made one: the object's create was made, and covers all of it; and it was sent before the
/// event.
pub fn what_strips_give_is_to_come()
    ensures bases { (script : List Statement) (moves : List Move) (move : Move) (start end before after : MomentWithPast)
        → RunsAreInRange script → IsOnTheWay script moves move start end before after → (good_id : ℕ → Bool)
        → CallsAvailable start before good_id
        → StripsHaveBases script start before (ledger_of before.past.history) (log_effects before.world.log) good_id }
    ensures comes { (script : List Statement) (moves : List Move) (move : Move) (start end before after : MomentWithPast)
        → RunsAreInRange script → IsOnTheWay script moves move start end before after → (good_id : ℕ → Bool)
        → CallsAvailable start before good_id
        → StripPiecesAreToCome script start before (ledger_of before.past.history) (log_effects before.world.log) good_id }
{}

/// In each run in range each coded write of a block that the history begins is of bytes, at the end of every event, and at each moment on
/// the way of one: a script's writes have bytes, and what a check writes of strips was read through strips. So coded items are bytes, and
/// so are the zeros of no request.
pub fn coded_writes_are_of_bytes()
    ensures in_run { (script : List Statement) (moves : List Move) (moment : MomentWithPast) → RunsAreInRange script
        → run_with_past script moves ≡ Some moment → CodedWritesAreOfBytes moment.past.history }
    ensures on_the_way { (script : List Statement) (moves : List Move) (start moment : MomentWithPast) → RunsAreInRange script
        → run_with_past script moves ≡ Some start → MomentTrail script start moment → CodedWritesAreOfBytes moment.past.history }
    ensures items { (script : List Statement) (moves : List Move) (start moment : MomentWithPast) → RunsAreInRange script
        → run_with_past script moves ≡ Some start → MomentTrail script start moment → ItemsAreOfBytes (ledger_of moment.past.history) }
{}
