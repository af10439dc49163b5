//! Laws of what writes have behind them: the last attempt on a disk's own object made each piece, so nothing else is to come of its blocks.
ghost use Rattle.std.specs.Prelude.{◌≡◌, ◌≢◌, ◌⊎◌, ℕ, Bool, true, false, List, [], ◌∷◌, ◌++◌, length, Contains, Some, ◌<◌, slice_get};
ghost use Rattle.std.specs.FinMap as tree;
ghost use Rattle.std.specs.List.{list_all};
ghost use Rattle.std.specs.Option.{option_and_then};
ghost use Rattle.std.specs.Str.{bytes_eq};
ghost use Rattle.object_id.specs.declared.limits.TheConstants.{OBJECTS_MAX};
ghost use Rattle.object_id.specs.Oid.{object_number};
ghost use Rattle.disk_check.specs.Check.{Check};
ghost use Rattle.cluster_script.specs.declared.statement.Statement.{Statement};
ghost use Rattle.cluster_script.specs.NumberedRequests.{request_at};
ghost use Rattle.peer_proto.specs.declared.guest.DiskAsk.TheVariants as disk_asks;
ghost use Rattle.peer_proto.specs.declared.guest.GuestRsp.{GuestRsp};
ghost use Rattle.peer_proto.specs.Work.{oid_of};
ghost use Rattle.gateway.specs.Attempt as gateways;
ghost use Rattle.gateway.specs.declared.message.Status.{Status};
ghost use Rattle.gateway.specs.State.{Work};
ghost use Rattle.gateway.specs.Work.{is_making};
ghost use Rattle.vdi_directory.specs.Dead.{is_dead};
ghost use Rattle.vdi_directory.specs.Decisions.{log_effects};
ghost use Rattle.object_id.specs.Spec.{objects_of};
ghost use Rattle.disk_history.specs.Ledger.{Item, is_item_of};
ghost use Rattle.disk_history.specs.Ledger as histories;
ghost use Rattle.guest_driver.specs.declared.disk.Disk.{Disk};
ghost use Rattle.guest_driver.specs.declared.act.DriverAct.TheVariants as acts;
ghost use Rattle.guest_driver.specs.Driver.{DriverStage, DriverStep, Entering, Writes, driver_on_done};
ghost use Rattle.guest_driver.specs.Pieces.{Piece, pieces};
ghost use Rattle.sheep_node.specs.declared.ask.Ask.TheVariants as asks;
ghost use Rattle.sheep_node.specs.declared.course.Course.TheVariants.{Checking, Driving};
ghost use Rattle.sheep_node.specs.declared.course.Request.{Request};
ghost use Rattle.sheep_node.specs.State.{session_at};
ghost use Rattle.sheep_node.specs.Changes.{LearnsStatus, EndsWork};
ghost use Rattle.sheep_node.specs.StepState.{StepState};
ghost use Rattle.sheep_world.specs.Asking.{ask_of_statement};
ghost use Rattle.sheep_world.specs.NodeCauses.{input_of_cause};
ghost use Rattle.sheep_world.specs.RunsWithAsks.{Move};
ghost use Rattle.overlap_law.specs.AloneEntries.{IsOwnByTable, OwnObjectsAreBehind};
ghost use Rattle.overlap_law.specs.AloneItems.{HasOwnItems, WritesHaveOwnItems};
ghost use Rattle.overlap_law.specs.AloneOnDisks.{HasItemsOn, ItemsAreOnTheirDisk};
ghost use Rattle.overlap_law.specs.Attempts.{AttemptRecord, object_of};
ghost use Rattle.overlap_law.specs.Each.{EachUp};
ghost use Rattle.overlap_law.specs.Headline.{ledger_of};
ghost use Rattle.overlap_law.specs.HistoryStands.{CallsAvailable};
ghost use Rattle.overlap_law.specs.Holders.{is_available_disk};
ghost use Rattle.overlap_law.specs.KeptHistory.{RepliesAreAlone};
ghost use Rattle.overlap_law.specs.MomentChanges.{MomentChange, MomentTrail, IsOnTheWay, RunsAreInRange};
ghost use Rattle.overlap_law.specs.Past.{MomentWithPast, run_with_past};
ghost use Rattle.overlap_law.specs.Pieces.{IsInPiece, IsOn, bytes_for, WhatIsWrittenIsAlone};
ghost use Rattle.overlap_law.specs.StepMoments.{SteppingNode, IsStepping, StepsByChanges, LeadsInStep, IsWithinStep, first_in_step};
ghost use Rattle.overlap_law.specs.StepMoments.{moment_in_step};
ghost use Rattle.overlap_law.specs.Tables.{entry_by};
ghost use Rattle.overlap_law.specs.ToCome.{IsToCome, IsEntryToCome};
ghost use Rattle.overlap_law.specs.Units.{bytes_by};
ghost use Rattle.overlap_law.specs.Words.{Hosts};
ghost use Rattle.overlap_law.specs.WrittenBlocks.{blocks_per_object, items_at, outcomes_in};
ghost use Rattle.overlap_law.specs.WrittenPieces.{HasPiece, IsWrittenAlone, WhatIsWrittenStaysAlone, ItemsAreOfPieces};

/// Of a piece that the last attempt on its object made, whatever may come to be read of one of its blocks in that object is the piece's
/// bytes.
pub fn what_is_written_alone_is_all_that_comes()
    ensures { (hosts : Hosts) (attempts : List AttemptRecord) (vid : ℕ) (payload : List ℕ) (piece : Piece)
        → IsWrittenAlone attempts vid payload piece → (unit : ℕ) → IsInPiece piece unit → (j : ℕ) (attempt : AttemptRecord)
        → IsToCome hosts attempts (object_number vid piece.index) unit j attempt
        → bytes_by unit attempt.work ≡ bytes_for payload piece unit }
{}

/// Of each run in range: where a node learns in the middle of its step that a create or write is done, which has the bytes of a piece and
/// is on its object, the last attempt on the object made the piece.
pub fn a_piece_that_is_done_is_alone()
    ensures { (script : List Statement) (moves : List Move) (start : MomentWithPast) (stepping : SteppingNode) (so_far : StepState)
        → RunsAreInRange script → run_with_past script moves ≡ Some start → IsStepping script start.world stepping
        → StepsByChanges stepping.cause → LeadsInStep stepping (first_in_step stepping) so_far
        → MomentTrail script start (moment_in_step script stepping start so_far)
        → (req number : ℕ) (work : Work) (current : gateways.Attempt) (status : Status)
        → LearnsStatus (input_of_cause stepping.cause) stepping.host.node so_far req number work current status
        → gateways.is_done work.work (gateways.messages_with_status number status current.messages) ≡ true
        → is_making work.work ≡ true → (vid : ℕ) (payload : List ℕ) (piece : Piece) → oid_of work.work ≡ object_number vid piece.index
        → HasPiece work.work payload piece
        → IsWrittenAlone (moment_in_step script stepping start so_far).past.attempts vid payload piece }
{}

/// In each run in range, behind each change: no attempt begins in the change on the disk's own object of a piece that a write has behind
/// it, or whose entry it writes. For the write's session alone may write the disk, and what has begun of a session meets on no index.
pub fn no_attempt_begins_behind_a_write()
    ensures { (script : List Statement) (moves : List Move) (start before after : MomentWithPast) → RunsAreInRange script
        → run_with_past script moves ≡ Some start → MomentTrail script start before → MomentChange script start before after
        → (attempt : AttemptRecord) → after.past.attempts ≡ before.past.attempts ++ attempt ∷ []
        → EachUp after.world.hosts (λ n node. (req : ℕ) (request : Request) (opened : Disk) (payload : List ℕ) (stage : DriverStage)
        (piece one : Piece) (rest front : List Piece) (offset : ℕ) → tree.get node.requests req ≡ Some request
        → (session_at request.session node).disk ≡ Some opened → request.course ≡ Driving (Writes payload stage piece rest)
        → pieces opened.inode.spec.shift offset (length payload) ≡ front ++ piece ∷ rest
        → Contains front one ⊎ ((stage ≡ Entering) × (one ≡ piece)) → object_of attempt ≢ object_number opened.inode.vid one.index) }
{}

/// In each run in range, behind each change: an attempt that begins in the change on an own object of the disk that a check's session has
/// open is the check's. For the session alone may write the disk, and has no other request.
pub fn only_a_check_writes_its_disk()
    ensures { (script : List Statement) (moves : List Move) (start before after : MomentWithPast) → RunsAreInRange script
        → run_with_past script moves ≡ Some start → MomentTrail script start before → MomentChange script start before after
        → (attempt : AttemptRecord) → after.past.attempts ≡ before.past.attempts ++ attempt ∷ []
        → EachUp after.world.hosts (λ n node. (req index : ℕ) (request : Request) (opened : Disk) (check : Check)
        → tree.get node.requests req ≡ Some request → (session_at request.session node).disk ≡ Some opened
        → request.course ≡ Checking check → index < OBJECTS_MAX → object_of attempt ≡ object_number opened.inode.vid index
        → attempt.req ≡ req) }
{}

/// In each run in range, at each moment on the way of an event: of the entry of an object that is the disk's own, by the table of the disk
/// that a check's session has open, nothing is to come but the disk's own id, of a good id that isn't dead, by each test for good ids that
/// serves as the event begins. For the inodes of open disks may come to have what the sessions' tables have.
pub fn what_is_checked_is_entered_alone()
    ensures { (script : List Statement) (moves : List Move) (start moment : MomentWithPast) → RunsAreInRange script
        → run_with_past script moves ≡ Some start → MomentTrail script start moment → (good_id : ℕ → Bool)
        → CallsAvailable start start good_id
        → EachUp moment.world.hosts (λ n node. (req : ℕ) (request : Request) (opened : Disk) (check : Check)
        → tree.get node.requests req ≡ Some request → (session_at request.session node).disk ≡ Some opened
        → request.course ≡ Checking check → good_id opened.inode.vid ≡ true
        → is_dead (log_effects moment.world.log) opened.inode.vid ≡ false → (index : ℕ)
        → index < objects_of opened.inode.spec → IsOwnByTable opened.inode index → (j : ℕ) (entry : AttemptRecord)
        → IsEntryToCome moment.world.hosts moment.past.attempts opened.inode.vid index j entry
        → entry_by index entry ≡ opened.inode.vid) }
{}

/// In each run in range, at each moment on the way of an event: what each write has behind it was made by the last attempts on its disk's
/// own objects, with the write's bytes; and so was the object whose entry it writes. For a piece is so as its work is done, and no attempt
/// begins behind it.
pub fn what_is_written_stays_alone()
    ensures { (script : List Statement) (moves : List Move) (start moment : MomentWithPast) → RunsAreInRange script
        → run_with_past script moves ≡ Some start → MomentTrail script start moment
        → WhatIsWrittenStaysAlone moment.world.hosts moment.past.attempts }
{}

/// In each run in range, in the middle of a step: where the last work of a write is done, so that its node replies to it, each piece of the
/// write was made by the last attempt on its object, with the write's bytes.
pub fn what_a_write_is_replied_to_is_alone()
    ensures { (script : List Statement) (moves : List Move) (start : MomentWithPast) (stepping : SteppingNode)
        (so_far next : StepState) → RunsAreInRange script → run_with_past script moves ≡ Some start
        → IsStepping script start.world stepping → StepsByChanges stepping.cause → IsWithinStep stepping so_far next
        → MomentTrail script start (moment_in_step script stepping start so_far)
        → (session req number : ℕ) (work : Work) (attempt : gateways.Attempt) (status : Status) (bytes payload : List ℕ)
        (stage : DriverStage) (piece : Piece) (rest : List Piece) (disk : Disk) (ended : DriverStep) (reply : GuestRsp)
        → EndsWork (input_of_cause stepping.cause) stepping.host.node so_far session req number work attempt status
        (Driving (Writes payload stage piece rest)) bytes
        → (session_at session so_far.node).disk ≡ Some disk
        → driver_on_done disk.inode bytes (Writes payload stage piece rest) ≡ Some ended → ended.act ≡ acts.Reply reply
        → (offset : ℕ) (front : List Piece) → pieces disk.inode.spec.shift offset (length payload) ≡ front ++ piece ∷ rest
        → (one : Piece) → Contains (pieces disk.inode.spec.shift offset (length payload)) one
        → IsWrittenAlone (moment_in_step script stepping start so_far).past.attempts disk.inode.vid payload one }
{}

/// In each run in range, at each moment on the way of an event: each attempt by whose bytes a block of a piece may come to be read, that
/// the last attempt on its object made, has the bytes of the piece's request for it.
pub fn outcomes_of_what_is_written_are_its_bytes()
    ensures { (script : List Statement) (moves : List Move) (start moment : MomentWithPast) → RunsAreInRange script
        → run_with_past script moves ≡ Some start → MomentTrail script start moment → (vid : ℕ) (payload : List ℕ) (piece : Piece)
        → IsWrittenAlone moment.past.attempts vid payload piece → (unit : ℕ) → IsInPiece piece unit
        → list_all (λ (attempt : AttemptRecord). bytes_eq (bytes_for payload piece unit) (bytes_by unit attempt.work))
        (outcomes_in moment.world.hosts moment.past.attempts vid vid piece.index unit) ≡ true }
{}

/// In each run in range, at each moment on the way of an event: of each block that a write has behind it, each attempt by which the block
/// of the disk's own object may come to be read has the bytes of the write's item there.
pub fn what_is_written_comes_out_as_its_items()
    ensures { (script : List Statement) (moves : List Move) (start moment : MomentWithPast) → RunsAreInRange script
        → run_with_past script moves ≡ Some start → MomentTrail script start moment
        → EachUp moment.world.hosts (λ n node. (req index unit place : ℕ) (request : Request) (opened : Disk) (disk : histories.Disk)
        (item : Item) (payload : List ℕ) (stage : DriverStage) (piece : Piece) (rest : List Piece)
        → IsOn (ledger_of moment.past.history) node req request opened disk
        → request.course ≡ Driving (Writes payload stage piece rest) → index < piece.index → unit < blocks_per_object opened.inode.spec
        → slice_get (items_at disk opened.inode.spec index unit) place ≡ Some item → is_item_of req item ≡ true
        → list_all (λ (attempt : AttemptRecord). bytes_eq item.bytes (bytes_by unit attempt.work))
        (outcomes_in moment.world.hosts moment.past.attempts opened.inode.vid opened.inode.vid index unit) ≡ true) }
{}

/// In each run in range, at each moment on the way of an event: the table of the disk that a write's session has open says of the object of
/// each piece that the write has behind it that it is the disk's own. For a piece is written in place where the table says so, and of one
/// that was created the table says so as its entry is written; and no entry of the disk's own is taken out of the table.
pub fn own_objects_are_behind_writes()
    ensures { (script : List Statement) (moves : List Move) (start moment : MomentWithPast) → RunsAreInRange script
        → run_with_past script moves ≡ Some start → MomentTrail script start moment → OwnObjectsAreBehind moment.world.hosts }
{}

/// In each run in range, at each moment on the way of an event: of the entry of each object that a write has behind it nothing is to come
/// but the disk's own id, of a good id that isn't dead, by each test for good ids that serves as the event begins. For the inodes of open
/// disks may come to have what the sessions' tables have.
pub fn what_is_written_is_entered_alone()
    ensures { (script : List Statement) (moves : List Move) (start moment : MomentWithPast) → RunsAreInRange script
        → run_with_past script moves ≡ Some start → MomentTrail script start moment → (good_id : ℕ → Bool)
        → CallsAvailable start start good_id
        → EachUp moment.world.hosts (λ n node. (req : ℕ) (request : Request) (opened : Disk) (payload : List ℕ) (stage : DriverStage)
        (piece : Piece) (rest : List Piece) → tree.get node.requests req ≡ Some request
        → (session_at request.session node).disk ≡ Some opened → request.course ≡ Driving (Writes payload stage piece rest)
        → good_id opened.inode.vid ≡ true → is_dead (log_effects moment.world.log) opened.inode.vid ≡ false
        → (offset index j : ℕ) (front : List Piece) (one : Piece) (entry : AttemptRecord)
        → pieces opened.inode.spec.shift offset (length payload) ≡ front ++ piece ∷ rest → Contains front one → one.index ≡ index
        → index < objects_of opened.inode.spec → IsEntryToCome moment.world.hosts moment.past.attempts opened.inode.vid index j entry
        → entry_by index entry ≡ opened.inode.vid) }
{}

/// In each run in range, at the end of every event: the items of a write without reply are on the working disk that its session has open,
/// and nowhere else, and each has the bytes of the write's own block there. For they began there, and a disk that is copied is given no
/// more. So it is in the middle of a step of a node too, of the writes that the node has then.
pub fn items_of_writes_are_their_own()
    ensures in_run { (script : List Statement) (moves : List Move) (moment : MomentWithPast) → RunsAreInRange script
        → run_with_past script moves ≡ Some moment
        → WritesHaveOwnItems script (ledger_of moment.past.history) moment.world.hosts }
    ensures in_step { (script : List Statement) (moves : List Move) (start : MomentWithPast) (stepping : SteppingNode)
        (so_far : StepState) → RunsAreInRange script → run_with_past script moves ≡ Some start
        → IsStepping script start.world stepping → StepsByChanges stepping.cause
        → LeadsInStep stepping (first_in_step stepping) so_far → (req : ℕ) (request : Request)
        → tree.get so_far.node.requests req ≡ Some request → (opened : Disk)
        → (session_at request.session so_far.node).disk ≡ Some opened → (offset : ℕ) (payload : List ℕ)
        → option_and_then ask_of_statement (request_at script req) ≡ Some (asks.Disk (disk_asks.Write offset payload))
        → HasOwnItems req opened.inode.vid offset payload
        (ledger_of (moment_in_step script stepping start so_far).past.history) }
{}

/// In each run in range, at the end of every event: the items of a request without reply, of a session with a working disk open, are on
/// that disk, and nowhere else: those of a check too, which begins them on the objects of its disk. So it is in the middle of a step of a
/// node too, of the requests that the node has then, on whichever disk their sessions have open.
pub fn items_of_requests_are_on_their_disk()
    ensures in_run { (script : List Statement) (moves : List Move) (moment : MomentWithPast) → RunsAreInRange script
        → run_with_past script moves ≡ Some moment → ItemsAreOnTheirDisk (ledger_of moment.past.history) moment.world.hosts }
    ensures in_step { (script : List Statement) (moves : List Move) (start : MomentWithPast) (stepping : SteppingNode)
        (so_far : StepState) → RunsAreInRange script → run_with_past script moves ≡ Some start
        → IsStepping script start.world stepping → StepsByChanges stepping.cause
        → LeadsInStep stepping (first_in_step stepping) so_far → (req : ℕ) (request : Request)
        → tree.get so_far.node.requests req ≡ Some request → (opened : Disk)
        → (session_at request.session so_far.node).disk ≡ Some opened
        → HasItemsOn req opened.inode.vid (ledger_of (moment_in_step script stepping start so_far).past.history) }
{}

/// In each run in range, at each moment on the way of an event: the items of a write, in the blocks of the disk that it is on, are those of
/// its pieces, at whichever node the write is.
pub fn items_of_writes_are_of_their_pieces()
    ensures { (script : List Statement) (moves : List Move) (start moment : MomentWithPast) → RunsAreInRange script
        → run_with_past script moves ≡ Some start → MomentTrail script start moment
        → ItemsAreOfPieces (ledger_of moment.past.history) moment.world.hosts }
{}

/// So in each run in range, at the end of every event: of each block that a write has behind it, of a disk that was available, the inode
/// has the own entry alone, and each attempt by which the block may be read has the bytes of the write's item.
pub fn what_is_written_is_alone()
    ensures { (script : List Statement) (moves : List Move) (moment : MomentWithPast) → RunsAreInRange script
        → run_with_past script moves ≡ Some moment
        → WhatIsWrittenIsAlone (ledger_of moment.past.history) (log_effects moment.world.log)
        (is_available_disk moment.world.log moment.past.unavailable) moment.world.hosts moment.past.attempts }
{}

/// In each run in range, behind each change on the way of an event that replies to a request, and doesn't refuse it: each block in which
/// the request has items is alone, by each test for good ids that serves there. For a write is replied to as its last piece is done, or at
/// once where it has none, a check once its last value is written, as the last attempt on each object wrote its value, and no other
/// request has items.
pub fn what_is_replied_to_is_alone()
    ensures { (script : List Statement) (moves : List Move) (move : Move) (start end before after : MomentWithPast)
        → RunsAreInRange script → IsOnTheWay script moves move start end before after → (good_id : ℕ → Bool)
        → CallsAvailable start after good_id → RepliesAreAlone script good_id start before after }
{}
