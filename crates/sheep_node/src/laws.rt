//! Laws of a step, for the proofs of the layers above: each is the contract of a function that does nothing.
ghost use Rattle.std.specs.Prelude.{◌≡◌, ◌⊎◌, ℕ, Bool, ◌+◌, ◌<◌, ◌≤◌, true, false, List, [], ◌∷◌, ◌++◌, length, Option, Some, None, IsTrue, ◌↔◌};
ghost use Rattle.std.specs.Prelude.{◌^◌, All};
ghost use Rattle.std.specs.FinMap.{contains_key};
ghost use Rattle.object_id.specs.declared.cause.Cause.{Cause};
ghost use Rattle.object_id.specs.Node.{IsNode};
ghost use Rattle.object_id.specs.declared.node.NodeId.{NodeId};
ghost use Rattle.object_id.specs.declared.oid.Vid.{Vid};
ghost use Rattle.object_id.specs.declared.entry.Entry.{Entry};
ghost use Rattle.object_id.specs.declared.entry.Entry.TheVariants as entries;
ghost use Rattle.object_id.specs.declared.entry.Origin.TheVariants.{Fresh};
ghost use Rattle.object_id.specs.declared.entry.VdiSpec.{VdiSpec};
ghost use Rattle.peer_proto.specs.declared.ask.PeerReq.{PeerReq};
ghost use Rattle.peer_proto.specs.declared.guest.VdiAsk.TheVariants.{Create, Check};
ghost use Rattle.peer_proto.specs.declared.say.PeerRsp.{PeerRsp};
ghost use Rattle.peer_proto.specs.declared.say.PeerSay.TheVariants.{Refused};
ghost use Rattle.peer_proto.specs.declared.say.Refusal.TheVariants.{OldEpoch, NewEpoch};
ghost use Rattle.peer_proto.specs.declared.work.ObjWork.{ObjWork};
ghost use Rattle.gateway.specs.State.{gateway_awaits, is_touched};
ghost use Rattle.gateway.specs.Outcomes.{AreNumberedFrom};
ghost use Rattle.recovery.specs.Fits.{fits_recovery};
ghost use Rattle.guest_driver.specs.declared.disk.Disk.{Disk};
ghost use Rattle.inode.specs.Layout.{Content};
ghost use Rattle.vdi_ops.specs.Op.{Op, Task, Working, Stays, Opens, Closes, entry_wanted};
ghost use Rattle.sheep_node.specs.declared.ask.Ask.{Ask};
ghost use Rattle.sheep_node.specs.declared.ask.Ask.TheVariants.{Vdi, Object};
ghost use Rattle.sheep_node.specs.declared.input.Input.{Input};
ghost use Rattle.sheep_node.specs.declared.input.Input.TheVariants as inputs;
ghost use Rattle.sheep_node.specs.declared.course.Course.TheVariants.{Commanding, Checking, DoingWork, AwaitingDecision};
ghost use Rattle.sheep_node.specs.State.{Node, initial_node};
ghost use Rattle.sheep_node.specs.StepState.{StepState, at_first, session_in, with_sole_request, request_ended};
ghost use Rattle.sheep_node.specs.RecoveryView.{recovery_state_of};
ghost use Rattle.sheep_node.specs.RecoveryRange.{RecoveryMayStep, RecoveryMayBegin, RecoversInRange};
ghost use Rattle.sheep_node.specs.NodeInvariant.{IsSoundNode};
ghost use Rattle.sheep_node.specs.OneWork.{HasOneWorkPerRequest};
ghost use Rattle.sheep_node.specs.GivenNumbers.{NumbersWereGiven};
ghost use Rattle.sheep_node.specs.OwnEntries.{AsksForOwn, HasOnlyOwnEntries};
ghost use Rattle.sheep_node.specs.SessionQueues.{QueuesAreDiskRequests, QueuesAreShort, CommandsAreAlone, RequestsAreInTurn};
ghost use Rattle.sheep_node.specs.WantedWorks.{WorksAreWanted};
ghost use Rattle.sheep_node.specs.DrivenDisks.{RequestsAreOnDisks};
ghost use Rattle.sheep_node.specs.Changes.{input_received, Leads};
ghost use Rattle.sheep_node.specs.AwaitedEntry.{waits_for_entry};
ghost use Rattle.sheep_node.specs.RequestWorks.{work_begun, course_refused, work_asked};
ghost use Rattle.sheep_node.specs.Courses.{disk_after, check_stepped, decision_reply, course_went_on, course_decided};
ghost use Rattle.sheep_node.specs.May.{May, IsGuestAsk, MayRead, MayComeBack};
ghost use Rattle.sheep_node.specs.MayTests.{is_guest_ask, may, may_read_entry, may_come_back_with};
ghost use Rattle.sheep_node.specs.Step.{is_due, recovered_put, node_step};
ghost use Rattle.sheep_node.specs.StepFacts.{read_after, may_begin_recovery, only_reply, said_on, put_on, Ascend, IsByTheLog, HasReadLog};
ghost use Rattle.sheep_node.specs.ValidDisks.{HasValidDisks};
ghost use Rattle.sheep_node.specs.LogReading.{begins_recovery, node_with_entry, come_back_with};
ghost use Rattle.sheep_node.specs.Guests.{request_refusal, on_guest};
ghost use Rattle.sheep_node.specs.OutsideAsks.{IsObjectAsk, InputNamesObjects};
ghost use Rattle.sheep_node.specs.declared.check_write.CheckWrite.{CheckWrite};
ghost use Rattle.sheep_node.specs.CheckWrites.{write_of_course, work_of_write};
ghost use Rattle.peer_proto.specs.declared.guest.GuestRsp.TheVariants.{Piece};
ghost use Rattle.peer_proto.specs.declared.work.ObjWork.TheVariants.{Read};
ghost use Rattle.peer_proto.specs.Ask.{IsPeerReq};
ghost use Rattle.peer_proto.specs.Work.{IsWork};
ghost use Rattle.peer_service.specs.State.{Peer};
ghost use Rattle.epoch_log.specs.Appending.{IsReservable};
ghost use Rattle.vdi_directory.specs.declared.decision.Decision.{Decision};
ghost use Rattle.object_id.specs.declared.policy.Policy.{Policy};
ghost use Rattle.disk_check.specs.Check.{Check as TheCheck, begin_check};
ghost use Rattle.peer_proto.specs.declared.guest.GuestRsp.TheVariants as replies;
ghost use Rattle.sheep_node.specs.declared.ask.Ask.TheVariants as asks;

/// The sends of a step are numbered upwards from the node's count, and the count grows by how many they are. So no two
/// sends of a node have one number.
pub fn sends_are_numbered()
    ensures numbers { (input : Input) (node : Node) → AreNumberedFrom node.sends (node_step input node).outputs.sends }
    ensures count { (input : Input) (node : Node)
        → (node_step input node).node.sends ≡ node.sends + length (node_step input node).outputs.sends }
{}

/// A step sends 1,000 messages at most: one to each member, at most 64, at a tick; else no more than 18 attempts begin in it, each with 31
/// messages at most.
pub fn a_step_sends_at_most_1000()
    ensures { (input : Input) (node : Node) → May input node → IsSoundNode node → length (node_step input node).outputs.sends ≤ 1000 }
{}

/// Only an entry of the log, and coming back, change what a node has read; and it stays itself.
pub fn only_the_log_is_read()
    ensures read { (input : Input) (node : Node) → (node_step input node).node.peer.entries ≡ read_after input node.peer.entries }
    ensures own { (input : Input) (node : Node) → (node_step input node).node.me ≡ node.me }
{}

/// A node's epoch, its settled epoch and the members of its epochs are those of the entries that it has read: so it opens,
/// and so it stays at each step.
pub fn a_node_is_where_its_entries_have_it()
    ensures opens { (me : NodeId) (tries : ℕ) → IsByTheLog (initial_node me tries) }
    ensures stays { (input : Input) (node : Node) → May input node → IsByTheLog node → IsByTheLog (node_step input node).node }
{}

/// Something is said to a peer only on a request, and put into the log only on Put: the outbox's first entry. Guests are
/// replied to by ascending request.
pub fn outputs_are_as_the_input()
    ensures say { (input : Input) (node : Node) → (node_step input node).outputs.say ≡ said_on input node }
    ensures put { (input : Input) (node : Node) → (node_step input node).outputs.put ≡ put_on input node }
    ensures replies { (input : Input) (node : Node) → Ascend (node_step input node).outputs.replies }
{}

/// A request of another epoch is answered with the node's own, and changes nothing. As in every step a `Recovered` that is due is put,
/// and none is due once a step was made (`recovered_is_put_once`).
pub fn other_epochs_are_refused()
    ensures older { (request : PeerReq) (node : Node) → request.epoch.0 < node.peer.epoch
        → node_step (inputs.Request request) node ≡ recovered_put (record {
          node = node;
          outputs = only_reply (record {
            number = request.number;
            epoch = record { 0 = node.peer.epoch };
            say = Refused (OldEpoch (record { 0 = node.peer.epoch }));
          });
        }) }
    ensures newer { (request : PeerReq) (node : Node) → node.peer.epoch < request.epoch.0
        → node_step (inputs.Request request) node ≡ recovered_put (record {
          node = node;
          outputs = only_reply (record {
            number = request.number;
            epoch = record { 0 = node.peer.epoch };
            say = Refused (NewEpoch (record { 0 = node.peer.epoch }));
          });
        }) }
{}

/// The entry that was put leaves the outbox, and nothing else changes.
pub fn what_is_put_leaves_the_outbox()
    ensures { (node : Node) (entry : Entry) (later : List Entry) → node.outbox ≡ entry ∷ later → is_due node ≡ false
        → (node_step inputs.Put node).node ≡ record node { outbox = later } }
{}

/// A node opens with no `Recovered` due, and at the end of each step none is due; so a step begins with none due. What isn't due isn't
/// put, and none is put twice: once put it stays so, until a recovery begins.
pub fn recovered_is_put_once()
    ensures opens { (me : NodeId) (tries : ℕ) → is_due (initial_node me tries) ≡ false }
    ensures due { (input : Input) (node : Node) → is_due (node_step input node).node ≡ false }
    ensures rests { (so_far : StepState) → is_due so_far.node ≡ false → recovered_put so_far ≡ so_far }
    ensures once { (so_far : StepState) → so_far.node.recovered ≡ true → recovered_put so_far ≡ so_far }
    ensures stays { (input : Input) (node : Node) → may_begin_recovery input ≡ false → node.recovered ≡ true
        → (node_step input node).node.recovered ≡ true }
{}

/// A decision goes to a command that waits for exactly the entry that was read.
pub fn a_decision_is_on_the_entry_wanted()
    ensures only { (entry : Entry) (op : Op) → waits_for_entry entry (Commanding op) ≡ true
        → entry_wanted op ≡ Some entry }
    ensures each { (entry : Entry) (op : Op) → entry_wanted op ≡ Some entry
        → waits_for_entry entry (Commanding op) ≡ true }
{}

/// A client without a script is told the decision on exactly the entry that it asked for, and of its work what it gave.
pub fn a_client_is_told_what_its_ask_came_to()
    ensures waits { (entry wanted : Entry) → (waits_for_entry entry (AwaitingDecision wanted) ≡ true) ↔ (wanted ≡ entry) }
    ensures decided { (session req : ℕ) (wanted : Entry) (decision : Decision) (so_far : StepState)
        → course_decided session req decision (AwaitingDecision wanted) so_far
        ≡ request_ended session req (decision_reply decision) so_far }
    ensures read { (session req oid offset size : ℕ) (policy : Policy) (bytes : List ℕ) (so_far : StepState)
        → course_went_on session req bytes (DoingWork (Read oid policy offset size)) so_far
        ≡ request_ended session req (Piece bytes) so_far }
    ensures refused { (session req : ℕ) (work : ObjWork) (cause : Cause) (so_far : StepState)
        → course_refused session req cause (DoingWork work) so_far ≡ request_ended session req (replies.Refused cause) so_far }
{}

/// A client's ask is never refused on the spot: its work is come to at once, and its entry stands in the outbox.
pub fn a_clients_ask_begins_at_once()
    ensures work { (req session : ℕ) (work : ObjWork) (so_far : StepState) → on_guest req session (Object work) so_far
        ≡ work_asked session req work (with_sole_request session req (DoingWork work) so_far) }
    ensures entry { (req session : ℕ) (entry : Entry) (so_far : StepState)
        → (on_guest req session (asks.Entry entry) so_far).node.outbox ≡ so_far.node.outbox ++ entry ∷ [] }
{}

/// What a client may ask on an object is a work that a gateway may do.
pub fn a_clients_work_may_be_done()
    ensures { (peer : Peer) (work : ObjWork) → All IsReservable peer.entries → IsObjectAsk peer work → IsWork work }
{}

/// A check of the working disk that a session has open begins with its first work, or replies at once where no object is the disk's own.
pub fn a_check_begins_on_the_open_disk()
    ensures { (req session : ℕ) (disk : Disk) (so_far : StepState) → (session_in session so_far).disk ≡ Some disk
        → request_refusal so_far.node.peer (Some disk) (Vdi Check) ≡ None
        → on_guest req session (Vdi Check) so_far ≡ check_stepped session req (begin_check disk.inode) so_far }
{}

/// The write that the history has of a check is the one that the check comes to, on its disk.
pub fn the_history_has_the_write_of_a_check()
    ensures work { (session req : ℕ) (bytes : List ℕ) (check : TheCheck) (write : CheckWrite) (so_far : StepState)
        → write_of_course req bytes (Checking check) ≡ Some write
        → (moved : StepState) × (course_went_on session req bytes (Checking check) so_far
        ≡ work_asked session req (work_of_write write) moved) }
    ensures disk { (req : ℕ) (bytes : List ℕ) (check : TheCheck) (write : CheckWrite)
        → write_of_course req bytes (Checking check) ≡ Some write
        → (write.req ≡ req) × (write.vid.0 ≡ check.vid) × (write.spec ≡ check.spec) }
{}

/// A touched request's work begins or waits, and no guest is replied to: it is never refused at its start.
pub fn a_touched_work_is_not_refused()
    ensures { (number req : ℕ) (work : ObjWork) (so_far : StepState) → is_touched req so_far.node.gateway ≡ true
        → (work_begun number req work so_far).outputs.replies ≡ so_far.outputs.replies }
{}

/// What a session has open after its command's reply, by what the command left of it: what it had, or that inode, as a snapshot
/// exactly if the command says so, or nothing.
pub fn what_a_command_leaves_open()
    ensures stays { (disk : Option Disk) → disk_after Stays disk ≡ disk }
    ensures opens { (snapshot : Bool) (inode : Content) (disk : Option Disk)
        → disk_after (Opens snapshot inode) disk ≡ Some (record { inode = inode; snapshot = snapshot }) }
    ensures closes { (disk : Option Disk) → disk_after Closes disk ≡ None }
{}

/// A command whose work is refused gives back the id that it was granted: its `Unlock` stands in the outbox.
pub fn a_refused_work_gives_its_id_back()
    ensures { (number req : ℕ) (cause : Cause) (op : Op) (vid : Vid) (task : Task) (so_far : StepState)
        → op.stage ≡ Working vid task
        → (course_refused number req cause (Commanding op) so_far).node.outbox
        ≡ so_far.node.outbox ++ entries.Unlock op.by op.session vid ∷ [] }
{}

/// A guest's command begins with its entry in the outbox: a new disk with its reservation.
pub fn a_create_begins_with_its_reservation()
    ensures { (req session : ℕ) (name : List ℕ) (spec : VdiSpec) (node : Node) → is_due node ≡ false
        → (node_step (inputs.Guest req session (Vdi (Create name spec))) node).node.outbox
        ≡ node.outbox ++ entries.Reserve node.me session name (Fresh spec) ∷ [] }
{}

/// A node opens as one, and each step that it may take leaves it one: its requests have one work each at most, which is what they wait
/// for, with numbers that it gave, its entries are its own, its queues are its reads and writes, no more than there may be at once, and any
/// other request is alone in its session, its reads and writes are on the disks that are open, and one that began is apart from the earlier
/// ones, what it has read is a log, it is in the epoch of that, no `Recovered` is due, what it has of disks is valid, what it has at work
/// is sound, the lines of its sessions go with its works, and its recovery may make each step. A client asks for objects by ids, as all
/// values of the type do.
pub fn a_node_stays_one()
    ensures opens { (me : NodeId) (tries : ℕ) → IsSoundNode (initial_node me tries) }
    ensures stays { (input : Input) (node : Node) → May input node → InputNamesObjects input → IsSoundNode node
        → IsSoundNode (node_step input node).node }
{}

/// What a sound node sends as it steps can be spelled, if it has a number that there may be, its recovery is in range, and so is its
/// epoch behind the step.
pub fn what_a_step_sends_can_be_spelled()
    ensures { (input : Input) (node : Node) → May input node → InputNamesObjects input → IsSoundNode node → IsNode node.me.0
        → (node_step input node).node.peer.epoch < 2 ^ 32 → RecoversInRange node
        → All (λ (send : NodeId × PeerReq). IsPeerReq send.1) (node_step input node).outputs.sends }
{}

/// A node's step is a chain of changes, each with one effect, behind what its input changes by itself: on any input, of any node. More
/// is known of a change if the node may step on the input, and its requests have one work each.
pub fn a_step_is_a_chain_of_changes()
    ensures { (input : Input) (node : Node) → Leads input node (input_received input (at_first node)) (node_step input node) }
{}

/// A request has one work at most, open or in its session's line, and a number is waited for once: so a node opens, and so
/// it stays at each step.
pub fn a_request_has_one_work()
    ensures opens { (me : NodeId) (tries : ℕ) → HasOneWorkPerRequest (initial_node me tries) }
    ensures stays { (input : Input) (node : Node) → May input node → HasOneWorkPerRequest node
        → HasOneWorkPerRequest (node_step input node).node }
{}

/// The entries that a node puts are its own: its commands', its own `Recovered`, and those that a client asks for in its name, as it may.
pub fn a_node_puts_its_own_entries()
    ensures opens { (me : NodeId) (tries : ℕ) → HasOnlyOwnEntries (initial_node me tries) }
    ensures stays { (input : Input) (node : Node) → AsksForOwn node.me input → HasOnlyOwnEntries node
        → HasOnlyOwnEntries (node_step input node).node }
    ensures asked { (input : Input) (node : Node) → May input node → AsksForOwn node.me input }
{}

/// The numbers of the messages of a node's open attempts are below its count of sends, also those that were answered: so it opens, and so
/// it stays at each step.
pub fn numbers_of_attempts_were_given()
    ensures opens { (me : NodeId) (tries : ℕ) → NumbersWereGiven (initial_node me tries) }
    ensures stays { (input : Input) (node : Node) → May input node → HasOneWorkPerRequest node → NumbersWereGiven node
        → NumbersWereGiven (node_step input node).node }
{}

/// A session's queue is its reads and writes without reply.
pub fn a_queue_has_the_disk_requests()
    ensures opens { (me : NodeId) (tries : ℕ) → QueuesAreDiskRequests (initial_node me tries) }
    ensures stays { (input : Input) (node : Node) → May input node → HasOneWorkPerRequest node → QueuesAreDiskRequests node
        → QueuesAreDiskRequests (node_step input node).node }
{}

/// A session has no more reads and writes without reply than it may have at once: so a node opens, and so it stays at each step.
pub fn a_queue_is_short()
    ensures opens { (me : NodeId) (tries : ℕ) → QueuesAreShort (initial_node me tries) }
    ensures stays { (input : Input) (node : Node) → May input node → QueuesAreShort node → QueuesAreShort (node_step input node).node }
{}

/// A request that is no read or write is alone in its session, and a session's command is there, and is such: so a node opens, and so it
/// stays at each step.
pub fn a_command_is_alone()
    ensures opens { (me : NodeId) (tries : ℕ) → CommandsAreAlone (initial_node me tries) }
    ensures stays { (input : Input) (node : Node) → May input node → QueuesAreDiskRequests node → CommandsAreAlone node
        → CommandsAreAlone (node_step input node).node }
{}

/// Each work of a node, open or in a session's line, is the one that its request waits for: so a node opens, and so it stays at each
/// step.
pub fn a_work_is_what_its_request_waits_for()
    ensures opens { (me : NodeId) (tries : ℕ) → WorksAreWanted (initial_node me tries) }
    ensures stays { (input : Input) (node : Node) → May input node → HasOneWorkPerRequest node → QueuesAreDiskRequests node
        → CommandsAreAlone node → WorksAreWanted node → WorksAreWanted (node_step input node).node }
{}

/// A read or write is on the disk that its session has open: so a node opens, and so it stays at each step.
pub fn a_disk_request_is_on_its_disk()
    ensures opens { (me : NodeId) (tries : ℕ) → RequestsAreOnDisks (initial_node me tries) }
    ensures stays { (input : Input) (node : Node) → May input node → QueuesAreDiskRequests node → CommandsAreAlone node
        → RequestsAreOnDisks node → RequestsAreOnDisks (node_step input node).node }
{}

/// A read or write that has begun has no object in common with an earlier one of its session that has no reply: so a node opens, and so
/// it stays at each step, whatever the input.
pub fn a_begun_request_is_apart_from_earlier_ones()
    ensures opens { (me : NodeId) (tries : ℕ) → RequestsAreInTurn (initial_node me tries) }
    ensures stays { (input : Input) (node : Node) → RequestsAreInTurn node → RequestsAreInTurn (node_step input node).node }
{}

/// A node's recovery is in the node's name, and may make each step that the node tells it to: so a node opens, and so it stays at each
/// step. It may begin where an entry or coming back begins it, and a reply that isn't the gateway's fits what it asked.
pub fn a_recovery_may_step()
    ensures opens { (me : NodeId) (tries : ℕ) → RecoveryMayStep (initial_node me tries) }
    ensures stays { (input : Input) (node : Node) → May input node → HasReadLog node → IsByTheLog node → HasValidDisks node
        → RecoveryMayStep node → RecoveryMayStep (node_step input node).node }
    ensures entry { (entry : Entry) (node : Node) → May (inputs.LogEntry entry) node → IsSoundNode node
        → begins_recovery entry node ≡ true → RecoveryMayBegin (node_with_entry entry node) }
    ensures back { (entries : List Entry) (node : Node) → May (inputs.Back entries) node → IsSoundNode node
        → RecoveryMayBegin (come_back_with entries node) }
    ensures reply { (rsp : PeerRsp) (node : Node) → May (inputs.Reply rsp) node → gateway_awaits rsp.number node.gateway ≡ false
        → fits_recovery rsp (recovery_state_of node) ≡ true }
{}

/// A node's requests are those that it had, and the guest's request that it steps on.
pub fn requests_come_from_inputs()
    ensures { (input : Input) (node : Node) (req : ℕ) → contains_key (node_step input node).node.requests req ≡ true
        → (contains_key node.requests req ≡ true) ⊎ ((session : ℕ) × (ask : Ask) × (input ≡ inputs.Guest req session ask)) }
{}

/// Whether a node may step on an input can be tested, and so can the parts of it: what a guest may ask, which entry may be read next,
/// and with which entries a lost node may come back.
pub fn conditions_are_tests()
    ensures may { (input : Input) (node : Node) → IsTrue (may input node) ↔ May input node }
    ensures guest_ask { (node : Node) (ask : Ask) → IsTrue (is_guest_ask node ask) ↔ IsGuestAsk node ask }
    ensures read { (entries : List Entry) (entry : Entry) → IsTrue (may_read_entry entries entry) ↔ MayRead entries entry }
    ensures come_back { (entries : List Entry) (node : Node) → IsTrue (may_come_back_with entries node) ↔ MayComeBack entries node }
{}
