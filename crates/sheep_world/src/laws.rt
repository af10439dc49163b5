//! Laws of the definitions, for the proofs of the layers above: each is the contract of a function that does nothing.
ghost use Rattle.std.specs.Prelude.{◌≡◌, ◌≢◌, ◌+◌, ◌/◌, map, flat_map, cond, ◌<◌, ◌↔◌, ℕ, true, false, List, [], ◌∷◌, ◌++◌, Contains, length};
ghost use Rattle.std.specs.Prelude.{slice_get, Some, None, Ok, is_some, Bool, Option, not, ◌&&◌};
ghost use Rattle.std.specs.FinMap as tree;
ghost use Rattle.std.specs.Prelude.{All, ◌^◌, ◌≤◌};
ghost use Rattle.object_id.specs.Node.{IsNode};
ghost use Rattle.object_id.specs.declared.node.NodeId.{NodeId};
ghost use Rattle.object_id.specs.declared.entry.Entry.{Entry};
ghost use Rattle.object_id.specs.declared.entry.Entry.TheVariants as entries;
ghost use Rattle.cluster_script.specs.declared.statement.Statement.{Statement};
ghost use Rattle.cluster_script.specs.NumberedRequests.{request_at};
ghost use Rattle.cluster_script.specs.Language.{IsScript};
ghost use Rattle.peer_proto.specs.declared.ask.PeerReq.{PeerReq};
ghost use Rattle.peer_proto.specs.declared.say.PeerRsp.{PeerRsp};
ghost use Rattle.peer_proto.specs.Ask.{IsPeerReq};
ghost use Rattle.peer_proto.specs.Header.{IsEpoch};
ghost use Rattle.peer_proto.specs.Say.{say_in};
ghost use Rattle.disk_history.specs.declared.event.HistEvent.{HistEvent};
ghost use Rattle.disk_history.specs.declared.event.HistEvent.TheVariants.{WriterLost, WriteStart, Read};
ghost use Rattle.guest_driver.specs.declared.disk.Disk.{Disk};
ghost use Rattle.object_id.specs.declared.limits.TheConstants.{BLOCK_BYTES};
ghost use Rattle.std.specs.List.{range_with_len};
ghost use Rattle.sheep_node.specs.declared.event.Event.{Event};
ghost use Rattle.sheep_node.specs.declared.event.Event.TheVariants as events;
ghost use Rattle.sheep_node.specs.declared.ask.Ask.{Ask};
ghost use Rattle.sheep_node.specs.declared.input.Input.TheVariants as inputs;
ghost use Rattle.sheep_node.specs.May.{MayRead, May, may_tick, has_room_for};
ghost use Rattle.sheep_node.specs.MayTests.{may};
ghost use Rattle.sheep_node.specs.State.{Node, session_at};
ghost use Rattle.sheep_node.specs.Step.{node_step};
ghost use Rattle.sheep_node.specs.Changes.{attempt_in};
ghost use Rattle.gateway.specs.Attempt.{send_of};
ghost use Rattle.gateway.specs.State.{Work};
ghost use Rattle.sheep_node.specs.StepFacts.{IsByTheLog};
ghost use Rattle.sheep_node.specs.ValidDisks.{HasValidDisks};
ghost use Rattle.message_wire.specs.declared.name.MessageName.{MessageName};
ghost use Rattle.sheep_world.specs.World.{Host, World, host_at, is_host_up, message_at};
ghost use Rattle.sheep_world.specs.Opening.{initial_world, controls_at, losses_at};
ghost use Rattle.sheep_world.specs.Asking.{input_of, session_asking};
ghost use Rattle.message_wire.specs.Message.{is_reply_to};
ghost use Rattle.sheep_world.specs.MembershipChanges.{last_weight};
ghost use Rattle.sheep_world.specs.HistoryAdditions.{begun_block, writes_begin, IsLostWrite, check_write_adds};
ghost use Rattle.sheep_world.specs.Granted.{entry_adds};
ghost use Rattle.sheep_world.specs.Meets.{MeetsBeside};
ghost use Rattle.sheep_world.specs.Incarnations.{incarnation_in};
ghost use Rattle.sheep_world.specs.Example.{lived_log, small_script};
ghost use Rattle.sheep_world.specs.Step.{EventOutcome, step};
ghost use Rattle.sheep_world.specs.NodeCauses.{NodeCause, input_of_cause, IsCause};
ghost use Rattle.sheep_world.specs.EventKinds.{EventKind};
ghost use Rattle.sheep_world.specs.HoldsTogether.{MessagesAreInRange, HoldsTogether};
ghost use Rattle.sheep_world.specs.Began.{Began, MakesMove};
ghost use Rattle.sheep_world.specs.LogFronts.{AllReadTheLog};
ghost use Rattle.sheep_world.specs.ControlsToCome.{ControlsFit};
ghost use Rattle.sheep_world.specs.LogHolds.{MayGrow, LogHolds};
ghost use Rattle.sheep_world.specs.Run.{Moment, run_from, run};
ghost use Rattle.sheep_world.specs.Enabled.{is_enabled, enabled_events, enabled_parts, enabled_count, enabled_at};
ghost use Rattle.sheep_world.specs.WireMatch.{WireMatchesNodes};
ghost use Rattle.sheep_world.specs.Ranges.{RecoveriesAreInRange};
ghost use Rattle.sheep_world.specs.SpelledWire.{PacketsAreSpelled};
ghost use Rattle.sheep_node.specs.WorkRange.{IsWorkInRange};
ghost use Rattle.sheep_world.specs.AsksAbsent.{BeganWithoutAsks};
ghost use Rattle.sheep_world.specs.BegunRequests.{IsBegun, RequestsWereBegun};
ghost use Rattle.sheep_node.specs.declared.course.Request.{Request};
ghost use Rattle.sheep_world.specs.OneWork.{NodesHaveOneWorkPerRequest, IsSentInRange, IsNewRequest};
ghost use Rattle.sheep_world.specs.RunsWithAsks.{Happens, Asks, made_by, next_move, run_with_asks};
ghost use Rattle.sheep_world.specs.AsksOfClients.{ClientsAsk};
ghost use Rattle.sheep_world.specs.NodeCauses.{ClientMayRead};
ghost use Rattle.sheep_node.specs.SessionQueues.{CommandsAreAlone};
ghost use Rattle.sheep_world.specs.ClientAsks.{next_ask_number, answer_of, may_client_ask, may_be_asked, is_read_ask, ReadsAnObject};
ghost use Rattle.sheep_world.specs.ClientSteps.{ask_begun, ask_effect, brings_answers, next_driven, world_driven};
ghost use Rattle.sheep_world.specs.NodeSteps.{node_stepped};
ghost use Rattle.sheep_node.specs.declared.check_write.CheckWrite.{CheckWrite};

/// An event makes something exactly where it may happen.
pub fn what_may_happen_is_made()
    ensures { (statements : List Statement) (world : World) (event : Event)
        → is_some (step statements event world) ≡ is_enabled statements world event }
{}

/// The enabled list has exactly the events but Phase that make something.
pub fn the_enabled_list_has_what_may_happen()
    ensures has { (statements : List Statement) (world : World) (event : Event) (made : EventOutcome)
        → step statements event world ≡ Some made → event ≢ events.Phase → Contains (enabled_events statements world) event }
    ensures makes { (statements : List Statement) (world : World) (event : Event)
        → Contains (enabled_events statements world) event → (made : EventOutcome) × (step statements event world ≡ Some made) }
    ensures no_phase { (statements : List Statement) (world : World) (event : Event)
        → Contains (enabled_events statements world) event → event ≢ events.Phase }
{}

/// The enabled list is that of its parts, of the sessions, of each sender's messages, of each node and of the next control, in this
/// order: it has as many events as they have, and the event at a place is found part by part.
pub fn the_enabled_list_is_in_parts()
    ensures whole { (statements : List Statement) (world : World)
        → flat_map (λ (part : List Event). part) (enabled_parts statements world) ≡ enabled_events statements world }
    ensures count { (statements : List Statement) (world : World)
        → enabled_count statements world ≡ length (enabled_events statements world) }
    ensures at { (statements : List Statement) (world : World) (place : ℕ)
        → enabled_at statements world place ≡ slice_get (enabled_events statements world) place }
{}

/// Lost takes the replies to the node out of the wire, and leaves all else there. A writer that it adds to the history is a write of the
/// node's present incarnation that has no reply.
pub fn a_lost_node_gets_no_reply()
    ensures wire { (statements : List Statement) (world : World) (made : EventOutcome) (node : NodeId)
        → step statements (events.Lost node) world ≡ Some made → (name : MessageName)
        → message_at name made.world ≡ cond (is_reply_to node.0 name (message_at name world)) None (message_at name world) }
    ensures writers { (statements : List Statement) (world : World) (made : EventOutcome) (node : NodeId)
        → step statements (events.Lost node) world ≡ Some made → (event : HistEvent) → Contains made.grown event
        → (request : ℕ × Statement) × (event ≡ WriterLost request.0) × IsLostWrite statements world node.0 request }
{}

/// Phase makes the next phase present: its losses replace those that are left, and its controls stand behind those that are left.
pub fn a_phase_brings_its_losses()
    ensures { (statements : List Statement) (world : World) (made : EventOutcome)
        → step statements events.Phase world ≡ Some made
        → (made.world.phase ≡ world.phase + 1) × (made.world.losses ≡ losses_at statements (world.phase + 1))
        × (made.world.controls ≡ world.controls ++ controls_at statements (world.phase + 1)) }
{}

/// A guest's write begins one write of each of its blocks, in order.
pub fn a_write_begins_each_block_once()
    ensures { (req offset : ℕ) (bytes : List ℕ) (disk : Disk)
        → map begun_block (writes_begin req offset bytes disk)
        ≡ map (λ (block : ℕ). Some block) (range_with_len (offset / BLOCK_BYTES) (length bytes / BLOCK_BYTES)) }
{}

/// A run is cut where one likes: its first events are a run, and the others one from where these lead.
pub fn a_run_is_cut_anywhere()
    ensures { (statements : List Statement) (events later : List Event) (moment last : Moment)
        → run_from statements (events ++ later) moment ≡ Some last
        → (there : Moment) × (run_from statements events moment ≡ Some there) × (run_from statements later there ≡ Some last) }
{}

/// What a history has, it keeps.
pub fn a_history_only_grows()
    ensures { (statements : List Statement) (events : List Event) (moment last : Moment)
        → run_from statements events moment ≡ Some last
        → (grown : List HistEvent) × (last.history ≡ moment.history ++ grown) }
{}

/// The nodes and the wire stay together: what is in the wire can be read, and it has exactly what up nodes wait for. And open works go
/// with the requests that may have them, at most one of each; a number that a node waits for is of one work, or else of recoveries. So
/// it is when a script opens, so it stays at each event, and so it is in each world of a run, as long as there is room for an epoch, and
/// what is sent and replied is in range.
pub fn nodes_and_wire_stay_together()
    ensures opening { (statements : List Statement)
        → WireMatchesNodes (initial_world statements) × NodesHaveOneWorkPerRequest (initial_world statements) }
    ensures kept { (statements : List Statement) (event : Event) (world : World) (made : EventOutcome)
        → MakesMove statements event world made → HoldsTogether statements world → IsSentInRange made.world
        → WireMatchesNodes made.world × NodesHaveOneWorkPerRequest made.world }
    ensures began { (statements : List Statement) → IsScript statements
        → ((world : World) → Began statements world → MayGrow world)
        → ((world : World) → Began statements world → MessagesAreInRange world)
        → (world : World) → Began statements world → HoldsTogether statements world }
{}

/// What the recoveries know of is in range when a script opens, and in each world of a run, as long as there is room for an epoch.
pub fn recoveries_stay_in_range()
    ensures opening { (statements : List Statement) → IsScript statements → RecoveriesAreInRange (initial_world statements) }
    ensures began { (statements : List Statement) → IsScript statements → ((world : World) → Began statements world → MayGrow world)
        → (world : World) → Began statements world → RecoveriesAreInRange world }
{}

/// What the tick of a recovery sends can be spelled in each world of a run, as long as there is room for an epoch. And so can what an
/// attempt sends, in any node that knows its number and has numbers left for it, where the work is in range.
pub fn what_is_asked_can_be_spelled()
    ensures tick { (statements : List Statement) → IsScript statements → ((world : World) → Began statements world → MayGrow world)
        → (world : World) → Began statements world → (node : ℕ) (host : Host) → host_at node world ≡ Some host → is_host_up host ≡ true
        → may_tick host.node ≡ true
        → All (λ (send : NodeId × PeerReq). IsPeerReq send.1) (node_step inputs.RecoverTick host.node).outputs.sends }
    ensures attempt { (asked : Work) (node : Node) → IsNode node.gateway.me.0 → IsEpoch (record { 0 = node.peer.epoch })
        → IsWorkInRange asked.work → node.sends + 31 ≤ 2 ^ 32
        → All (λ (send : NodeId × PeerReq). IsPeerReq send.1)
        (map (send_of node.gateway.me (record { 0 = node.peer.epoch }) asked.work) (attempt_in asked node).messages) }
{}

/// In each world of a run what is in the wire is the spelling of a request or a reply.
pub fn what_is_in_the_wire_was_spelled()
    ensures { (statements : List Statement) (world : World) → Began statements world → PacketsAreSpelled world }
{}

/// An event is of one of nine kinds: a node steps, for one of the causes that a step may have; a message is lost and no node is told; bytes
/// come that are no message; a node is lost, leaves, gets another weight, joins or comes back; a phase ends. A client's read is a cause of
/// steps, but no event: that no event's step is for one shows by the input that the world keeps, and isn't said here.
pub fn each_event_is_of_a_kind()
    ensures { (statements : List Statement) (event : Event) (world : World) (made : EventOutcome)
        → step statements event world ≡ Some made → EventKind statements event world made }
{}

/// In each world of a run a request of the script that a node has is one that a session has begun whose gateway the node is, in its present
/// incarnation; where no client asks, each request that it has is. So the next request of a session is new to its gateway.
pub fn requests_were_begun()
    ensures began { (statements : List Statement) (world : World) → Began statements world → RequestsWereBegun statements world }
    ensures without_asks { (statements : List Statement) (world : World) → BeganWithoutAsks statements world → (node : ℕ) (host : Host)
        → host_at node world ≡ Some host → (req : ℕ) (request : Request) → tree.get host.node.requests req ≡ Some request
        → IsBegun statements world.guests node host.incarnation req }
    ensures new { (statements : List Statement) (session : ℕ) (world : World)
        → RequestsWereBegun statements world → IsNewRequest statements session world }
{}

/// The entries that a node has read are the first ones of the log, in each world of a run.
pub fn nodes_have_read_fronts_of_the_log()
    ensures { (statements : List Statement) (world : World) → Began statements world → AllReadTheLog world }
{}

/// In each world of a run of a script the controls that are still to come fit the nodes.
pub fn the_controls_to_come_fit()
    ensures { (statements : List Statement) (world : World) → IsScript statements → Began statements world → ControlsFit statements world }
{}

/// As long as there is room for an epoch, the log of each world is a log, whose members are the nodes that are there; what nodes have of
/// disks is valid, so that what they put may stand in the log; a node may read the entry that is its next, and is in the epoch of those
/// that it has read.
pub fn the_log_holds()
    ensures log { (statements : List Statement) → IsScript statements → ((world : World) → Began statements world → MayGrow world)
        → (world : World) → Began statements world → LogHolds world }
    ensures nodes { (statements : List Statement) → IsScript statements → ((world : World) → Began statements world → MayGrow world)
        → (world : World) → Began statements world → (node : ℕ) (host : Host) → host_at node world ≡ Some host
        → HasValidDisks host.node }
    ensures next { (statements : List Statement) → IsScript statements
        → ((world : World) → Began statements world → MayGrow world)
        → (world : World) → Began statements world → (node : ℕ) (host : Host) (entry : Entry) → host_at node world ≡ Some host
        → slice_get world.log (length host.node.peer.entries) ≡ Some entry → MayRead host.node.peer.entries entry }
    ensures epochs { (statements : List Statement) → IsScript statements
        → ((world : World) → Began statements world → MayGrow world)
        → (world : World) → Began statements world → (node : ℕ) (host : Host) → host_at node world ≡ Some host
        → IsByTheLog host.node }
{}

/// A node that is up steps only on what it may, where it has room for a guest's request, may serve a peer's and may read an entry. So a
/// loss that it is told is of a message that it waits for, and a reply fits what it asked.
pub fn nodes_step_on_what_they_may()
    ensures { (statements : List Statement) (world : World) (node : ℕ) (host : Host) (cause : NodeCause)
        → HoldsTogether statements world → host_at node world ≡ Some host → is_host_up host ≡ true
        → IsCause statements world node host cause
        → MeetsBeside cause host.node → May (input_of_cause cause) host.node }
{}

/// A request that the script has, and no other, has an input: of its session, and what its statement asks.
pub fn requests_have_inputs()
    ensures has { (statements : List Statement) (req : ℕ) → is_some (input_of statements req) ≡ is_some (request_at statements req) }
    ensures session { (statements : List Statement) (req number session : ℕ) (ask : Ask)
        → input_of statements req ≡ Some (inputs.Guest number session ask)
        → (number ≡ req) × (session_asking statements req ≡ Some session) }
{}

/// What joins, leaves or gets a weight makes no disk.
pub fn members_make_no_disk()
    ensures join { (log : List Entry) (node : NodeId) (zone vnodes : ℕ) → entry_adds log (entries.Join node zone vnodes) ≡ [] }
    ensures leave { (log : List Entry) (node : NodeId) → entry_adds log (entries.Leave node) ≡ [] }
    ensures reweight { (log : List Entry) (node : NodeId) (vnodes : ℕ) → entry_adds log (entries.Reweight node vnodes) ≡ [] }
{}

/// A small log: node 1 opens it, gets another weight, leaves, and comes back with it. Its first incarnation is a member of epochs
/// 1 and 2, and its second of epoch 4.
pub fn lives_worked_out()
    ensures first { incarnation_in lived_log 1 1 ≡ 1 }
    ensures second { incarnation_in lived_log 4 1 ≡ 2 }
    ensures weight { last_weight lived_log 1 ≡ 32 }
{}

/// In the opening world of a small script its session's request may begin, and nothing else may happen.
pub fn a_small_world_worked_out()
    ensures { enabled_events small_script (initial_world small_script) ≡ events.Guest 1 ∷ [] }
{}

/// A run of events is a run with asks of these events, so each world that a run of events reaches is reached; an ask adds nothing to the
/// history; and where it may be made, it is made under a number of which the script has no request, as the client's next number always is.
pub fn asks_stand_between_the_events_of_a_run()
    ensures events { (statements : List Statement) (events : List Event)
        → run_with_asks statements (map Happens events) ≡ run statements events }
    ensures began { (statements : List Statement) (events : List Event) (moment : Moment) → run statements events ≡ Some moment
        → Began statements moment.world }
    ensures number { (statements : List Statement) (world : World) → IsScript statements → Began statements world
        → request_at statements (next_ask_number world) ≡ None }
    ensures silent { (statements : List Statement) (node : NodeId) (ask : Ask) (moment after : Moment)
        → next_move statements (Asks node ask) moment ≡ Some after → after.history ≡ moment.history }
{}

/// A client's read is made in a run exactly where `World::ask` takes it, and makes what that makes; it adds nothing to the history. A
/// client reads only objects that it names by their ids, and may read each of these so.
pub fn a_clients_read_is_made_as_asked()
    ensures made { (statements : List Statement) (world : World) (node : NodeId) (ask : Ask) → IsScript statements
        → Began statements world → may_client_ask node.0 world ≡ true → may_be_asked ask node.0 world ≡ true → is_read_ask ask ≡ true
        → made_by statements (Asks node ask) world ≡ Some (record { world = ask_effect node.0 ask world; grown = [] }) }
    ensures taken { (statements : List Statement) (world : World) (node : NodeId) (ask : Ask) (made : EventOutcome)
        → made_by statements (Asks node ask) world ≡ Some made
        → (may_client_ask node.0 world ≡ true) × (may_be_asked ask node.0 world ≡ true) × (is_read_ask ask ≡ true)
        × (made.world ≡ ask_effect node.0 ask world) }
    ensures reads { (ask : Ask) → (is_read_ask ask ≡ true) ↔ ReadsAnObject ask }
{}

/// In each world of a run session 0 is the client's at each node: its requests are reads, with numbers above those of a script's; one node
/// has each at most, and a node that isn't lost has the last ask alone, while that has no reply. So a node of which a client may read may
/// step on that, where each command is alone in its session.
pub fn clients_ask_one_at_a_time()
    ensures asks { (statements : List Statement) → IsScript statements → (world : World) → Began statements world → ClientsAsk world }
    ensures may { (statements : List Statement) (world : World) → ClientsAsk world → (node : ℕ) (host : Host)
        → host_at node world ≡ Some host → is_host_up host ≡ true → (req : ℕ) (ask : Ask)
        → ClientMayRead statements world host req ask → CommandsAreAlone host.node → May (inputs.Guest req 0 ask) host.node }
{}

/// A client's ask is the step that it would be with any script that has no request of its number: its reply is told to no session.
pub fn an_ask_is_told_to_no_session()
    ensures { (statements : List Statement) (node : ℕ) (ask : Ask) (world : World) → request_at statements (next_ask_number world) ≡ None
        → ask_effect node ask world
        ≡ node_stepped statements node (inputs.Guest (next_ask_number world) 0 ask) (ask_begun world) }
{}

/// A node that takes a client's ask, which is as it may be, may step on it exactly if the client's session there has room for it, and no
/// request has its number.
pub fn a_node_may_step_on_an_ask()
    ensures { (node : ℕ) (ask : Ask) (world : World) (host : Host) → host_at node world ≡ Some host → may_client_ask node world ≡ true
        → may_be_asked ask node world ≡ true → may (inputs.Guest (next_ask_number world) 0 ask) host.node
        ≡ (has_room_for ask (session_at 0 host.node) && not (tree.contains_key host.node.requests (next_ask_number world))) }
{}

/// What brings an answer is an event that may happen: no session asks, no control is taken, and no message is lost between nodes that are
/// up. With the answer, or if there is no such event, the world stays.
pub fn an_answer_is_brought_by_events()
    ensures next { (statements : List Statement) (world : World) (event : Event) → next_driven statements world ≡ Some event
        → Contains (enabled_events statements world) event × (brings_answers world event ≡ true) }
    ensures answered { (statements : List Statement) (turns : ℕ) (world : World) → is_some (answer_of world) ≡ true
        → world_driven statements turns world ≡ world }
    ensures still { (statements : List Statement) (turns : ℕ) (world : World) → next_driven statements world ≡ None
        → world_driven statements turns world ≡ world }
{}

/// Each block whose write a check begins is one that its disk has, and the history has a read of the same bytes.
pub fn a_check_reads_what_it_writes()
    ensures { (write : CheckWrite) (req disk block : ℕ) (coded : Bool) (bytes : List ℕ)
        → Contains (check_write_adds write) (WriteStart req disk block coded bytes)
        → (block < write.spec.size / BLOCK_BYTES) × Contains (check_write_adds write) (Read disk block bytes) }
{}
