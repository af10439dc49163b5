//! Laws of the definitions, for the proofs of the layers above: each is the contract of a function that does nothing.
ghost use Rattle.std.specs.Prelude.{◌≡◌, ◌≢◌, ◌≤◌, ℕ, ◌+◌, ◌-◌, true, false, List, [], ◌++◌, length, slice_get, Some};
ghost use Rattle.std.specs.List.{list_all, AllByRecursion};
ghost use Rattle.std.specs.FinMap.{get};
ghost use Rattle.std.specs.Option.{option_map};
ghost use Rattle.object_id.specs.declared.limits.TheConstants.{INPUT_BYTES_MAX};
ghost use Rattle.object_id.specs.declared.node.NodeId.{NodeId};
ghost use Rattle.object_id.specs.declared.oid.Kind.{Kind};
ghost use Rattle.object_list.specs.Gathered.{has_node};
ghost use Rattle.peer_proto.specs.declared.ask.PeerReq.{PeerReq};
ghost use Rattle.cluster_script.specs.declared.statement.Statement.{Statement};
ghost use Rattle.cluster_script.specs.Language.{IsScript};
ghost use Rattle.sheep_node.specs.declared.input.Input.TheVariants as inputs;
ghost use Rattle.sheep_node.specs.May.{May};
ghost use Rattle.sheep_node.specs.NodeInvariant.{IsSoundNode};
ghost use Rattle.sheep_node.specs.Step.{is_due};
ghost use Rattle.sheep_node.specs.StepState.{StepState};
ghost use Rattle.sheep_world.specs.Began.{Began};
ghost use Rattle.sheep_world.specs.Run.{run};
ghost use Rattle.sheep_world.specs.World.{Host, World, host_at, is_host_up};
ghost use Rattle.sheep_world.specs.NodeCauses.{NodeCause, input_of_cause, IsCause};
ghost use Rattle.sheep_world.specs.OneWork.{WorksAskInRange};
ghost use Rattle.sheep_world.specs.HoldsTogether.{RepliesFit, HoldsTogether};
ghost use Rattle.sheep_world.specs.LogHolds.{MayGrow};
ghost use Rattle.sheep_world.specs.Step.{EventOutcome, step};
ghost use Rattle.sheep_world.specs.RunsWithAsks.{Move, run_with_asks};
ghost use Rattle.overlap_law.specs.Attempts.{MessageFate, Flying, Served, AttemptRecord, has_message, attempt_with_fate};
ghost use Rattle.overlap_law.specs.Words.{Hosts, is_beyond, is_made, is_doomed, has_served, unit_start, unit_end, covers_unit, base_of};
ghost use Rattle.overlap_law.specs.Words.{own_base_of};
ghost use Rattle.overlap_law.specs.Headline.{OtherEpochsChangeNothing, RefusedHaveNoItems, RefusedMakeNothing};
ghost use Rattle.overlap_law.specs.Past.{MomentWithPast, run_with_past, without_past, next_moment, first_moment};
ghost use Rattle.overlap_law.specs.StepMoments.{SteppingNode, IsStepping, StepsByChanges, IsWithinStep, moment_in_step, attempts_of_change};
ghost use Rattle.overlap_law.specs.MomentChanges.{MomentChange, MomentTrail, RunsAreInRange, EventsAreTrails};
ghost use Rattle.overlap_law.specs.Traffic.{TrafficBetween, BeginsInTurn, OpenAttemptsHaveMessages};
ghost use Rattle.overlap_law.specs.Fates.{AttemptsAreOrdered};
ghost use Rattle.overlap_law.specs.OpenWorks.{OpenAttemptsAreLatest, WorksKnowTheirFates, PacketsAreOfOpenWorks};
ghost use Rattle.overlap_law.specs.OpenWorks.{MessagesTouchOrAreAwaited, ServedRequestsAreTouched, LosersAreTouched};
ghost use Rattle.overlap_law.specs.OpenWorks.{RefusedRequestsAreMute};
ghost use Rattle.overlap_law.specs.Flight.{FlyInThePast, RequestsAreOfThePast, PacketsAreAwaited, RepliersHaveCome, RepliesAreOfTheirEpoch};
ghost use Rattle.overlap_law.specs.Flight.{TheGoneAreFenced};
ghost use Rattle.overlap_law.specs.NodeEpochs.{TheUpAreMembers, NodesHaveRead, SettledIsRead, TheUpHaveStayed, LeaversAreBeyond};
ghost use Rattle.overlap_law.specs.NodeEpochs.{RecoveriesArePresent, AnswerersHaveCome, TheRecoveredHaveAll, TheUnfinishedAreUnsettled};
ghost use Rattle.overlap_law.specs.RequestsOfScript.{JoinsAreNew};
ghost use Rattle.overlap_law.specs.RoomOfScripts.{HasFewControls};
ghost use Rattle.overlap_law.specs.RowsInRange.{RowsCanBeTold, ObjectsAreFew};
ghost use Rattle.overlap_law.specs.PiecesInRange.{PiecesAreInRange};
ghost use Rattle.overlap_law.specs.TiedAttempts.{IsTied};
ghost use Rattle.overlap_law.specs.ShapedAttempts.{AreShaped};
ghost use Rattle.overlap_law.specs.Groups.{TermsAreKept, FlightIsKept};

/// A made attempt isn't doomed, and whatever is told of a message leaves it made.
pub fn what_is_made_stays_made()
    ensures apart { (hosts : Hosts) (attempt : AttemptRecord) → is_made attempt ≡ true → is_doomed hosts attempt ≡ false }
    ensures stays { (told : MessageFate) (sender : NodeId) (number : ℕ) (attempt : AttemptRecord) → is_made attempt ≡ true
        → is_made (attempt_with_fate told sender number attempt) ≡ true }
{}

/// A doomed attempt stays doomed: when nodes go on, and when a message of it is lost, is refused, or is served by a
/// target that isn't beyond its epoch.
pub fn what_is_doomed_stays_doomed()
    ensures goes_on { (old new : Hosts) (attempt : AttemptRecord)
        → ((node : NodeId) → is_beyond old attempt.epoch node ≡ true → is_beyond new attempt.epoch node ≡ true)
        → is_doomed old attempt ≡ true → is_doomed new attempt ≡ true }
    ensures told { (hosts : Hosts) (told : MessageFate) (sender : NodeId) (number : ℕ) (attempt : AttemptRecord) → told ≢ Flying
        → ((target : NodeId) → slice_get attempt.targets (number - attempt.first) ≡ Some target → told ≡ Served
        → is_beyond hosts attempt.epoch target ≡ false)
        → is_doomed hosts attempt ≡ true → is_doomed hosts (attempt_with_fate told sender number attempt) ≡ true }
{}

/// Once all targets of an attempt are beyond its epoch it is made or doomed, and a made one was served by each of them.
pub fn what_becomes_of_an_attempt()
    ensures doomed { (hosts : Hosts) (attempt : AttemptRecord) → length attempt.fates ≡ length attempt.targets
        → list_all (is_beyond hosts attempt.epoch) attempt.targets ≡ true → is_made attempt ≡ false
        → is_doomed hosts attempt ≡ true }
    ensures served { (node : NodeId) (attempt : AttemptRecord) → length attempt.fates ≡ length attempt.targets
        → is_made attempt ≡ true → has_node node attempt.targets ≡ true → has_served node attempt ≡ true }
{}

/// In every run each attempt has a fate for each of its targets.
pub fn each_target_has_its_fate()
    ensures { (script : List Statement) (moves : List Move) (moment : MomentWithPast) → run_with_past script moves ≡ Some moment
        → AllByRecursion (λ (attempt : AttemptRecord). length attempt.fates ≡ length attempt.targets) moment.past.attempts }
{}

/// A base is made, and a unit's own base covers it.
pub fn a_base_is_made()
    ensures made { (attempts : List AttemptRecord) (base : AttemptRecord) → base_of attempts ≡ Some base → is_made base ≡ true }
    ensures covers { (unit : ℕ) (attempts : List AttemptRecord) (own : AttemptRecord) → own_base_of unit attempts ≡ Some own
        → covers_unit unit own ≡ true }
{}

/// The units of an object follow each other without a gap.
pub fn units_follow_each_other()
    ensures { (kind : Kind) (unit : ℕ) → unit_end kind unit ≡ unit_start kind (unit + 1) }
{}

/// What is told of a message says nothing of the attempts that it isn't of.
pub fn other_attempts_hear_nothing()
    ensures { (told : MessageFate) (sender : NodeId) (number : ℕ) (attempt : AttemptRecord) → has_message sender number attempt ≡ false
        → attempt_with_fate told sender number attempt ≡ attempt }
{}

/// The past stands beside a run and changes nothing of it: without it the same events and reads lead to the same world, with the
/// same history.
pub fn the_past_follows_the_run()
    ensures { (script : List Statement) (moves : List Move)
        → option_map without_past (run_with_past script moves) ≡ run_with_asks script moves }
{}

/// The part of the headline on peers: in every run a peer's request of another epoch is refused with the node's own, and
/// leaves the node as it was. For between events no node has a `Recovered` due, which such a step might put.
pub fn peers_of_another_epoch_change_nothing()
    ensures nothing { (script : List Statement) (moves : List Move) (moment : MomentWithPast)
        → run_with_past script moves ≡ Some moment → OtherEpochsChangeNothing script moment.world }
    ensures rested { (script : List Statement) (moves : List Move) (moment : MomentWithPast) (n : ℕ) (host : Host)
        → run_with_past script moves ≡ Some moment → get moment.world.hosts n ≡ Some host → is_due host.node ≡ false }
{}

/// Where every object was available at every state, no read is left out.
pub fn no_read_of_what_was_available_is_left_out()
    ensures { (script : List Statement) (moves : List Move) (moment : MomentWithPast) → run_with_past script moves ≡ Some moment
        → moment.past.unavailable ≡ [] → moment.past.available_history ≡ moment.past.history }
{}

/// An event, or a client's read, is a trail of small changes: from the moment before one that may happen the one after it is reached by
/// changes of a moment. A step that works go on with, as that on a read, is one change of its node after the other; any other event is one
/// change.
pub fn an_event_is_a_trail_of_changes()
    ensures { (script : List Statement) → EventsAreTrails script }
{}

/// In each run in range a change of the node in its step adds to the attempts exactly the one that it opens, if that creates or writes.
pub fn an_attempt_begins_where_one_opens()
    ensures { (script : List Statement) (start : MomentWithPast) (stepping : SteppingNode) (so_far next : StepState)
        → RunsAreInRange script → Began script start.world → IsStepping script start.world stepping → StepsByChanges stepping.cause
        → (within : IsWithinStep stepping so_far next)
        → (moment_in_step script stepping start next).past.attempts ≡ (moment_in_step script stepping start so_far).past.attempts
        ++ attempts_of_change stepping.host so_far next within.change }
{}

/// In each run in range a change of a moment is of one of seven kinds, by what it makes of the wire and the attempts.
pub fn each_change_is_of_a_kind_of_traffic()
    ensures { (script : List Statement) (start before after : MomentWithPast) → RunsAreInRange script → Began script start.world
        → MomentChange script start before after → TrafficBetween before after }
{}

/// The wire and the attempts stay tied: each number in the wire was given by its sender, no reply goes to a lost node, a message of an
/// attempt flies exactly while its request is in the wire, a reply to it says success exactly where its target served it, who served it
/// came to its epoch, and the attempts go with the incarnations of their gateways. So it is when a script opens, each change of a moment
/// and each event keeps it, and so it is in each run in range.
pub fn the_wire_and_the_attempts_stay_tied()
    ensures opening { (script : List Statement) → IsTied (first_moment script) }
    ensures change { (script : List Statement) (start before after : MomentWithPast) → RunsAreInRange script → Began script start.world
        → MomentChange script start before after → IsTied before → IsTied after }
    ensures event { (script : List Statement) (move : Move) (before after : MomentWithPast) → RunsAreInRange script
        → Began script before.world → next_moment script move before ≡ Some after → IsTied before → IsTied after }
    ensures run { (script : List Statement) (moves : List Move) (moment : MomentWithPast) → RunsAreInRange script
        → run_with_past script moves ≡ Some moment → IsTied moment }
{}

/// Two more conjuncts are kept by each change at which the attempts are tied. The attempts on an object stay in order, if one that begins
/// does so in its turn. And open attempts stay the latest, if after the change each open create or write has a message. That they do holds
/// of runs (`attempts_are_in_order`, `open_attempts_are_the_latest`).
pub fn the_attempts_stay_in_order()
    ensures ordered { (script : List Statement) (start before after : MomentWithPast) → RunsAreInRange script → Began script start.world
        → MomentChange script start before after → IsTied before → BeginsInTurn before after
        → AttemptsAreOrdered before.world.wire before.past.attempts → AttemptsAreOrdered after.world.wire after.past.attempts }
    ensures latest { (script : List Statement) (start before after : MomentWithPast) → RunsAreInRange script → Began script start.world
        → MomentChange script start before after → IsTied before → OpenAttemptsHaveMessages after.world.hosts
        → OpenAttemptsAreLatest before.world.hosts before.past.attempts → OpenAttemptsAreLatest after.world.hosts after.past.attempts }
{}

/// What was asked was asked in an epoch that its sender came to. Of what flies this is kept by each change of a moment at which the
/// attempts are tied, and in each run in range it holds of what flies and of what the nodes wait for.
pub fn what_is_asked_is_of_the_past()
    ensures change { (script : List Statement) (start before after : MomentWithPast) → RunsAreInRange script → Began script start.world
        → MomentChange script start before after → IsTied before → FlyInThePast before.world.hosts before.world.wire
        → FlyInThePast after.world.hosts after.world.wire }
    ensures run { (script : List Statement) (moves : List Move) (moment : MomentWithPast) → RunsAreInRange script
        → run_with_past script moves ≡ Some moment → RequestsAreOfThePast moment.world.hosts moment.world.wire }
{}

/// In each run in range a node that isn't lost is a member of the newest epoch. What a node has read are the first entries of the log,
/// and by them are its epoch, the settled one, and the members of each epoch that it entered. The settled epoch that it has read is no
/// later than the log's, nor than its own.
pub fn what_nodes_have_read_is_of_the_log()
    ensures members { (script : List Statement) (moves : List Move) (moment : MomentWithPast) → RunsAreInRange script
        → run_with_past script moves ≡ Some moment → TheUpAreMembers moment.world.log moment.world.hosts }
    ensures read { (script : List Statement) (moves : List Move) (moment : MomentWithPast) → RunsAreInRange script
        → run_with_past script moves ≡ Some moment → NodesHaveRead moment.world.log moment.world.hosts }
    ensures settled { (script : List Statement) (moves : List Move) (moment : MomentWithPast) → RunsAreInRange script
        → run_with_past script moves ≡ Some moment → SettledIsRead moment.world.log moment.world.hosts }
{}

/// In each run of a script a node whose join is still to come isn't there, and joins once.
pub fn who_joins_is_new()
    ensures { (script : List Statement) (moves : List Move) (moment : MomentWithPast) → IsScript script
        → run_with_past script moves ≡ Some moment → JoinsAreNew script moment.world }
{}

/// Each attempt is to create or write, by the policy of its object's disk, whose id was reserved in the attempt's epoch or before; and it
/// went to the targets of its epoch, as many as are wanted. So it is when a script opens, each change of a moment and each event keeps it,
/// and so it is in each run in range.
pub fn the_attempts_are_shaped()
    ensures opening { (script : List Statement) → AreShaped (first_moment script) }
    ensures change { (script : List Statement) (start before after : MomentWithPast) → RunsAreInRange script → Began script start.world
        → MomentChange script start before after → AreShaped before → AreShaped after }
    ensures event { (script : List Statement) (move : Move) (before after : MomentWithPast) → RunsAreInRange script
        → Began script before.world → next_moment script move before ≡ Some after → AreShaped before → AreShaped after }
    ensures run { (script : List Statement) (moves : List Move) (moment : MomentWithPast) → RunsAreInRange script
        → run_with_past script moves ≡ Some moment → AreShaped moment }
{}

/// In each run in range what is in the wire of a node that isn't lost is something that it waits for, and all that it waits for is there
/// while it has numbers left; the messages of a recovery are of its epoch, and those of its search of the search's level. A reply is of the
/// epoch that its say needs, and its node came to that epoch, which each change of a moment keeps. And the requests of a node that was lost
/// and left are of epochs below that of its `Leave`.
pub fn the_wire_is_linked()
    ensures linked { (script : List Statement) (moves : List Move) (moment : MomentWithPast) → RunsAreInRange script
        → run_with_past script moves ≡ Some moment → PacketsAreAwaited moment.world.hosts moment.world.wire }
    ensures change { (script : List Statement) (start before after : MomentWithPast) → RunsAreInRange script → Began script start.world
        → MomentChange script start before after → RepliersHaveCome before.world.hosts before.world.wire
        → RepliersHaveCome after.world.hosts after.world.wire }
    ensures said { (script : List Statement) (moves : List Move) (moment : MomentWithPast) → RunsAreInRange script
        → run_with_past script moves ≡ Some moment → RepliesAreOfTheirEpoch moment.world.hosts moment.world.wire }
    ensures fenced { (script : List Statement) (moves : List Move) (moment : MomentWithPast) → RunsAreInRange script
        → run_with_past script moves ≡ Some moment → TheGoneAreFenced moment.world.log moment.world.hosts moment.world.wire }
{}

/// The group of the wire of the invariant holds in each run in range.
pub fn the_wire_is_kept()
    ensures { (script : List Statement) (moves : List Move) (moment : MomentWithPast) → RunsAreInRange script
        → run_with_past script moves ≡ Some moment
        → FlightIsKept moment.world.log moment.world.hosts moment.world.wire moment.past.attempts }
{}

/// In each run in range what a node that may step knows of the messages of its open creates and writes is so: one of which it has no word
/// is in the wire; one that succeeded was served, one that was refused is doomed, and one that was lost doesn't fly.
pub fn gateways_know_the_fates()
    ensures { (script : List Statement) (moves : List Move) (moment : MomentWithPast) → RunsAreInRange script
        → run_with_past script moves ≡ Some moment → WorksKnowTheirFates moment.world.hosts moment.world.wire moment.past.attempts }
{}

/// In each run in range a member stays one until it is lost: a member of an epoch that is neither lost nor beyond it is a member of each
/// later one, and one that is none of a later epoch is lost or came to that. So it is at each moment on the way of an event, and at its
/// end.
pub fn members_stay_until_they_are_lost()
    ensures stayed { (script : List Statement) (moves : List Move) (start moment : MomentWithPast) → RunsAreInRange script
        → run_with_past script moves ≡ Some start → MomentTrail script start moment
        → TheUpHaveStayed moment.world.log moment.world.hosts }
    ensures left { (script : List Statement) (moves : List Move) (start moment : MomentWithPast) → RunsAreInRange script
        → run_with_past script moves ≡ Some start → MomentTrail script start moment
        → LeaversAreBeyond moment.world.log moment.world.hosts }
{}

/// In each run in range a recovery has the members of its epoch, and is of the one in which its node is, if the node is a member of that;
/// and a member that it doesn't wait for came to its epoch. So it is at each moment on the way of an event, and at its end.
pub fn recoveries_are_of_members_that_came()
    ensures present { (script : List Statement) (moves : List Move) (start moment : MomentWithPast) → RunsAreInRange script
        → run_with_past script moves ≡ Some start → MomentTrail script start moment
        → RecoveriesArePresent moment.world.log moment.world.hosts }
    ensures answered { (script : List Statement) (moves : List Move) (start moment : MomentWithPast) → RunsAreInRange script
        → run_with_past script moves ≡ Some start → MomentTrail script start moment → AnswerersHaveCome moment.world.hosts }
{}

/// In each run in range whose `Recovered` of an epoch is in the log or still to be put came to that epoch, as did each member of it, and
/// while it is there its list is finished and nothing is pending; and the settled epoch is below that of a node that isn't lost and
/// recovers. So it is at each moment on the way of an event, and at its end.
pub fn the_recovered_have_all()
    ensures recovered { (script : List Statement) (moves : List Move) (start moment : MomentWithPast) → RunsAreInRange script
        → run_with_past script moves ≡ Some start → MomentTrail script start moment
        → TheRecoveredHaveAll moment.world.log moment.world.hosts }
    ensures unsettled { (script : List Statement) (moves : List Move) (start moment : MomentWithPast) → RunsAreInRange script
        → run_with_past script moves ≡ Some start → MomentTrail script start moment
        → TheUnfinishedAreUnsettled moment.world.log moment.world.hosts }
{}

/// The group of epochs and nodes of the invariant holds in each run in range.
pub fn epochs_and_nodes_are_kept()
    ensures { (script : List Statement) (moves : List Move) (moment : MomentWithPast) → RunsAreInRange script
        → run_with_past script moves ≡ Some moment → TermsAreKept moment.world.log moment.world.hosts }
{}

/// Each open create or write has a message: so it is when a script opens, each change of a moment keeps it, and so it is in each run in
/// range. So `the_attempts_stay_in_order` needs less from the group of writers.
pub fn open_works_have_messages()
    ensures opening { (script : List Statement) → OpenAttemptsHaveMessages (first_moment script).world.hosts }
    ensures change { (script : List Statement) (start before after : MomentWithPast) → RunsAreInRange script → Began script start.world
        → MomentChange script start before after → OpenAttemptsHaveMessages before.world.hosts
        → OpenAttemptsHaveMessages after.world.hosts }
    ensures run { (script : List Statement) (moves : List Move) (moment : MomentWithPast) → RunsAreInRange script
        → run_with_past script moves ≡ Some moment → OpenAttemptsHaveMessages moment.world.hosts }
{}

/// What is in the wire of an attempt of a node that isn't lost is awaited by the attempt's own work: its message is an unanswered one of
/// the open work of its request. So it is when a script opens, each change of a moment at which the attempts are tied keeps it, and so it
/// is in each run in range.
pub fn packets_are_of_open_works()
    ensures opening { (script : List Statement) → PacketsAreOfOpenWorks (first_moment script).world.hosts (first_moment script).world.wire
        (first_moment script).past.attempts }
    ensures change { (script : List Statement) (start before after : MomentWithPast) → RunsAreInRange script → Began script start.world
        → MomentChange script start before after → IsTied before
        → PacketsAreOfOpenWorks before.world.hosts before.world.wire before.past.attempts
        → PacketsAreOfOpenWorks after.world.hosts after.world.wire after.past.attempts }
    ensures run { (script : List Statement) (moves : List Move) (moment : MomentWithPast) → RunsAreInRange script
        → run_with_past script moves ≡ Some moment
        → PacketsAreOfOpenWorks moment.world.hosts moment.world.wire moment.past.attempts }
{}

/// In each run in range a request without reply, at a gateway that isn't lost, is touched by each message of an attempt that was served,
/// or that was lost or of which the reply was; or nothing came of the message yet, as far as the gateway knows. So it is at each moment
/// on the way of an event, and at its end. There, at a gateway that may step, the success of each served message of an attempt is in the
/// wire still where the request isn't touched, and what was lost has touched it.
pub fn messages_touch_their_requests()
    ensures within { (script : List Statement) (moves : List Move) (start moment : MomentWithPast) → RunsAreInRange script
        → run_with_past script moves ≡ Some start → MomentTrail script start moment
        → MessagesTouchOrAreAwaited moment.world.hosts moment.past.lost moment.past.attempts }
    ensures served { (script : List Statement) (moves : List Move) (moment : MomentWithPast) → RunsAreInRange script
        → run_with_past script moves ≡ Some moment
        → ServedRequestsAreTouched moment.world.hosts moment.world.wire moment.past.attempts }
    ensures lost { (script : List Statement) (moves : List Move) (moment : MomentWithPast) → RunsAreInRange script
        → run_with_past script moves ≡ Some moment → LosersAreTouched moment.world.hosts moment.past.lost moment.past.attempts }
{}

/// In each run in range the attempts of a refused request are mute, and nothing of them is in flight. So it is at each moment on the way of
/// an event, and at its end.
pub fn attempts_of_the_refused_are_mute()
    ensures within { (script : List Statement) (moves : List Move) (start moment : MomentWithPast) → RunsAreInRange script
        → run_with_past script moves ≡ Some start → MomentTrail script start moment
        → RefusedRequestsAreMute moment.world.wire moment.past.refused moment.past.attempts }
    ensures run { (script : List Statement) (moves : List Move) (moment : MomentWithPast) → RunsAreInRange script
        → run_with_past script moves ≡ Some moment
        → RefusedRequestsAreMute moment.world.wire moment.past.refused moment.past.attempts }
{}

/// In each world of a run in range nodes and wire go together, and so do works and requests, and all that is asked and told can be spelled;
/// and an up node may take each step that an event, or a client's read, has it take. For what a request in the wire creates, writes or
/// reads ends inside the rows of its object: a session's read goes by the entries of an open disk's table, which name none but the disk and
/// those above it, and a client's is asked inside its object.
pub fn nodes_step_on_what_they_may()
    ensures together { (script : List Statement) (world : World) → RunsAreInRange script → Began script world → HoldsTogether script world }
    ensures may { (script : List Statement) (world : World) (n : ℕ) (host : Host) (cause : NodeCause) → RunsAreInRange script
        → Began script world → host_at n world ≡ Some host → is_host_up host ≡ true → IsCause script world n host cause
        → May (input_of_cause cause) host.node }
    ensures pieces { (script : List Statement) (world : World) → RunsAreInRange script → Began script world → PiecesAreInRange world }
{}

/// In each run in range no message to create or write of a refused request succeeded, and neither it nor the reply to it was lost. So the
/// headline says it of each run.
pub fn refused_requests_make_nothing()
    ensures { (script : List Statement) (moves : List Move) (moment : MomentWithPast) → RunsAreInRange script
        → run_with_past script moves ≡ Some moment
        → RefusedMakeNothing moment.past.refused moment.past.lost moment.past.attempts }
{}

/// In each run in range a refused request has no items in the history: what it began to write its refusal took back, also what a check
/// began, and nothing of it begins later. So the headline says it of each run.
pub fn refused_requests_have_no_items()
    ensures { (script : List Statement) (moves : List Move) (moment : MomentWithPast) → RunsAreInRange script
        → run_with_past script moves ≡ Some moment
        → RefusedHaveNoItems moment.past.refused moment.past.history }
{}

/// In each world of a run what was sent last for works can be spelled, and each node is sound, as long as there is room for an epoch.
pub fn what_works_ask_can_be_spelled()
    ensures asked { (script : List Statement) → IsScript script → ((world : World) → Began script world → MayGrow world)
        → (world : World) → Began script world → WorksAskInRange world }
    ensures nodes { (script : List Statement) → IsScript script → ((world : World) → Began script world → MayGrow world)
        → (world : World) → Began script world → (node : ℕ) (host : Host) → host_at node world ≡ Some host → IsSoundNode host.node }
{}

/// Each node has rows of fewer than 2^29 objects, in each world of a run, as long as there is room for an epoch: a script has at most
/// 10,000 requests, each touches few objects of its disk, and there are fewer than 2^24 inodes. So the rows of the nodes can be told: each
/// is as the rows of its object are.
pub fn nodes_have_rows_of_few_objects()
    ensures few { (script : List Statement) → IsScript script → ((world : World) → Began script world → MayGrow world)
        → (world : World) → Began script world → ObjectsAreFew world }
    ensures told { (script : List Statement) → IsScript script → ((world : World) → Began script world → MayGrow world)
        → (world : World) → Began script world → RowsCanBeTold world }
{}

/// What a node replies can be read, and fits what the sender waits for, in each world of a run, as long as there is room for an epoch.
pub fn what_is_replied_fits()
    ensures { (script : List Statement) → IsScript script → ((world : World) → Began script world → MayGrow world)
        → (world : World) → Began script world → RepliesFit world }
{}

/// The runs of a script with few controls are in range, and so are those of each script that a text may spell.
pub fn runs_of_few_controls_are_in_range()
    ensures few { (script : List Statement) → IsScript script → HasFewControls script → RunsAreInRange script }
    ensures text { (script : List Statement) → IsScript script → length script ≤ INPUT_BYTES_MAX → RunsAreInRange script }
{}
