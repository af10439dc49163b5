//! Laws of the definitions, for the proofs of the layers above: each is the contract of a function that does nothing.
ghost use Rattle.std.specs.Prelude.{◌≡◌, ◌≢◌, ◌⊎◌, ℕ, ◌*◌, ◌<◌, ◌≤◌, true, false, List, length, map, Some, None};
ghost use Rattle.std.specs.List.{concat, list_any, range_with_len};
ghost use Rattle.std.specs.FinMap.{get};
ghost use Rattle.object_id.specs.declared.node.Epoch.{Epoch};
ghost use Rattle.object_id.specs.declared.node.NodeId.{NodeId};
ghost use Rattle.object_id.specs.declared.oid.Kind.{Kind};
ghost use Rattle.object_id.specs.declared.oid.Kind.TheVariants.{Block};
ghost use Rattle.object_id.specs.declared.policy.Policy.{Policy};
ghost use Rattle.object_id.specs.declared.limits.TheConstants.{OBJECTS_MAX};
ghost use Rattle.object_id.specs.Oid.{IsVid, kind_of, object_number};
ghost use Rattle.object_id.specs.Policy.{IsPolicy, wanted_of, need_of};
ghost use Rattle.object_id.specs.Fields.{AreBytes};
ghost use Rattle.gf256.specs.Polynomial.{ArePoints};
ghost use Rattle.gf256.specs.Part.{IsAligned, part, part_size, bytes_of_parts, is_in_strips, index_at};
ghost use Rattle.hash_ring.specs.Placement.{zone_count};
ghost use Rattle.vnode_table.specs.Epochs.{EpochMembers, members_at};
ghost use Rattle.peer_proto.specs.declared.work.ObjWork.{ObjWork};
ghost use Rattle.gateway.specs.declared.message.Message.{Message};
ghost use Rattle.gateway.specs.declared.message.Status.{Status};
ghost use Rattle.gateway.specs.declared.message.Status.TheVariants.{Succeeded, Lost};
ghost use Rattle.peer_proto.specs.Work.{IsWork, oid_of, policy_of};
ghost use Rattle.peer_proto.specs.declared.work.ObjWork.TheVariants.{Create, Write, ReadAll};
ghost use Rattle.gateway.specs.Work.{is_making, ask_for, bytes_asked, bytes_of_work};
ghost use Rattle.gateway.specs.Attempt.{Attempt, is_unanswered, is_awaited_message, may_be_made, messages_with_status, messages_of};
ghost use Rattle.gateway.specs.Attempt.{is_done, bytes_in, bytes_given, bytes_through};
ghost use Rattle.gateway.specs.Messages.{AreMessagesFor};
ghost use Rattle.gateway.specs.State.{Open, Work, Gateway, is_touched, has_work, asker, next_try};
ghost use Rattle.gateway.specs.Step.{with_work, without_work, without_touch, waiting_step, attempt_with_status, attempt_continued};
ghost use Rattle.gateway.specs.Step.{touched_by, refusal_after_attempt, message_ended, attempt_step};
ghost use Rattle.gateway.specs.Outcomes.{AllSucceeded, HasFailed, AsksEnough, Tells, BeginsAttempt};

/// What is told when it is known what a message came to: a work is done only where its attempt has enough, and a
/// request is refused only while it is untouched, with the first cause of its work's last attempt.
pub fn what_an_answer_tells()
    ensures tells { (gateway : Gateway) (req : ℕ) (work : Work) (attempt : Attempt)
        → Tells gateway req work attempt (attempt_continued gateway req work attempt).act }
    // An answer goes to the attempt that its message belongs to; one of no message changes nothing.
    ensures attempt { (gateway : Gateway) (req : ℕ) (work : Work) (number : ℕ) (status : Status) (attempt : Attempt)
        → asker number gateway ≡ Some (req, work) → work.stage ≡ Open attempt
        → message_ended gateway number status
        ≡ attempt_continued (touched_by req work.work status gateway) req work (attempt_with_status number status attempt) }
    ensures none { (gateway : Gateway) (number : ℕ) (status : Status) → asker number gateway ≡ None
        → message_ended gateway number status ≡ waiting_step gateway }
    // What is known is waited for no more.
    ensures known { (number : ℕ) (status : Status) (messages : List Message) → is_unanswered status ≡ false
        → list_any (is_awaited_message number) (messages_with_status number status messages) ≡ false }
{}

/// A request that is still untouched when `tries` attempts of its work have failed is refused.
pub fn an_untouched_request_is_refused()
    ensures { (gateway : Gateway) (req : ℕ) (work : ObjWork) (number : ℕ) (attempt : Attempt)
        → HasFailed work attempt.messages → AsksEnough work attempt.messages
        → is_touched req gateway ≡ false → gateway.tries ≤ number → refusal_after_attempt gateway req work number attempt ≢ None }
{}

/// What is told when an attempt is to begin: it is sent with numbers from `first` upwards, or for want of zones its
/// request is refused while it is untouched, and else waits.
pub fn what_a_beginning_tells()
    ensures { (epochs : List EpochMembers) (gateway : Gateway) (req : ℕ) (work : Work) (first : ℕ) (epoch : Epoch)
        → BeginsAttempt gateway req work first (zone_count (members_at epochs epoch.0))
        (attempt_step epochs gateway req work first epoch).act }
{}

/// A create, a write and a read of strips ask every target, in order: of strips each for that of its place.
pub fn every_target_is_asked()
    ensures nodes { (work : ObjWork) (attempt first : ℕ) (targets : List NodeId)
        → (is_making work ≡ true) ⊎ (is_in_strips (policy_of work) (kind_of (oid_of work)) ≡ true)
        → map (λ (message : Message). message.node) (messages_of work attempt first targets) ≡ targets }
    ensures indexes { (work : ObjWork) (attempt first : ℕ) (targets : List NodeId)
        → (is_making work ≡ true) ⊎ (is_in_strips (policy_of work) (kind_of (oid_of work)) ≡ true)
        → map (λ (message : Message). message.index) (messages_of work attempt first targets)
        ≡ map (index_at (policy_of work) (kind_of (oid_of work))) (range_with_len 0 (length targets)) }
{}

/// A read of all parts asks every target, in order, each for the part of its index; it gives the pieces as they came, and
/// touches no request.
pub fn all_parts_are_read()
    ensures nodes { (oid : ℕ) (policy : Policy) (size attempt first : ℕ) (targets : List NodeId)
        → map (λ (message : Message). message.node) (messages_of (ReadAll oid policy size) attempt first targets) ≡ targets }
    ensures indexes { (oid : ℕ) (policy : Policy) (size attempt first : ℕ) (targets : List NodeId)
        → map (λ (message : Message). message.index) (messages_of (ReadAll oid policy size) attempt first targets)
        ≡ map (index_at policy (kind_of oid)) (range_with_len 0 (length targets)) }
    ensures done { (oid : ℕ) (policy : Policy) (size : ℕ) (messages : List Message)
        → is_done (ReadAll oid policy size) messages ≡ true → AllSucceeded messages }
    ensures pieces { (oid : ℕ) (policy : Policy) (size : ℕ) (pieces : List (List ℕ)) (messages : List Message)
        → map (λ (message : Message). message.status) messages ≡ map Succeeded pieces
        → bytes_given (ReadAll oid policy size) messages ≡ concat pieces }
    ensures untouched { (req oid : ℕ) (policy : Policy) (size : ℕ) (status : Status) (gateway : Gateway)
        → touched_by req (ReadAll oid policy size) status gateway ≡ gateway }
{}

/// A create or write asks each target for its part of the bytes: as many parts of different indexes as a read needs give the
/// bytes back.
pub fn the_parts_asked_are_the_bytes()
    ensures create { (oid size offset : ℕ) (policy : Policy) (bytes indexes : List ℕ) → IsPolicy policy → ArePoints indexes
        → length indexes ≡ need_of policy (kind_of oid) → AreBytes bytes → IsAligned policy (kind_of oid) (length bytes)
        → bytes_of_parts policy (kind_of oid) indexes
        (map (λ index. bytes_asked (ask_for (Create oid policy size offset bytes) index)) indexes) ≡ bytes }
    ensures write { (oid offset : ℕ) (policy : Policy) (bytes indexes : List ℕ) → IsPolicy policy → ArePoints indexes
        → length indexes ≡ need_of policy (kind_of oid) → AreBytes bytes → IsAligned policy (kind_of oid) (length bytes)
        → bytes_of_parts policy (kind_of oid) indexes
        (map (λ index. bytes_asked (ask_for (Write oid policy offset bytes) index)) indexes) ≡ bytes }
{}

/// No attempt of a work begins while another one is open.
pub fn an_open_attempt_is_waited_for()
    ensures { (epoch : Epoch) (gateway : Gateway) (req : ℕ) (work : Work) (attempt : Attempt)
        → next_try epoch gateway ≡ Some (req, work) → work.stage ≢ Open attempt }
{}

/// Where messages of different indexes, as many as a read needs, gave the parts of the same bytes, the read gives these
/// bytes back.
pub fn enough_messages_give_the_bytes()
    ensures { (policy : Policy) (kind : Kind) (messages : List Message) (bytes : List ℕ) → IsPolicy policy
        → ArePoints (map (λ (message : Message). message.index) messages) → length messages ≡ need_of policy kind
        → map (λ (message : Message). bytes_in message.status) messages
        ≡ map (λ (message : Message). part policy kind message.index bytes) messages
        → AreBytes bytes → IsAligned policy kind (length bytes)
        → bytes_through policy kind messages ≡ bytes }
{}

/// A done work gives as many bytes as its kind and size say: of a read each message that succeeded gave a part, so as many
/// parts came as a read needs, and of a read of all parts as many as are wanted.
pub fn a_done_work_gives_its_bytes()
    ensures given { (work : ObjWork) (messages : List Message) → IsWork work → AreMessagesFor work messages
        → is_done work messages ≡ true → length (bytes_given work messages) ≡ bytes_of_work work }
    // All parts of a disk's data object are those of a block.
    ensures object { (vid index size : ℕ) (policy : Policy) → IsVid vid → index < OBJECTS_MAX
        → bytes_of_work (ReadAll (object_number vid index) policy size) ≡ wanted_of policy Block * part_size policy Block size }
{}

/// A create or write message that succeeded or was lost touches its request, and touched it stays until it has ended.
/// So with what an answer tells, no request is refused of which something may have been made.
pub fn what_may_be_made_touches()
    ensures made { (req : ℕ) (work : ObjWork) (status : Status) (gateway : Gateway) → is_making work ≡ true
        → may_be_made status ≡ true → is_touched req (touched_by req work status gateway) ≡ true }
    // A lost message may have been made, as one that succeeded was.
    ensures succeeded { (req : ℕ) (work : ObjWork) (bytes : List ℕ) (gateway : Gateway) → is_making work ≡ true
        → is_touched req (touched_by req work (Succeeded bytes) gateway) ≡ true }
    ensures lost { (req : ℕ) (work : ObjWork) (gateway : Gateway) → is_making work ≡ true
        → is_touched req (touched_by req work Lost gateway) ≡ true }
    ensures stays { (other req : ℕ) (work : ObjWork) (status : Status) (gateway : Gateway) → is_touched other gateway ≡ true
        → is_touched other (touched_by req work status gateway) ≡ true }
    ensures forgotten { (req : ℕ) (gateway : Gateway) → is_touched req (without_touch req gateway) ≡ false }
    ensures others { (other req : ℕ) (gateway : Gateway) → other ≢ req
        → is_touched other (without_touch req gateway) ≡ is_touched other gateway }
{}

/// A step changes the work of its request alone.
pub fn works_stand_by_their_requests()
    ensures stands { (req : ℕ) (work : Work) (gateway : Gateway) → get (with_work req work gateway).works req ≡ Some work }
    ensures others { (other req : ℕ) (work : Work) (gateway : Gateway) → other ≢ req
        → get (with_work req work gateway).works other ≡ get gateway.works other }
    ensures ended { (req : ℕ) (gateway : Gateway) → has_work req (without_work req gateway) ≡ false }
    ensures left { (other req : ℕ) (gateway : Gateway) → other ≢ req
        → get (without_work req gateway).works other ≡ get gateway.works other }
{}
