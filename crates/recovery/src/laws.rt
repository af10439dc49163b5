//! Laws of the definitions, for the proofs of the layers above: each is the contract of a function that does nothing.
ghost use Rattle.std.specs.Prelude.{◌≡◌, ◌≢◌, ◌↔◌, ◌⊎◌, Contains, ℕ, ◌-◌, ◌<◌, ◌≤◌, true, false, List, [], ◌∷◌, length, take, map, Option};
ghost use Rattle.std.specs.Prelude.{Some, None, ◌^◌, All};
ghost use Rattle.std.specs.FinMap as tree;
ghost use Rattle.std.specs.Option.{IfSome};
ghost use Rattle.std.specs.List.Sorted.{IsStrictlyIncreasing};
ghost use Rattle.std.specs.List.{list_any, AllByRecursion, range_with_len};
ghost use Rattle.object_id.specs.declared.node.Epoch.{Epoch};
ghost use Rattle.object_id.specs.declared.node.NodeId.{NodeId};
ghost use Rattle.object_id.specs.declared.oid.Kind.{Kind};
ghost use Rattle.object_id.specs.declared.oid.Kind.TheVariants.{Block};
ghost use Rattle.object_id.specs.declared.policy.Policy.{Policy};
ghost use Rattle.object_id.specs.declared.policy.Policy.TheVariants.{Copies, Coded};
ghost use Rattle.object_id.specs.Policy.{IsPolicy, need_of};
ghost use Rattle.object_id.specs.Fields.{AreBytes};
ghost use Rattle.gf256.specs.Polynomial.{ArePoints};
ghost use Rattle.gf256.specs.Part.{IsAligned, part};
ghost use Rattle.object_store.specs.declared.key.Key.{Key};
ghost use Rattle.object_store.specs.declared.row.RowCopy.{RowCopy};
ghost use Rattle.object_store.specs.Store.{rows_of, row_bytes};
ghost use Rattle.object_list.specs.Gathered.{has_node};
ghost use Rattle.object_list.specs.Union.{union};
ghost use Rattle.peer_proto.specs.declared.ask.PeerAsk.TheVariants as asks;
ghost use Rattle.peer_proto.specs.declared.ask.PeerReq.{PeerReq};
ghost use Rattle.peer_proto.specs.declared.say.PeerSay.{PeerSay};
ghost use Rattle.peer_proto.specs.declared.say.PeerSay.TheVariants as says;
ghost use Rattle.peer_proto.specs.declared.say.Refusal.{Refusal};
ghost use Rattle.recovery.specs.Shown.{NodeView, live_policy, index_in, own_row, with_row, is_pending_object, is_to_recover};
ghost use Rattle.recovery.specs.State.{Message, Search, RecoveryState, search_at, is_finished, is_missing, all_unanswered, message_of};
ghost use Rattle.recovery.specs.State.{MayBegin, MayTick};
ghost use Rattle.recovery.specs.Level.{row_of_target, by_index, rows_taken, indexes_of, part_from_rows, own_index, rows_found, are_enough};
ghost use Rattle.recovery.specs.Level.{level_over, is_of_search, searching};
ghost use Rattle.recovery.specs.Tick.{level_asked, with_messages, tick_messages, tick_sends, state_after_tick};
ghost use Rattle.recovery.specs.Frame.{frame, WaitsForLists};
ghost use Rattle.recovery.specs.Steps.{to_recover, recovery_from_epoch, without_unanswered};
ghost use Rattle.recovery.specs.Steps.{search_after_answer, message_end, recovery_on_reply, recovery_on_loss};
ghost use Rattle.peer_proto.specs.Ask.{IsPeerReq};
ghost use Rattle.peer_proto.specs.declared.say.PeerRsp.{PeerRsp};
ghost use Rattle.recovery.specs.Fits.{fits_recovery};
ghost use Rattle.recovery.specs.Range.{IsInRange, NamesIds};
ghost use Rattle.recovery.specs.Step.{MayStep};
ghost use Rattle.recovery.specs.Example.{object, request, in_epoch_3, with_object_named, with_object_pending, found_at_both};
ghost use Rattle.recovery.specs.Example.{with_level_half_answered, heard_of_none, none_at_all};

/// Once each other member has named its objects, pending are, in ascending order, those of the named objects and of the
/// node's own that it has to recover.
pub fn what_is_pending()
    ensures ascending { (state : RecoveryState) → IsStrictlyIncreasing state.recovery.lists.objects
        → IsStrictlyIncreasing (to_recover state) }
    ensures has { (state : RecoveryState) (oid : ℕ) → Contains (to_recover state) oid
        ↔ ((Contains state.recovery.lists.objects oid ⊎ Contains (tree.keys state.shown.rows) oid)
        × (is_to_recover state.recovery.me state.recovery.epoch state.shown oid ≡ true)) }
{}

/// Nothing is searched before each other member has named its objects: until then it isn't known what is pending.
pub fn lists_come_before_searches()
    ensures begin { (epoch : ℕ) (members : List NodeId) (state : RecoveryState) → WaitsForLists (recovery_from_epoch epoch members state) }
    ensures tick { (first : ℕ) (state : RecoveryState) → WaitsForLists state → WaitsForLists (state_after_tick first state) }
    ensures end { (number : ℕ) (said : Option PeerSay) (state : RecoveryState) → WaitsForLists state
        → WaitsForLists (message_end number said state) }
    // A member whose list is refused or lost hasn't named its objects.
    ensures refused { (number : ℕ) (refusal : Refusal) (state : RecoveryState) (message : Message)
        → message_of number state.recovery.unanswered ≡ Some message → message.request.ask ≡ asks.List
        → (message_end number None state ≡ without_unanswered number state)
        × (message_end number (Some (says.Refused refusal)) state ≡ without_unanswered number state) }
{}

/// Of an older recovery, or of a search that has ended, an answer or a loss only makes its message answered.
pub fn old_messages_only_become_answered()
    // As a recovery begins, all unanswered messages are of older ones.
    ensures begin { (epoch : ℕ) (members : List NodeId) (state : RecoveryState)
        → ((recovery_from_epoch epoch members state).recovery.unanswered ≡ [])
        × ((recovery_from_epoch epoch members state).recovery.older ≡ all_unanswered state.recovery) }
    ensures older { (number : ℕ) (said : Option PeerSay) (state : RecoveryState)
        → message_of number state.recovery.unanswered ≡ None
        → message_end number said state ≡ without_unanswered number state }
    // A search has ended where its object is pending no more, whatever ended it.
    ensures over { (number : ℕ) (said : Option PeerSay) (state : RecoveryState) (message : Message) (oid : ℕ) (level : Epoch)
        → message_of number state.recovery.unanswered ≡ Some message
        → message.request.ask ≡ asks.RecoverRead oid level
        → is_pending_object oid state.shown.pending ≡ false
        → message_end number said state ≡ without_unanswered number state }
{}

/// The messages of a tick are numbered upwards, and each is unanswered until an answer or a loss of its number.
pub fn messages_are_unanswered_until_they_end()
    ensures numbers { (first : ℕ) (state : RecoveryState) → map (λ (message : Message). message.request.number) (tick_messages first state)
        ≡ range_with_len first (length (tick_messages first state)) }
    // Beside its messages a step changes neither what is recovered nor what the node shows but its rows and what is pending.
    ensures tick { (first : ℕ) (state : RecoveryState) → frame (state_after_tick first state)
        ≡ frame (with_messages (tick_messages first state) state) }
    ensures end { (number : ℕ) (said : Option PeerSay) (state : RecoveryState)
        → frame (message_end number said state) ≡ frame (without_unanswered number state) }
{}

/// All that a tick asks, it asks in its node's name, and it can be spelled where the recovery is in range. That stays in range
/// at each step, as long as its epochs have 32 bits and it is told no other ids than those of objects.
pub fn what_is_asked_can_be_spelled()
    ensures own { (first : ℕ) (state : RecoveryState)
        → All (λ (send : NodeId × PeerReq). send.1.from ≡ state.recovery.me) (tick_sends first state) }
    ensures asked { (first : ℕ) (state : RecoveryState) → MayTick first state → IsInRange state
        → All (λ (send : NodeId × PeerReq). IsPeerReq send.1) (tick_sends first state) }
    ensures begin { (epoch : ℕ) (members : List NodeId) (state : RecoveryState) → MayBegin epoch members state → epoch < 2 ^ 32
        → IsInRange state → IsInRange (recovery_from_epoch epoch members state) }
    ensures tick { (first : ℕ) (state : RecoveryState) → MayTick first state → IsInRange state → IsInRange (state_after_tick first state) }
    ensures end { (number : ℕ) (said : Option PeerSay) (state : RecoveryState) → IfSome said NamesIds → IsInRange state
        → IsInRange (message_end number said state) }
{}

/// What a recovery and its node are to be so that a tick, an answer or a loss can be made is there after each of them, as long as
/// replies fit what was asked.
pub fn what_a_step_needs_stays()
    ensures begin { (epoch : ℕ) (members : List NodeId) (state : RecoveryState) → MayBegin epoch members state
        → MayStep state → MayStep (recovery_from_epoch epoch members state) }
    ensures tick { (first : ℕ) (state : RecoveryState) → MayTick first state → MayStep state → MayStep (state_after_tick first state) }
    ensures reply { (rsp : PeerRsp) (state : RecoveryState) → fits_recovery rsp state ≡ true
        → MayStep state → MayStep (recovery_on_reply rsp state) }
    ensures loss { (number : ℕ) (state : RecoveryState) → MayStep state → MayStep (recovery_on_loss number state) }
{}

/// A level is left only once each of its messages is answered, none by a refusal or a loss.
pub fn levels_are_left_after_all_answers()
    // While a message of it is unanswered, the search goes on as it is.
    ensures waits { (search : Search) (state : RecoveryState) → list_any (is_of_search search.oid) state.recovery.unanswered ≡ true
        → searching search state ≡ record state { recovery = record state.recovery { search = Some search } } }
    // A refusal or a loss counts as no answer: the level is asked anew.
    ensures again { (from : NodeId) (refusal : Refusal) (search : Search)
        → (search_after_answer from None search ≡ record search { again = true })
        × (search_after_answer from (Some (says.Refused refusal)) search ≡ record search { again = true }) }
    // A search that goes on is at the same level after a refusal or a loss, and else one lower, and not below the settled epoch.
    ensures next { (policy : Policy) (search : Search) (state : RecoveryState) (next : Search)
        → live_policy state.shown search.oid ≡ Some policy → (level_over search state).recovery.search ≡ Some next
        → ((next ≡ search_at search.oid search.level) × (search.again ≡ true))
        ⊎ ((next ≡ search_at search.oid (search.level - 1)) × (search.again ≡ false)
        × (state.shown.settled ≤ search.level - 1)) }
    // Only the searched object may become missing, and only below the settled epoch, with no refusal or loss.
    ensures missing { (search : Search) (state : RecoveryState) (oid : ℕ) → is_missing oid (level_over search state).recovery ≡ true
        → (is_missing oid state.recovery ≡ true)
        ⊎ ((search.oid ≡ oid) × (search.again ≡ false) × (search.level - 1 < state.shown.settled)) }
    // The rows of other objects stay.
    ensures others { (search : Search) (state : RecoveryState) (oid : ℕ) → oid ≢ search.oid
        → rows_of (level_over search state).shown.rows oid ≡ rows_of state.shown.rows oid }
{}

/// The rows that are taken at a level were told by its targets, or are the node's own where it is one, and are as many as
/// a read needs.
pub fn taken_rows_are_of_the_level()
    ensures found { (state : RecoveryState) (policy : Policy) (search : Search) (row : RowCopy)
        → Contains (rows_found state policy search) row
        → (node : NodeId) × Contains (state.shown.targets search.level search.oid policy) node
        × (row_of_target state.recovery.me (own_row state.shown search.oid search.level) search.answers node ≡ Some row) }
    ensures taken { (policy : Policy) (kind : Kind) (rows : List RowCopy) (row : RowCopy)
        → Contains (rows_taken policy kind rows) row → Contains rows row }
    ensures count { (policy : Policy) (kind : Kind) (rows : List RowCopy) → are_enough policy kind rows ≡ true
        → length (rows_taken policy kind rows) ≡ need_of policy kind }
    // Strips are taken of different indexes.
    ensures strips { (d p : ℕ) (rows : List RowCopy) → rows_taken (Coded d p) Block rows ≡ take d (by_index rows) }
{}

/// A level is asked of those of its targets that are members by now, but for the node itself: of that its own row counts, where it
/// is a target and the row holds the level.
pub fn a_level_is_asked_of_members()
    ensures members { (first : ℕ) (state : RecoveryState) (search : Search) (policy : Policy)
        → All (λ (message : Message). has_node message.to state.recovery.members ≡ true) (level_asked first state search policy) }
    ensures targets { (first : ℕ) (state : RecoveryState) (search : Search) (policy : Policy)
        → All (λ (message : Message). Contains (state.shown.targets search.level search.oid policy) message.to)
        (level_asked first state search policy) }
    ensures others { (first : ℕ) (state : RecoveryState) (search : Search) (policy : Policy)
        → All (λ (message : Message). message.to.0 ≢ state.recovery.me.0) (level_asked first state search policy) }
    ensures own { (state : RecoveryState) (policy : Policy) (search : Search) (row : RowCopy)
        → Contains (state.shown.targets search.level search.oid policy) state.recovery.me
        → own_row state.shown search.oid search.level ≡ Some row → Contains (rows_found state policy search) row }
{}

/// Where the taken rows have parts of some bytes, the part that is made by them is of the same bytes.
pub fn parts_are_of_the_same_bytes()
    ensures made { (policy : Policy) (kind : Kind) (index : ℕ) (bytes : List ℕ) (rows : List RowCopy) → IsPolicy policy
        → AreBytes bytes → IsAligned policy kind (length bytes)
        → ArePoints (indexes_of rows) → length rows ≡ need_of policy kind
        → AllByRecursion (λ (row : RowCopy). row_bytes row ≡ part policy kind row.index bytes) rows
        → part_from_rows policy kind index rows ≡ part policy kind index bytes }
    // It is the part of the node's index in the recovered epoch.
    ensures own { (policy : Policy) (search : Search) (state : RecoveryState) (index : ℕ)
        → index_in state.shown state.recovery.epoch search.oid policy state.recovery.me ≡ Some index → own_index policy search state
        ≡ index }
    // Of whole copies the first is taken, of strips each index once, ascending.
    ensures copies { (copies : ℕ) (kind : Kind) (row : RowCopy) (rows : List RowCopy)
        → rows_taken (Copies copies) kind (row ∷ rows) ≡ row ∷ [] }
    // A row is put by the bytes that its copy has.
    ensures put { (key : Key) (row : RowCopy) (shown : NodeView) → length row.bytes ≤ row.length
        → with_row key row.length row.bytes shown ≡ with_row key (length (row_bytes row)) (row_bytes row) shown }
    ensures strips { (rows : List RowCopy) → indexes_of (by_index rows) ≡ union [] (indexes_of rows) }
{}

/// One recovery, step by step: node 2 enters epoch 3, and an object of two copies was kept on nodes 0 and 1.
pub fn a_recovery_worked_out()
    ensures lists { tick_sends 7 in_epoch_3 ≡ request 0 7 asks.List ∷ request 1 8 asks.List ∷ [] }
    ensures pending { with_object_named ≡ with_object_pending }
    ensures level { tick_sends 9 with_object_pending
        ≡ request 0 9 (asks.RecoverRead object (record { 0 = 2 })) ∷ request 1 10 (asks.RecoverRead object (record { 0 = 2 })) ∷ [] }
    // The first of two rows in the order of the targets is taken, though it came last.
    ensures found { rows_of found_at_both.shown.rows object
        ≡ record { index = 0; from = record { 0 = 3 }; to = None; bytes = 5 ∷ 0 ∷ [] } ∷ [] }
    ensures done { is_finished found_at_both ≡ true }
    // After a loss the level stays, and after two answers without a row it is one lower.
    ensures again { with_level_half_answered.recovery.search ≡ Some (search_at object 2) }
    ensures lower { heard_of_none.recovery.search ≡ Some (search_at object 1) }
    // Below the settled epoch the object is missing.
    ensures missing { none_at_all.recovery.missing ≡ object ∷ [] }
    ensures given_up { is_finished none_at_all ≡ true }
{}
