//! Laws of the definitions, for the proofs of the layers above: each is the contract of a function that does nothing.
ghost use Rattle.std.specs.Prelude.{◌≡◌, ◌≢◌, ◌↔◌, ℕ, ◌+◌, ◌*◌, ◌^◌, ◌<◌, ◌≤◌, ◌&&◌, true, false, IsTrue, List, [], ◌∷◌, length, map, take, drop};
ghost use Rattle.std.specs.Prelude.{filter, Option, Some, None, Ok, if◌then◌else◌};
ghost use Rattle.std.specs.FinMap as tree;
ghost use Rattle.std.specs.Option.{option_map_or};
ghost use Rattle.object_id.specs.declared.entry.Entry.{Entry};
ghost use Rattle.object_id.specs.declared.node.Epoch.{Epoch};
ghost use Rattle.object_id.specs.declared.node.NodeId.{NodeId};
ghost use Rattle.object_id.specs.declared.oid.Kind.TheVariants.{Block, Inode};
ghost use Rattle.object_id.specs.declared.policy.Policy.{Policy};
ghost use Rattle.object_id.specs.declared.policy.Policy.TheVariants.{Copies, Coded};
ghost use Rattle.object_id.specs.Piece.{laid_over};
ghost use Rattle.epoch_log.specs.Epochs.{epoch_of, settled_of};
ghost use Rattle.object_store.specs.declared.key.Key.{Key};
ghost use Rattle.object_id.specs.Fields.{zeros};
ghost use Rattle.object_store.specs.Rows.{is_open, is_open_at, closed_all, advanced, purged, has_ended_below};
ghost use Rattle.object_store.specs.Store.{AllRows, SeenRow, rows_of, open_row, create_at, read_at, copy_at, each, OpenUpTo};
ghost use Rattle.object_store.specs.Calls.{Has};
ghost use Rattle.peer_proto.specs.declared.ask.PeerAsk.{PeerAsk};
ghost use Rattle.peer_proto.specs.declared.ask.PeerAsk.TheVariants as asks;
ghost use Rattle.peer_proto.specs.declared.ask.PeerReq.{PeerReq};
ghost use Rattle.peer_proto.specs.declared.say.Refusal.{Refusal};
ghost use Rattle.peer_proto.specs.declared.say.Refusal.TheVariants as refusals;
ghost use Rattle.peer_proto.specs.declared.say.PeerSay.TheVariants as says;
ghost use Rattle.peer_service.specs.State.{Peer, object_policy, is_dead_object, row_size, is_waiting};
ghost use Rattle.peer_service.specs.Pending.{with_unfinished_list, row_put};
ghost use Rattle.peer_service.specs.Fence.{admission};
ghost use Rattle.peer_service.specs.Serve.{peer_refusal_step, row_or_none, own_epoch_step, peer_step, reply_to, MayServe, may_serve};
ghost use Rattle.peer_service.specs.Epochs.{has_at, stays_open, row_entering, peer_in_next_epoch, AreKept, peer_settled_to};
ghost use Rattle.peer_service.specs.LogReading.{kills_object, read_entry};
ghost use Rattle.peer_service.specs.Back.{come_back};
ghost use Rattle.peer_service.specs.Example.{node, key, peer, write_of, targets, ended_row, whole_log};

/// A request of another epoch is refused by name, whatever it asks, and changes nothing.
pub fn other_epochs_are_refused()
    ensures older { (peer : Peer) (request : PeerReq) → request.epoch.0 < peer.epoch
        → peer_step peer request ≡ peer_refusal_step (refusals.OldEpoch (record { 0 = peer.epoch })) peer }
    ensures newer { (peer : Peer) (request : PeerReq) → peer.epoch < request.epoch.0
        → peer_step peer request ≡ peer_refusal_step (refusals.NewEpoch (record { 0 = peer.epoch })) peer }
    // One of the node's own epoch goes by what it asks.
    ensures own { (peer : Peer) (request : PeerReq) → request.epoch.0 ≡ peer.epoch → peer_step peer request
        ≡ own_epoch_step request.ask peer }
    ensures admitted { (own requested : ℕ) → (admission own requested ≡ Ok (tt {0})) ↔ (requested ≡ own) }
    // The reply has the node's own epoch.
    ensures reply { (peer : Peer) (request : PeerReq) → reply_to peer request
        ≡ record { number = request.number; epoch = record { 0 = peer.epoch }; say = (peer_step peer request).say } }
{}

/// A refusal changes nothing, and neither does an answer that only tells.
pub fn refusals_change_nothing()
    ensures refused { (peer : Peer) (request : PeerReq) (refusal : Refusal) → (peer_step peer request).say ≡ says.Refused refusal
        → (peer_step peer request).peer ≡ peer }
    ensures read { (peer : Peer) (key : Key) (offset size : ℕ) → (own_epoch_step (asks.Read key offset size) peer).peer ≡ peer }
    ensures list { (peer : Peer) → (own_epoch_step asks.List peer).peer ≡ peer }
    ensures recover { (peer : Peer) (oid : ℕ) (level : Epoch) → (own_epoch_step (asks.RecoverRead oid level) peer).peer ≡ peer }
{}

/// A List and a RecoverRead of the node's epoch are always answered by what is there, also while the list is unfinished.
pub fn lists_and_rows_are_always_told()
    ensures list { (peer : Peer) (request : PeerReq) → request.epoch.0 ≡ peer.epoch → request.ask ≡ asks.List
        → (peer_step peer request).say ≡ says.Objects (tree.keys peer.rows) }
    ensures recover { (peer : Peer) (request : PeerReq) (oid : ℕ) (level : Epoch) → request.epoch.0 ≡ peer.epoch
        → request.ask ≡ asks.RecoverRead oid level → (peer_step peer request).say ≡ row_or_none (copy_at peer.rows oid level.0) }
{}

/// A Create makes the object's open row, in whichever state the object is. It is what the store's call makes, and a read
/// gives the piece back.
pub fn what_a_create_leaves()
    ensures row { (peer : Peer) (key : Key) (size offset : ℕ) (bytes : List ℕ)
        → open_row (own_epoch_step (asks.Create key size offset bytes) peer).peer.rows key
        ≡ Some (record { index = key.index; from = record { 0 = peer.epoch }; to = None; bytes = laid_over (zeros size) offset bytes }) }
    ensures call { (peer : Peer) (key : Key) (size offset : ℕ) (bytes : List ℕ) → offset + length bytes ≤ size
        → create_at peer.rows key peer.epoch size offset bytes ≡ Ok (own_epoch_step (asks.Create key size offset bytes) peer).peer.rows }
    ensures read { (peer : Peer) (key : Key) (size offset : ℕ) (bytes : List ℕ) → offset + length bytes ≤ size
        → read_at (own_epoch_step (asks.Create key size offset bytes) peer).peer.rows key offset (length bytes) ≡ Ok bytes }
    // The rows of other objects and the closed rows of this one stay.
    ensures others { (peer : Peer) (key : Key) (size offset : ℕ) (bytes : List ℕ) (oid : ℕ) → oid ≢ key.oid
        → rows_of (own_epoch_step (asks.Create key size offset bytes) peer).peer.rows oid ≡ rows_of peer.rows oid }
    ensures closed { (peer : Peer) (key : Key) (size offset : ℕ) (bytes : List ℕ) (row : SeenRow) → offset + length bytes ≤ size
        → is_open row ≡ false → Has row (rows_of peer.rows key.oid)
        → Has row (rows_of (own_epoch_step (asks.Create key size offset bytes) peer).peer.rows key.oid) }
    // The object is pending no more, and every other one as before.
    ensures pending { (peer : Peer) (key : Key) (size offset : ℕ) (bytes oids : List ℕ) → peer.pending ≡ Some oids
        → is_waiting (own_epoch_step (asks.Create key size offset bytes) peer).peer key.oid ≡ false }
    ensures others_pending { (peer : Peer) (key : Key) (size offset : ℕ) (bytes : List ℕ) (oid : ℕ) → oid ≢ key.oid
        → is_waiting (own_epoch_step (asks.Create key size offset bytes) peer).peer oid ≡ is_waiting peer oid }
{}

/// A Write changes the open row of its key alone, and only once the object is recovered.
pub fn what_a_write_leaves()
    ensures row { (peer : Peer) (key : Key) (offset : ℕ) (bytes : List ℕ) (row : SeenRow) → is_waiting peer key.oid ≡ false
        → open_row peer.rows key ≡ Some row → MayServe peer (asks.Write key offset bytes)
        → ((own_epoch_step (asks.Write key offset bytes) peer).say ≡ says.Success)
        × (open_row (own_epoch_step (asks.Write key offset bytes) peer).peer.rows key
        ≡ Some (record row { bytes = laid_over row.bytes offset bytes })) }
    ensures waiting { (peer : Peer) (key : Key) (offset : ℕ) (bytes : List ℕ) → is_waiting peer key.oid ≡ true
        → own_epoch_step (asks.Write key offset bytes) peer ≡ peer_refusal_step refusals.Recovery peer }
    ensures none { (peer : Peer) (key : Key) (offset : ℕ) (bytes : List ℕ) → is_waiting peer key.oid ≡ false
        → open_row peer.rows key ≡ None → own_epoch_step (asks.Write key offset bytes) peer ≡ peer_refusal_step refusals.NoObj peer }
    ensures others { (peer : Peer) (key : Key) (offset : ℕ) (bytes : List ℕ) (oid : ℕ) → oid ≢ key.oid
        → rows_of (own_epoch_step (asks.Write key offset bytes) peer).peer.rows oid ≡ rows_of peer.rows oid }
    ensures rows { (peer : Peer) (key : Key) (offset : ℕ) (bytes : List ℕ) (row : SeenRow) → is_open_at key.index row ≡ false
        → Has row (rows_of peer.rows key.oid) → Has row (rows_of (own_epoch_step (asks.Write key offset bytes) peer).peer.rows key.oid) }
    ensures pending { (peer : Peer) (key : Key) (offset : ℕ) (bytes : List ℕ)
        → (own_epoch_step (asks.Write key offset bytes) peer).peer.pending ≡ peer.pending }
{}

/// A Read is told the bytes of the open row of its key, once the object is recovered, and changes nothing.
pub fn what_a_read_tells()
    ensures row { (peer : Peer) (key : Key) (offset size : ℕ) (row : SeenRow) → is_waiting peer key.oid ≡ false
        → open_row peer.rows key ≡ Some row → MayServe peer (asks.Read key offset size)
        → (own_epoch_step (asks.Read key offset size) peer).say ≡ says.Piece (take size (drop offset row.bytes)) }
    ensures waiting { (peer : Peer) (key : Key) (offset size : ℕ) → is_waiting peer key.oid ≡ true
        → (own_epoch_step (asks.Read key offset size) peer).say ≡ says.Refused refusals.Recovery }
    ensures none { (peer : Peer) (key : Key) (offset size : ℕ) → is_waiting peer key.oid ≡ false
        → open_row peer.rows key ≡ None → (own_epoch_step (asks.Read key offset size) peer).say ≡ says.Refused refusals.NoObj }
    ensures stays { (peer : Peer) (key : Key) (offset size : ℕ) → (own_epoch_step (asks.Read key offset size) peer).peer ≡ peer }
{}

/// What a request must meet can be tested.
pub fn conditions_are_tests()
    ensures { (peer : Peer) (ask : PeerAsk) → IsTrue (may_serve peer ask) ↔ MayServe peer ask }
{}

/// Going to the next epoch closes rows and drops none: open are those that were and that stay, by the targets there.
pub fn entering_drops_no_row()
    ensures next { (me : NodeId) (targets : ℕ → ℕ → Policy → List NodeId) (peer : Peer) → (peer_in_next_epoch me targets peer).epoch
        ≡ peer.epoch + 1 }
    ensures stays { (me : NodeId) (targets : ℕ → ℕ → Policy → List NodeId) (peer : Peer) (oid index : ℕ)
        → stays_open me targets peer oid index
        ≡ option_map_or (has_at me targets (peer.epoch + 1) oid index) (object_policy peer oid) false }
    // No open row of an object that isn't known stays open.
    ensures unknown { (me : NodeId) (targets : ℕ → ℕ → Policy → List NodeId) (peer : Peer) (oid index : ℕ)
        → object_policy peer oid ≡ None → stays_open me targets peer oid index ≡ false }
    ensures rows { (me : NodeId) (targets : ℕ → ℕ → Policy → List NodeId) (peer : Peer) (oid : ℕ)
        → rows_of (peer_in_next_epoch me targets peer).rows oid ≡ map (row_entering me targets peer oid) (rows_of peer.rows oid) }
    ensures opened { (me : NodeId) (targets : ℕ → ℕ → Policy → List NodeId) (peer : Peer) (oid : ℕ)
        → filter is_open (rows_of (peer_in_next_epoch me targets peer).rows oid)
        ≡ filter (λ row. is_open row && stays_open me targets peer oid row.index) (rows_of peer.rows oid) }
    // The store's call makes it, given the keys of the open rows that stay.
    ensures call { (keeps : List Key) (me : NodeId) (targets : ℕ → ℕ → Policy → List NodeId) (peer : Peer) → AreKept keeps me targets peer
        → each (advanced keeps (peer.epoch + 1)) peer.rows ≡ (peer_in_next_epoch me targets peer).rows }
{}

/// Settling drops only closed rows, and of these only those that ended below the settled epoch.
pub fn settling_drops_closed_rows()
    ensures settled { (settled : ℕ) (peer : Peer) → (peer_settled_to settled peer).settled ≡ settled }
    ensures opened { (settled : ℕ) (peer : Peer) (oid : ℕ)
        → filter is_open (rows_of (peer_settled_to settled peer).rows oid) ≡ filter is_open (rows_of peer.rows oid) }
    ensures stays { (settled : ℕ) (peer : Peer) (oid : ℕ) (row : SeenRow) → has_ended_below settled row.to ≡ false
        → Has row (rows_of peer.rows oid) → Has row (rows_of (peer_settled_to settled peer).rows oid) }
{}

/// The rows of an id go exactly at the entry that makes it dead, and its objects are pending no more.
pub fn rows_go_with_their_disk()
    ensures goes { (entry : Entry) (peer : Peer) (oid : ℕ) → kills_object entry peer oid ≡ true → rows_of (read_entry entry peer).rows oid
        ≡ [] }
    ensures stays { (entry : Entry) (peer : Peer) (oid : ℕ) → kills_object entry peer oid ≡ false
        → rows_of (read_entry entry peer).rows oid ≡ rows_of peer.rows oid }
    ensures pending { (entry : Entry) (peer : Peer) (oid : ℕ) (oids : List ℕ) → peer.pending ≡ Some oids → kills_object entry peer oid
        ≡ true
        → is_waiting (read_entry entry peer) oid ≡ false }
    ensures still_pending { (entry : Entry) (peer : Peer) (oid : ℕ) → kills_object entry peer oid ≡ false
        → is_waiting (read_entry entry peer) oid ≡ is_waiting peer oid }
    // An id dies once, and for good: a row that was made for a dead id is like any other.
    ensures for_good { (entry : Entry) (peer : Peer) (oid : ℕ) → is_dead_object peer oid ≡ true
        → is_dead_object (read_entry entry peer) oid ≡ true }
    ensures dead_before { (entry : Entry) (peer : Peer) (oid : ℕ) → is_dead_object peer oid ≡ true → kills_object entry peer oid ≡ false }
{}

/// Who comes back is in the last epoch of the log that it is given, has no open row, and of the closed ones those that
/// are not too old and whose id isn't dead.
pub fn who_comes_back_has_closed_rows()
    ensures epochs { (entries : List Entry) (peer : Peer)
        → ((come_back entries peer).epoch ≡ epoch_of entries) × ((come_back entries peer).settled ≡ settled_of entries) }
    ensures rows { (entries : List Entry) (peer : Peer) (oid : ℕ) → rows_of (come_back entries peer).rows oid
        ≡ (if is_dead_object (come_back entries peer) oid then []
        else purged (settled_of entries) (closed_all peer.epoch (rows_of peer.rows oid))) }
    ensures opened { (entries : List Entry) (peer : Peer) (oid : ℕ) → filter is_open (rows_of (come_back entries peer).rows oid) ≡ [] }
{}

/// No open row is from an epoch above the node's, whatever it does: so it may make a row, go to the next epoch and come back.
pub fn open_rows_are_from_epochs_so_far()
    ensures served { (peer : Peer) (request : PeerReq) → OpenUpTo peer.epoch peer.rows
        → OpenUpTo (peer_step peer request).peer.epoch (peer_step peer request).peer.rows }
    ensures put { (key : Key) (size : ℕ) (bytes : List ℕ) (peer : Peer) → OpenUpTo peer.epoch peer.rows
        → OpenUpTo (row_put key size bytes peer).epoch (row_put key size bytes peer).rows }
    ensures entered { (me : NodeId) (targets : ℕ → ℕ → Policy → List NodeId) (peer : Peer) → OpenUpTo peer.epoch peer.rows
        → OpenUpTo (peer_in_next_epoch me targets peer).epoch (peer_in_next_epoch me targets peer).rows }
    ensures settled { (settled : ℕ) (peer : Peer) → OpenUpTo peer.epoch peer.rows
        → OpenUpTo (peer_settled_to settled peer).epoch (peer_settled_to settled peer).rows }
    ensures read { (entry : Entry) (peer : Peer) → OpenUpTo peer.epoch peer.rows
        → OpenUpTo (read_entry entry peer).epoch (read_entry entry peer).rows }
    ensures back { (entries : List Entry) (peer : Peer) → OpenUpTo (come_back entries peer).epoch (come_back entries peer).rows }
{}

/// A peer of epoch 2 with an open row is asked for a write under three epochs, goes to epoch 3, where the row's id isn't
/// known, and comes back from epoch 2 in epoch 4.
pub fn a_peer_worked_out()
    ensures older { peer_step peer (write_of 1) ≡ peer_refusal_step (refusals.OldEpoch (record { 0 = 2 })) peer }
    ensures newer { peer_step peer (write_of 3) ≡ peer_refusal_step (refusals.NewEpoch (record { 0 = 2 })) peer }
    ensures own { (peer_step peer (write_of 2)).say ≡ says.Success }
    ensures written { rows_of (peer_step peer (write_of 2)).peer.rows key.oid
        ≡ record { index = 0; from = record { 0 = 1 }; to = None; bytes = 5 ∷ 7 ∷ 8 ∷ [] } ∷ [] }
    ensures closed { rows_of (peer_in_next_epoch (node 1) targets peer).rows key.oid ≡ ended_row 2 ∷ [] }
    ensures back { rows_of (come_back whole_log peer).rows key.oid ≡ ended_row 2 ∷ [] }
    // Until its list is finished again, a read waits.
    ensures waits { own_epoch_step (asks.Read key 0 1) (with_unfinished_list (come_back whole_log peer))
        ≡ peer_refusal_step refusals.Recovery (with_unfinished_list (come_back whole_log peer)) }
{}

/// Whole copies stay open on every target at index 0, strips on each target at its place among them.
pub fn places_worked_out()
    ensures copy { has_at (node 2) targets 3 key.oid 0 (Copies 2) ≡ true }
    ensures strip { has_at (node 2) targets 3 key.oid 1 (Coded 2 1) ≡ true }
    ensures other_strip { has_at (node 2) targets 3 key.oid 0 (Coded 2 1) ≡ false }
    ensures other_node { has_at (node 0) targets 3 key.oid 0 (Copies 2) ≡ false }
{}

/// An inode has 4,198,968 bytes; a data object of shift 22 has 4 MiB, and of four data strips each row a fourth of that.
pub fn row_sizes_worked_out()
    ensures inode { row_size Inode (record { size = 2 ^ 20; policy = Coded 4 2; shift = 22 }) ≡ 4198968 }
    ensures whole { row_size Block (record { size = 2 ^ 20; policy = Copies 3; shift = 22 }) ≡ 4194304 }
    ensures strip { row_size Block (record { size = 2 ^ 20; policy = Coded 4 2; shift = 22 }) ≡ 1048576 }
{}
