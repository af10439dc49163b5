//! Laws of what calls make of rows, for the proofs of the layers above: each is the contract of a function that does nothing.
ghost use Rattle.std.specs.Prelude.{◌≡◌, ◌≢◌, ℕ, ◌-◌, ◌<◌, ◌≤◌, List, [], ◌∷◌, ◌++◌, length, Some, None, Ok, false};
ghost use Rattle.std.specs.List.{AllByRecursion};
ghost use Rattle.std.specs.FinMap as tree;
ghost use Rattle.object_store.specs.declared.key.Key.{Key};
ghost use Rattle.object_store.specs.Rows.{closed_all, advanced, purged, without_disk, holds, row_holding, IsRowAt, IsOrderly};
ghost use Rattle.object_id.specs.Fields.{zeros};
ghost use Rattle.object_store.specs.Bytes.{trimmed_bytes};
ghost use Rattle.object_store.specs.declared.row.RowCopy.{RowCopy};
ghost use Rattle.object_store.specs.Store.{AllRows, SeenRow, copy_of, row_bytes, rows_of, create_at, write_at, read_at, each, OpenUpTo};
ghost use Rattle.object_store.specs.Store.{HaveRows, OpenBelow};
ghost use Rattle.object_store.specs.Calls.{Call, rows_step, rows_after, story_of, read_story, touches, Has};

/// No open row is from an epoch above the node's: the calls of a node keep the conditions of the later ones.
pub fn open_rows_are_from_epochs_so_far()
    ensures empty { (epoch : ℕ) → OpenUpTo epoch tree.empty }
    ensures create { (last : ℕ) (all new : AllRows) (key : Key) (epoch size offset : ℕ) (piece : List ℕ) → epoch ≤ last
        → OpenUpTo last all → create_at all key epoch size offset piece ≡ Ok new → OpenUpTo last new }
    ensures write { (last : ℕ) (all new : AllRows) (key : Key) (offset : ℕ) (piece : List ℕ)
        → OpenUpTo last all → write_at all key offset piece ≡ Ok new → OpenUpTo last new }
    ensures advance { (last : ℕ) (all : AllRows) (keeps : List Key) (next : ℕ) → OpenUpTo last all
        → OpenUpTo last (each (advanced keeps next) all) }
    ensures close_all { (last : ℕ) (all : AllRows) (to : ℕ) → OpenUpTo last (each (λ _. closed_all to) all) }
    ensures purge { (last : ℕ) (all : AllRows) (settled : ℕ) → OpenUpTo last all → OpenUpTo last (each (λ _. purged settled) all) }
    ensures drop_vid { (last : ℕ) (all : AllRows) (vid : ℕ) → OpenUpTo last all → OpenUpTo last (each (without_disk vid) all) }
    // And so they are below the next epoch.
    ensures next { (last next : ℕ) (all : AllRows) → last < next → OpenUpTo last all → OpenBelow next all }
    ensures later { (last next : ℕ) (all : AllRows) → last ≤ next → OpenUpTo last all → OpenUpTo next all }
{}

/// What one object has after a change of one object, or of each.
pub fn rows_of_one_object()
    ensures same { (all : AllRows) (oid : ℕ) (rows : List SeenRow) → rows_of (tree.insert all oid rows) oid ≡ rows }
    // A call on one object leaves the rows of every other.
    ensures other { (all : AllRows) (oid : ℕ) (rows : List SeenRow) (q : ℕ) → q ≢ oid → rows_of (tree.insert all oid rows) q
        ≡ rows_of all q }
    ensures each { (change : ℕ → List SeenRow → List SeenRow) (all : AllRows) (q : ℕ) → change q [] ≡ [] → rows_of (each change all) q
        ≡ change q (rows_of all q) }
{}

/// After any list of calls a read gives, at each place of an open row, the byte of the latest piece that was laid
/// over it since the row was made, and 0 where none was.
pub fn reads_what_was_written_last()
    ensures { (calls : List Call) (key : Key) (offset n : ℕ) → read_at (rows_after calls) key offset n
        ≡ read_story (story_of key calls) offset n }
{}

/// A row that a call isn't about stays as it was.
pub fn other_rows_stay()
    ensures { (all : AllRows) (call : Call) (oid : ℕ) (row : SeenRow) → touches call oid row ≡ false → Has row (rows_of all oid)
        → Has row (rows_of (rows_step all call) oid) }
{}

/// After any list of calls at most the last row of an object is open, and an object without rows isn't there.
pub fn rows_are_in_order()
    ensures last { (calls : List Call) (oid : ℕ) → IsOrderly (rows_of (rows_after calls) oid) }
    ensures there { (calls : List Call) → HaveRows (rows_after calls) }
{}

/// The row that `row_at` copies: of those that hold the level the one from the greatest epoch, and of equal ones
/// the one made last; none only where none holds it. A copy has the row's bytes up to the last that isn't 0.
pub fn copies_are_of_the_latest_row()
    ensures some { (level : ℕ) (rows : List SeenRow) (row : SeenRow) → row_holding level rows ≡ Some row → IsRowAt level rows row }
    ensures none { (level : ℕ) (rows : List SeenRow) → row_holding level rows ≡ None
        → AllByRecursion (λ row. holds level row ≡ false) rows }
    ensures bytes { (bytes : List ℕ) → trimmed_bytes bytes ++ zeros (length bytes - length (trimmed_bytes bytes)) ≡ bytes }
    ensures last { (bytes front : List ℕ) → trimmed_bytes bytes ≢ front ++ 0 ∷ [] }
    // So all the row's bytes are in it; and what was told as a row has the row's length, whatever bytes were told.
    ensures whole { (row : SeenRow) → row_bytes (copy_of row) ≡ row.bytes }
    ensures cut { (copy : RowCopy) → length (row_bytes copy) ≡ copy.length }
{}
