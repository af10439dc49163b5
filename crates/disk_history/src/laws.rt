//! Laws of histories, for the proofs above: each is the contract of a function that does nothing.
ghost use Rattle.std.specs.Prelude.{◌≡◌, ◌≢◌, ◌⊎◌, ◌↔◌, ℕ, Bool, true, false, Option, Some, None, List, [], ◌∷◌, ◌++◌};
ghost use Rattle.std.specs.Option.{option_and_then};
ghost use Rattle.disk_history.specs.declared.event.HistEvent.{HistEvent};
ghost use Rattle.disk_history.specs.Ledger.{Disk, Item, Ledger, ledger_after, empty_ledger, is_item_of};
ghost use Rattle.disk_history.specs.Changes.{blocks_in, changed_disk, ended_request, is_deleted, items_in, named_request};
ghost use Rattle.std.specs.List.{list_any, Contains};
ghost use Rattle.disk_history.specs.Legal.{IsFirstIllegal, IsLegal, is_acknowledged, ledger_from};
ghost use Rattle.disk_history.specs.ReadableBytes.{writes_of, was_deleted, IsReadable, IsTornBlock, MayBeRead};
ghost use Rattle.disk_history.specs.declared.event.HistEvent.TheVariants.{Copy, Delete, Read, WriteStart};

/// A history is judged event by event: what was legal so far stays so, whatever comes.
pub fn histories_go_step_by_step()
    ensures append { (ledger : Ledger) (before later : List HistEvent)
        → ledger_from ledger (before ++ later) ≡ option_and_then (λ next. ledger_from next later) (ledger_from ledger before) }
    // A prefix of a legal history is legal.
    ensures prefix { (before later : List HistEvent) → IsLegal (before ++ later) → IsLegal before }

    // A history is legal, or there is one first place at which it isn't.
    ensures judged { (events : List HistEvent) → IsLegal events ⊎ ((place : ℕ) × IsFirstIllegal events place) }
    ensures illegal { (events : List HistEvent) (place : ℕ) → IsFirstIllegal events place → ¬ IsLegal events }
    ensures one_place { (events : List HistEvent) (place other : ℕ) → IsFirstIllegal events place → IsFirstIllegal events other → place
        ≡ other }
{}

/// In a legal history each read of a disk that wasn't deleted, and of a block that isn't torn, gives the bytes of the
/// block's last acknowledged write or of a later one that wasn't refused.
pub fn reads_are_last_or_later()
    ensures reads { (before later : List HistEvent) (disk block : ℕ) (bytes : List ℕ)
        → IsLegal (before ++ Read disk block bytes ∷ later)
        → was_deleted before disk ≡ false
        → ¬ IsTornBlock before (writes_of before disk block)
        → IsReadable before (writes_of before disk block) bytes }
    // And which reads may come next is told by the events alone.
    ensures exactly { (before : List HistEvent) (disk block : ℕ) (bytes : List ℕ) → IsLegal before
        → IsLegal (before ++ Read disk block bytes ∷ []) ↔ MayBeRead before disk block bytes }
{}

/// What one event may change, and what it leaves as it was.
pub fn events_change_what_they_name()
    // Only a request's end reaches a disk that its event doesn't name.
    ensures other_disks { (ledger : Ledger) (event : HistEvent) (disk : ℕ)
        → ended_request event ≡ None → ¬ (changed_disk event ≡ Some disk)
        → (ledger_after ledger event).disks disk ≡ ledger.disks disk }
    // It changes the lists that have items of the request, on whichever disk, and nothing else of a disk.
    ensures other_items { (ledger : Ledger) (event : HistEvent) (req disk block : ℕ)
        → ended_request event ≡ Some req → list_any (is_item_of req) (items_in (ledger.disks disk) block) ≡ false
        → items_in ((ledger_after ledger event).disks disk) block ≡ items_in (ledger.disks disk) block }
    ensures ended_disks { (ledger : Ledger) (event : HistEvent) (req disk : ℕ) → ended_request event ≡ Some req
        → (blocks_in ((ledger_after ledger event).disks disk) ≡ blocks_in (ledger.disks disk))
        × (is_deleted ((ledger_after ledger event).disks disk) ≡ is_deleted (ledger.disks disk)) }
    // A write that begins changes the list of its block.
    ensures other_blocks { (ledger : Ledger) (req disk block : ℕ) (coded : Bool) (bytes : List ℕ) (other : ℕ) → other ≢ block
        → items_in ((ledger_after ledger (WriteStart req disk block coded bytes)).disks disk) other ≡ items_in (ledger.disks disk) other }
    ensures other_requests { (ledger : Ledger) (event : HistEvent) (req : ℕ) → ¬ (named_request event ≡ Some req)
        → (ledger_after ledger event).requests req ≡ ledger.requests req }

    // A copy is its origin at the place of the copy, and live. A deleted disk keeps its lists.
    ensures copies { (ledger : Ledger) (old new : ℕ) (origin : Disk) → ledger.disks old ≡ Some origin
        → (ledger_after ledger (Copy old new)).disks new ≡ Some (record origin { deleted = false }) }
    ensures deletes { (ledger : Ledger) (disk : ℕ) (found : Disk) → ledger.disks disk ≡ Some found
        → (ledger_after ledger (Delete disk)).disks disk ≡ Some (record found { deleted = true }) }
{}

/// What stays, whatever legal events come.
pub fn legal_histories_keep()
    // A disk that is there stays, deleted or not, with as many blocks.
    ensures disks { (later : List HistEvent) (ledger next : Ledger) (disk blocks : ℕ) → ledger_from ledger later ≡ Some next
        → blocks_in (ledger.disks disk) ≡ Some blocks → blocks_in (next.disks disk) ≡ Some blocks }
    // An acknowledged item stays in its list, and acknowledged.
    ensures acknowledged { (before later : List HistEvent) (ledger next : Ledger) (disk block : ℕ) (item : Item)
        → ledger_from empty_ledger before ≡ Some ledger → ledger_from ledger later ≡ Some next
        → Contains (items_in (ledger.disks disk) block) item → is_acknowledged item ≡ true
        → Contains (items_in (next.disks disk) block) item }
{}
