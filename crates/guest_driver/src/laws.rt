//! Laws of the definitions, for the proofs of the layers above: each is the contract of a function that does nothing.
ghost use Rattle.std.specs.Prelude.{◌≡◌, ℕ, ◌+◌, ◌%◌, ◌<◌, ◌≤◌, List, [], ◌∷◌, ◌++◌, length, map, filter, flat_map, All, Some, None};
ghost use Rattle.std.specs.Prelude.{IfSome, IsTrue, is_some, Bool, true, false, nat_le, if◌then◌else◌};
ghost use Rattle.object_id.specs.declared.cause.Cause.TheVariants.{NoVdi, Readonly, VdiNotLocked, InvalidParms};
ghost use Rattle.object_id.specs.declared.entry.VdiSpec.{VdiSpec};
ghost use Rattle.object_id.specs.Oid.{IsVid};
ghost use Rattle.object_id.specs.Spec.{IsSpec, objects_of};
ghost use Rattle.inode.specs.Layout.{Content};
ghost use Rattle.peer_proto.specs.declared.guest.DiskAsk.{DiskAsk};
ghost use Rattle.peer_proto.specs.declared.guest.DiskAsk.TheVariants.{Read, Write};
ghost use Rattle.peer_proto.specs.declared.work.ObjWork.{ObjWork};
ghost use Rattle.peer_proto.specs.declared.guest.GuestRsp.TheVariants.{Done, Piece as Told};
ghost use Rattle.guest_driver.specs.declared.act.DriverAct.TheVariants.{Reply};
ghost use Rattle.guest_driver.specs.declared.disk.Disk.{Disk as TheDisk};
ghost use Rattle.guest_driver.specs.Pieces.{Piece, indexes, pieces, piece_bytes, is_ask, IsPiece, AreBlocks};
ghost use Rattle.guest_driver.specs.Refusals.{disk_refusal};
ghost use Rattle.guest_driver.specs.Driver.{Driver, read_on, write_on, begin_driver, driver_on_done, driver_bytes_wanted};
ghost use Rattle.guest_driver.specs.Course.{Goes, inode_after, driver_acts_from, has_object, read_act, told_of, write_acts, answers};
ghost use Rattle.guest_driver.specs.OnDisk.{IsDriverOn};
ghost use Rattle.guest_driver.specs.BegunWorks.{GoesByBlocks, StepsByBlocks};
ghost use Rattle.guest_driver.specs.InodeQueue.{InodeQueue, is_on_inode, requests_in, may_open_work, queue_with_waiting, queue_after_end};
ghost use Rattle.guest_driver.specs.InodeQueue.{queue_after_start};

use object_id::BLOCK_BYTES;

/// The pieces of a request are the request, cut at the borders of objects.
pub fn pieces_are_the_request()
    // Joined in their order they are its bytes.
    ensures joined { (shift offset : ℕ) (payload : List ℕ) → 1 ≤ length payload
        → flat_map (piece_bytes payload) (pieces shift offset (length payload)) ≡ payload }
    // There is one for each object that is touched, and it lies in that object.
    ensures indexes { (shift offset size : ℕ)
        → map (λ (piece : Piece). piece.index) (pieces shift offset size) ≡ indexes shift offset size }
    ensures inside { (shift offset size : ℕ) → 1 ≤ size → All (IsPiece shift) (pieces shift offset size) }
    // A request of whole blocks is cut in whole blocks.
    ensures blocks { (shift offset size : ℕ) → 9 ≤ shift → 1 ≤ size → offset % BLOCK_BYTES ≡ 0 → size % BLOCK_BYTES ≡ 0
        → All AreBlocks (pieces shift offset size) }
    // The objects of a request that ends inside the disk are the disk's.
    ensures there { (spec : VdiSpec) (offset size : ℕ) → 1 ≤ size → offset + size ≤ spec.size
        → All (λ (piece : Piece). piece.index < objects_of spec) (pieces spec.shift offset size) }
{}

/// How pieces are read: those that aren't holes one after another, and the reply is what they gave, with zeros for the holes.
pub fn a_read_goes_by_its_pieces()
    ensures { (inode : Content) (given : Piece → List ℕ) (rest : List Piece)
        → driver_acts_from (Some (read_on inode [] rest)) (map given (filter (has_object inode) rest))
        ≡ map (read_act inode) (filter (has_object inode) rest) ++ Reply (Told (flat_map (told_of inode given) rest)) ∷ [] }
{}

/// How pieces are written: one after another, each by what the table said of its object when the write began.
pub fn a_write_goes_by_its_entries()
    ensures { (inode : Content) (payload : List ℕ) (given : Piece → List ℕ) (shift offset size : ℕ)
        → driver_acts_from (Some (write_on inode payload (pieces shift offset size)))
        (flat_map (answers inode given) (pieces shift offset size))
        ≡ flat_map (write_acts inode payload given) (pieces shift offset size) ++ Reply Done ∷ [] }
{}

/// What a driver does is what it then waits for; an entry of the table is written only after its object was created, and
/// the session's table changes when it was written, and only then.
pub fn entries_follow_their_objects()
    ensures begun { (before : Driver) (disk : TheDisk) (ask : DiskAsk) → Goes before disk.inode (begin_driver disk ask) }
    ensures done { (inode : Content) (bytes : List ℕ) (driver : Driver)
        → IfSome (driver_on_done inode bytes driver) (λ step. Goes driver (inode_after inode driver) step) }
{}

/// What a driver begins is a work that a gateway takes: a request of whole blocks goes by whole blocks to its end, and ends inside
/// each object.
pub fn a_driver_begins_works()
    ensures begun { (disk : TheDisk) (ask : DiskAsk) → IsSpec disk.inode.spec → IsTrue (is_ask ask)
        → StepsByBlocks (begin_driver disk ask) }
    ensures done { (inode : Content) (bytes : List ℕ) (driver : Driver) → IsSpec inode.spec → IsVid inode.vid
        → IsDriverOn inode driver → GoesByBlocks driver → driver_bytes_wanted inode driver ≡ Some (length bytes)
        → IfSome (driver_on_done inode bytes driver) StepsByBlocks }
{}

/// A driver goes on exactly where it waits for a work.
pub fn a_driver_waits_for_works()
    ensures { (inode : Content) (bytes : List ℕ) (driver : Driver)
        → is_some (driver_on_done inode bytes driver) ≡ is_some (driver_bytes_wanted inode driver) }
{}

/// Which reads and writes are refused on the spot, by what the session has open: all without a disk; every write on a snapshot, and
/// every read on one that is deleted, whatever their place; and of the others those that end past the disk.
pub fn asks_are_refused_on_the_spot_so()
    ensures closed { (deleted : Bool) (ask : DiskAsk) → disk_refusal None deleted ask ≡ Some VdiNotLocked }
    ensures written { (disk : TheDisk) (deleted : Bool) (offset : ℕ) (bytes : List ℕ) → disk.snapshot ≡ true
        → disk_refusal (Some disk) deleted (Write offset bytes) ≡ Some Readonly }
    ensures deleted { (disk : TheDisk) (offset size : ℕ) → disk.snapshot ≡ true
        → disk_refusal (Some disk) true (Read offset size) ≡ Some NoVdi }
    ensures reads { (disk : TheDisk) (offset size : ℕ) → disk_refusal (Some disk) false (Read offset size)
        ≡ (if nat_le (offset + size) disk.inode.spec.size then None else Some InvalidParms) }
    ensures writes { (disk : TheDisk) (deleted : Bool) (offset : ℕ) (bytes : List ℕ) → disk.snapshot ≡ false
        → disk_refusal (Some disk) deleted (Write offset bytes)
        ≡ (if nat_le (offset + length bytes) disk.inode.spec.size then None else Some InvalidParms) }
{}

/// Works on an inode are done one at a time, in the order in which they came.
pub fn the_line_keeps_its_order()
    ensures one { (inode_queue : InodeQueue) (work : ObjWork) → IsTrue (is_on_inode work) → IsTrue (may_open_work inode_queue work)
        → inode_queue.current ≡ None }
    ensures queued { (inode_queue : InodeQueue) (req : ℕ) (work : ObjWork)
        → requests_in (queue_with_waiting inode_queue req work) ≡ requests_in inode_queue ++ req ∷ [] }
    ensures next { (inode_queue : InodeQueue) → requests_in (queue_after_start inode_queue) ≡ requests_in inode_queue }
    ensures ends { (inode_queue : InodeQueue) (req : ℕ) (work : ObjWork) → IsTrue (is_on_inode work) → inode_queue.current ≡ Some req
        → requests_in inode_queue ≡ req ∷ requests_in (queue_after_end inode_queue work) }
{}
