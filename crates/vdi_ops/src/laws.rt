//! Laws of the definitions, for the proofs of the layers above: each is the contract of a function that does nothing.
ghost use Rattle.std.specs.Prelude.{◌≡◌, ◌⊎◌, ℕ, ◌+◌, ◌*◌, ◌^◌, ◌<◌, ◌≤◌, ◌==◌, true, false, List, [], ◌∷◌, ◌++◌, length, map, All, Option};
ghost use Rattle.std.specs.Prelude.{Some, None, option_map, IfSome, IsTrue, is_some};
ghost use Rattle.std.specs.List.{list_any};
ghost use Rattle.object_id.specs.declared.oid.Vid.{Vid};
ghost use Rattle.object_id.specs.declared.node.NodeId.{NodeId};
ghost use Rattle.object_id.specs.declared.cause.Cause.{Cause};
ghost use Rattle.object_id.specs.declared.cause.Cause.TheVariants.{Readonly, VdiNotLocked, InvalidParms};
ghost use Rattle.object_id.specs.declared.entry.VdiSpec.{VdiSpec};
ghost use Rattle.object_id.specs.declared.entry.Origin.TheVariants.{Fresh, SnapshotOf, CloneOf};
ghost use Rattle.object_id.specs.declared.entry.Entry.{Entry};
ghost use Rattle.object_id.specs.declared.entry.Entry.TheVariants as entries;
ghost use Rattle.object_id.specs.declared.policy.Policy.{Policy};
ghost use Rattle.object_id.specs.Oid.{IsVid};
ghost use Rattle.object_id.specs.Spec.{IsSpec, objects_of};
ghost use Rattle.object_id.specs.Piece.{laid_over};
ghost use Rattle.inode.specs.declared.layout.TheConstants.{INODE_HEADER_BYTES, INODE_BYTES};
ghost use Rattle.inode.specs.Layout.{Content, inode_bytes, unread_zeros, IsFieldText, IsEntry, SpellsInode};
ghost use Rattle.peer_proto.specs.declared.guest.VdiAsk.{VdiAsk};
ghost use Rattle.peer_proto.specs.declared.guest.VdiAsk.TheVariants.{Create, Attach, Close, Snapshot, Clone, Delete, Check};
ghost use Rattle.peer_proto.specs.declared.guest.GuestRsp.TheVariants.{Done, Refused};
ghost use Rattle.peer_proto.specs.declared.work.ObjWork.TheVariants as works;
ghost use Rattle.vdi_directory.specs.declared.header.Header.{Header as TheHeader};
ghost use Rattle.vdi_directory.specs.declared.decision.Decision.{Decision};
ghost use Rattle.vdi_directory.specs.declared.decision.Decision.TheVariants as decisions;
ghost use Rattle.vdi_directory.specs.declared.effect.Effect.{Effect};
ghost use Rattle.vdi_directory.specs.Effects.{header_of};
ghost use Rattle.vdi_ops.specs.declared.act.OpAct.TheVariants.{Append, Work, Reply};
ghost use Rattle.vdi_ops.specs.Entries.{OpenDisk, own_bytes, command_refusal, first_entry};
ghost use Rattle.vdi_directory.specs.Chains.{chain_of};
ghost use Rattle.vdi_ops.specs.Tables.{kept_entry, table_in, holes, inode_by};
ghost use Rattle.vdi_ops.specs.InodeWorks.{written_bytes, written_back, read_inode, create_inode, write_back, write_tag};
ghost use Rattle.vdi_ops.specs.InodeWorks.{CommandBeginsWork};
ghost use Rattle.vdi_ops.specs.Op.{Op, Opening, WritingBack, Asked, Working, Publishing, Stays, Opens, Closes, entry_wanted};
ghost use Rattle.vdi_ops.specs.Op.{op_bytes_wanted};
ghost use Rattle.vdi_ops.specs.Op.{IsAwaitedByCommand, disk_change};
ghost use Rattle.vdi_ops.specs.Kept.{IsInodeHeader, EntryHasTag, IsSoundOpStage, FitsEntry};
ghost use Rattle.vdi_ops.specs.Steps.{begin_command, step_after_grant, on_decision, op_on_done, on_refusal};
ghost use Rattle.vdi_ops.specs.Course.{Decided, Given, op_acts_from};

/// How each command goes, from its first entry to its reply, where each is granted and each work is done.
pub fn commands_go_so()
    // An inode of holes is created, and the disk published.
    ensures create { (known : List Effect) (by : NodeId) (session : ℕ) (name : List ℕ) (spec : VdiSpec) (disk : Option Content)
        (vid : Vid) (header : TheHeader) (last : Decision)
        → header_of known vid.0 ≡ Some header
        → op_acts_from known disk (begin_command by session (Create name spec) disk)
        (Decided (decisions.Granted vid) ∷ Given [] ∷ Decided last ∷ [])
        ≡ Append (entries.Reserve by session name (Fresh spec)) ∷ Work (create_inode (inode_by header vid.0 (holes header.spec)))
        ∷ Append (entries.Publish by vid) ∷ Reply Done ∷ [] }
    // The disk's inode is read, and written back with the directory's header.
    ensures attach { (known : List Effect) (by : NodeId) (session : ℕ) (name : List ℕ) (disk : Option Content) (vid : Vid)
        (header : TheHeader) (bytes : List ℕ)
        → header_of known vid.0 ≡ Some header
        → op_acts_from known disk (begin_command by session (Attach name None) disk)
        (Decided (decisions.Granted vid) ∷ Given bytes ∷ Given [] ∷ [])
        ≡ Append (entries.Lock by session name None) ∷ Work (read_inode vid.0 header.spec)
        ∷ Work (write_back (inode_by header vid.0 (table_in (vid.0 ∷ chain_of known vid.0) header.spec bytes)) bytes) ∷ Reply Done ∷ [] }
    // A snapshot's is only read.
    ensures attach_snapshot { (known : List Effect) (by : NodeId) (session : ℕ) (name tag : List ℕ) (disk : Option Content) (vid : Vid)
        (header : TheHeader) (bytes : List ℕ)
        → header_of known vid.0 ≡ Some header
        → op_acts_from known disk (begin_command by session (Attach name (Some tag)) disk)
        (Decided (decisions.Granted vid) ∷ Given bytes ∷ [])
        ≡ Append (entries.Lock by session name (Some tag)) ∷ Work (read_inode vid.0 header.spec) ∷ Reply Done ∷ [] }
    ensures close { (known : List Effect) (by : NodeId) (session : ℕ) (disk : Content)
        → op_acts_from known (Some disk) (begin_command by session Close (Some disk)) (Decided decisions.None ∷ [])
        ≡ Append (entries.Unlock by session (record { 0 = disk.vid })) ∷ Reply Done ∷ [] }
    // The open disk's inode gets the tag, and the granted id's inode is created with the session's table.
    ensures snapshot { (known : List Effect) (by : NodeId) (session : ℕ) (tag : List ℕ) (disk : Content) (vid : Vid) (header : TheHeader)
        (last : Decision)
        → header_of known vid.0 ≡ Some header
        → op_acts_from known (Some disk) (begin_command by session (Snapshot tag) (Some disk))
        (Decided (decisions.Granted vid) ∷ Given [] ∷ Given [] ∷ Decided last ∷ [])
        ≡ Append (entries.Reserve by session disk.name (SnapshotOf tag)) ∷ Work (write_tag disk tag)
        ∷ Work (create_inode (inode_by header vid.0 disk.table)) ∷ Append (entries.Snapshot by (record {
          0 = disk.vid;
        }) vid) ∷ Reply Done ∷ [] }
    // The parent's inode is read, and the granted id's created with its table.
    ensures clone { (known : List Effect) (by : NodeId) (session : ℕ) (base tag name : List ℕ) (disk : Option Content) (vid parent : Vid)
        (header : TheHeader) (bytes : List ℕ) (last : Decision)
        → header_of known vid.0 ≡ Some header → header.parent ≡ Some parent
        → op_acts_from known disk (begin_command by session (Clone base tag name) disk)
        (Decided (decisions.Granted vid) ∷ Given bytes ∷ Given [] ∷ Decided last ∷ [])
        ≡ Append (entries.Reserve by session name (CloneOf base tag)) ∷ Work (read_inode parent.0 header.spec)
        ∷ Work (create_inode (inode_by header vid.0 (table_in (chain_of known vid.0) header.spec bytes))) ∷ Append
        (entries.Clone by vid) ∷ Reply Done ∷ [] }
    ensures delete { (known : List Effect) (by : NodeId) (session : ℕ) (name : List ℕ) (tag : Option (List ℕ)) (disk : Option Content)
        (vid : Vid) (header : TheHeader)
        → header_of known vid.0 ≡ Some header
        → op_acts_from known disk (begin_command by session (Delete name tag) disk) (Decided (decisions.Granted vid) ∷ [])
        ≡ Append (entries.Delete by session name tag) ∷ Reply Done ∷ [] }
    // Where the first entry is refused, that is the reply.
    ensures refused { (known : List Effect) (by : NodeId) (session : ℕ) (entry : Entry) (ask : VdiAsk) (disk : Option Content)
        (cause : Cause)
        → first_entry by session disk ask ≡ Some entry
        → op_acts_from known disk (begin_command by session ask disk) (Decided (decisions.Refused cause) ∷ [])
        ≡ Append entry ∷ Reply (Refused cause) ∷ [] }
{}

/// When a check is refused on the spot, first to last: with no disk open, on a snapshot, and where the disk's own objects
/// have more than 256 MiB together. No entry begins it.
pub fn checks_are_refused_so()
    ensures closed { command_refusal None Check ≡ Some VdiNotLocked }
    ensures snapshot { (disk : OpenDisk) → disk.snapshot ≡ true → command_refusal (Some disk) Check ≡ Some Readonly }
    ensures large { (disk : OpenDisk) → disk.snapshot ≡ false → 268435456 < own_bytes disk.inode
        → command_refusal (Some disk) Check ≡ Some InvalidParms }
    ensures taken { (disk : OpenDisk) → disk.snapshot ≡ false → own_bytes disk.inode ≤ 268435456
        → command_refusal (Some disk) Check ≡ None }
    ensures entry { (by : NodeId) (session : ℕ) (disk : Option Content) → begin_command by session Check disk ≡ None }
{}

/// What a command leaves of what its session has open, with its reply: an opening of a disk, and a snapshot, the inode that they
/// made; an opening of a snapshot the one that it read; a close nothing. The others leave it as it was.
pub fn what_becomes_of_the_open_disk()
    ensures attach { (bytes : List ℕ) (op : Op) (vid : Vid) (inode : Content) → op.stage ≡ Working vid (WritingBack inode)
        → option_map disk_change (op_on_done bytes op) ≡ Some (Opens false inode) }
    ensures attach_snapshot { (bytes : List ℕ) (op : Op) (vid : Vid) (ids : List ℕ) (header : TheHeader)
        → op.stage ≡ Working vid (Opening true ids header)
        → option_map disk_change (op_on_done bytes op) ≡ Some (Opens true (inode_by header vid.0 (table_in ids header.spec bytes))) }
    ensures snapshot { (known : List Effect) (disk : Option Content) (decision : Decision) (op : Op) (entry : Entry) (inode : Content)
        → op.stage ≡ Publishing entry (Some inode)
        → option_map disk_change (on_decision known disk decision op) ≡ Some (Opens false inode) }
    ensures published { (known : List Effect) (disk : Option Content) (decision : Decision) (op : Op) (entry : Entry)
        → op.stage ≡ Publishing entry None → option_map disk_change (on_decision known disk decision op) ≡ Some Stays }
    ensures close { (known : List Effect) (disk : Option Content) (op : Op) (by : NodeId) (session : ℕ) (vid : Vid)
        → op.stage ≡ Asked (entries.Unlock by session vid)
        → option_map disk_change (on_decision known disk decisions.None op) ≡ Some Closes }
{}

/// What a command does is what it then waits for: the decision on that entry, that work, or nothing, once it has its reply.
pub fn a_command_waits_for_what_it_did()
    ensures begun { (by : NodeId) (session : ℕ) (ask : VdiAsk) (disk : Option Content)
        → IfSome (begin_command by session ask disk) IsAwaitedByCommand }
    ensures decided { (known : List Effect) (disk : Option Content) (decision : Decision) (op : Op)
        → IfSome (on_decision known disk decision op) IsAwaitedByCommand }
    ensures done { (bytes : List ℕ) (op : Op)
        → IfSome (op_on_done bytes op) IsAwaitedByCommand }
    // An entry is decided, and a work is done or refused, only where the command waits for it.
    ensures entries { (known : List Effect) (disk : Option Content) (decision : Decision) (op : Op)
        → IsTrue (is_some (on_decision known disk decision op)) → IsTrue (is_some (entry_wanted op)) }
    ensures works { (bytes : List ℕ) (op : Op) → is_some (op_on_done bytes op) ≡ is_some (op_bytes_wanted op) }
    ensures refused { (cause : Cause) (op : Op) → is_some (on_refusal cause op) ≡ is_some (op_bytes_wanted op) }
{}

/// What an opening or a clone takes from an inode that it reads: the table, as far as its entries count.
pub fn the_table_alone_is_taken()
    // Each entry is a hole, or one of the ids that count; and one that counts stays.
    ensures entries { (ids : List ℕ) (spec : VdiSpec) (bytes : List ℕ)
        → All (λ entry. (entry ≡ 0) ⊎ IsTrue (list_any (λ id. id == entry) ids)) (table_in ids spec bytes) }
    ensures stays { (ids : List ℕ) (entry : ℕ) → IsTrue (list_any (λ id. id == entry) ids) → kept_entry ids entry ≡ entry }
    ensures count { (ids : List ℕ) (spec : VdiSpec) (bytes : List ℕ) → length (table_in ids spec bytes) ≡ objects_of spec }
    // Of bytes that spell an inode it is that inode's table.
    ensures table { (ids : List ℕ) (spec : VdiSpec) (bytes : List ℕ) (read : Content) → SpellsInode bytes read
        → All IsEntry read.table → length read.table ≡ objects_of spec → table_in ids spec bytes ≡ map (kept_entry ids) read.table }
{}

/// What an opening writes back spells the header that the directory has, with the table as it was read.
pub fn the_table_is_written_back()
    ensures { (inode read : Content) (bytes : List ℕ) → IsFieldText inode.name → IsFieldText inode.tag → SpellsInode bytes read
        → SpellsInode (written_back inode bytes) (record inode { table = read.table }) }
{}

/// What a snapshot writes of its tag makes of the inode without a tag, as it was written, the inode with that tag.
pub fn the_tag_is_written_in_its_field()
    ensures { (inode : Content) (tag rest : List ℕ) (oid : ℕ) (policy : Policy) (offset : ℕ) (written : List ℕ)
        → IsFieldText inode.name → IsFieldText tag → write_tag inode tag ≡ works.Write oid policy offset written
        → laid_over (inode_bytes (record inode { tag = [] }) (unread_zeros (record inode { tag = [] })) ++ rest) offset written
        ≡ inode_bytes (record inode { tag = tag }) (unread_zeros (record inode { tag = tag })) ++ rest }
{}

/// What is written of an inode fits into its object.
pub fn an_inode_has_room()
    ensures { (spec : VdiSpec) → IsSpec spec → written_bytes spec ≤ INODE_BYTES }
{}

/// What a command begins is a work that a gateway takes, where the header that was granted is one of an inode, the tag that was asked
/// for is one, and a read gives as many bytes as are waited for.
pub fn a_command_begins_works()
    ensures granted { (op : Op) (vid : Vid) (chain : List ℕ) (disk : Option Content) (entry : Entry) (header : TheHeader)
        → IsVid vid.0 → IsInodeHeader header → IfSome header.parent (λ parent. IsVid parent.0)
        → IfSome disk (λ inode. FitsEntry header inode entry) → EntryHasTag entry
        → IfSome (step_after_grant op vid chain disk entry header) (λ step. CommandBeginsWork step.act) }
    ensures done { (bytes : List ℕ) (op : Op) → IsSoundOpStage op.stage → op_bytes_wanted op ≡ Some (length bytes)
        → IfSome (op_on_done bytes op) (λ step. CommandBeginsWork step.act) }
{}
