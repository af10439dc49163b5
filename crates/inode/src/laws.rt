//! Laws of the spelling, for the proofs of the layers above: each is the contract of a function that does nothing.
ghost use Rattle.std.specs.Prelude.{◌≡◌, ℕ, ◌+◌, ◌*◌, ◌^◌, List, ◌++◌, length};
ghost use Rattle.object_id.specs.declared.limits.TheConstants.{OBJECTS_MAX};
ghost use Rattle.inode.specs.declared.layout.TheConstants.{INODE_BYTES, INODE_HEADER_BYTES};
ghost use Rattle.inode.specs.Layout.{Content, UnreadParts, Fills, IsFieldText, IsContent, SpellsInode, header_bytes, inode_bytes};
ghost use Rattle.inode.specs.Layout.{unread_zeros};

/// Bytes begin with the spelling of one inode at most, and what `to_bytes` gives begins with that of the inode, whatever
/// follows it. So reading it gives the inode.
pub fn inodes_are_read_again()
    ensures one { (bytes : List ℕ) (a b : Content) → IsContent a → IsContent b → SpellsInode bytes a → SpellsInode bytes b → a ≡ b }
    ensures encoded { (content : Content) (rest : List ℕ) → IsFieldText content.name → IsFieldText content.tag
        → SpellsInode (inode_bytes content (unread_zeros content) ++ rest) content }
{}

/// An inode's spelling has the header's bytes and four for each entry, whatever stands where nothing is read.
pub fn an_inode_is_as_long_as_its_table()
    ensures header { (content : Content) (unread : UnreadParts) → Fills content unread
        → length (header_bytes content unread) ≡ INODE_HEADER_BYTES }
    ensures whole { (content : Content) (unread : UnreadParts) → Fills content unread
        → length (inode_bytes content unread) ≡ INODE_HEADER_BYTES + 4 * length content.table }
    ensures written { (content : Content) → IsFieldText content.name → IsFieldText content.tag
        → length (inode_bytes content (unread_zeros content)) ≡ INODE_HEADER_BYTES + 4 * length content.table }
{}

/// An inode object has room for the header and the most entries that a disk may have.
pub fn an_inode_has_room_for_all_entries()
    ensures { INODE_BYTES ≡ INODE_HEADER_BYTES + 4 * OBJECTS_MAX }
{}
