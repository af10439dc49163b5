ghost use Rattle.std.specs.Prelude.{◌≡◌, ℕ, List, None, Some, OnOk, OnErr, if◌then◌else◌};
ghost use Rattle.vdi_directory.specs.Names.{is_same_bytes};
ghost use Rattle.vdi_directory.specs.NameRows.{tag_in};

use object_id::{NoMemory, Vid};
use std::alloc::Global;
use std::collections::BTreeMap;

/// The live snapshot with a tag.
pub fn tagged(tags: &BTreeMap<Vec<u8>, Vid>, tag: &[u8]) -> Option<Vid>
    ensures { result ≡ tag_in tags.now tag.now }
{
    tags.get(tag).copied()
}

/// Gives a tag to a snapshot, whichever had it. Without memory each tag finds what it found.
pub fn add_tag(
    alloc: Global,
    tags: &mut BTreeMap<Vec<u8>, Vid>,
    tag: &[u8],
    vid: Vid,
) -> Result<(), NoMemory>
    ensures ok { OnOk result ((other : List ℕ) → tag_in tags.new other
        ≡ (if is_same_bytes tag.now other then Some vid else tag_in tags.old other)) }
    ensures err { OnErr result ((other : List ℕ) → tag_in tags.new other ≡ tag_in tags.old other) }
{
    tags.insert(Vec::from_slice(alloc, tag)?, vid)?;
    Ok(())
}

/// Takes a tag from the snapshot that has it, if there is one.
pub fn drop_tag(tags: &mut BTreeMap<Vec<u8>, Vid>, tag: &[u8])
    ensures { (other : List ℕ) → tag_in tags.new other ≡ (if is_same_bytes tag.now other then None else tag_in tags.old other) }
{
    tags.remove(tag);
}
