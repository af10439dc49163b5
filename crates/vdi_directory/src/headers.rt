ghost use Rattle.std.specs.Prelude.{◌≡◌, ◌==◌, ℕ, List, if◌then◌else◌};
ghost use Rattle.std.specs.Option.{option_map};
ghost use Rattle.std.specs.Ordering.{nat_cmp};
ghost use Rattle.std.specs.BTreeMap.{get};
ghost use Rattle.vdi_directory.specs.declared.header.Header.{Header};
ghost use Rattle.vdi_directory.specs.DirectoryState.{header_tag};

use crate::header::Header;
use object_id::{Bytes, Vid};
use std::collections::BTreeMap;

/// Gives a disk a tag.
pub fn set_tag(headers: &mut BTreeMap<u32, Header>, vid: Vid, tag: Bytes)
    ensures { (other : ℕ) → get nat_cmp headers.new other
        ≡ (if vid.0 == other then option_map (λ (old : Header). record old { tag = tag }) (get nat_cmp headers.old other)
        else get nat_cmp headers.old other) }
{
    if let Some(header) = headers.get_mut(&vid.0) {
        header.tag = tag;
    }
}

/// A disk's tag; empty where it has none.
pub fn tag_of(headers: &BTreeMap<u32, Header>, vid: Vid) -> &[u8]
    ensures { result.now ≡ header_tag (get nat_cmp headers.now vid.0) }
{
    match headers.get(&vid.0) {
        Some(header) => header.tag.as_slice(),
        None => &[],
    }
}
