//! `vdi list`: a line for each live id.

ghost use Rattle.std.specs.Prelude.{◌≡◌, ◌==◌, true, [], ◌∷◌, ◌++◌, codes, decimal, OnOk};
ghost use Rattle.std.specs.List.{list_any};
ghost use Rattle.std.specs.Option.{option_map_or};
ghost use Rattle.object_id.specs.declared.oid.Vid.{Vid as TheVid};
ghost use Rattle.cluster_script.specs.Writing.{policy_word};
ghost use Rattle.vdi_directory.specs.Decisions.{log_effects};
ghost use Rattle.vdi_directory.specs.DirectoryState.{AreLocks};
ghost use Rattle.vdi_directory.specs.Effects.{header_of, live_of};
ghost use Rattle.dog_report.specs.Words.{hex, spaced_words, following_words};
ghost use Rattle.dog_report.specs.Lists.{vdi_words, vdis_words};
ghost use Rattle.dog_report.specs.ListParts.{lines_text, header_tag_word, header_state_words, header_details};

use crate::places::next_place;
use crate::words::{
    VID_DIGITS, end_line, push_decimal, push_decimal_word, push_hex_word, push_named, push_word,
};
use disk_lock::{Holder, Locks};
use object_id::{NoMemory, Policy, VdiSpec, Vid};
use vdi_directory::{Directory, Header};

/// Adds a policy behind another word: a number of copies, or `D:P`.
fn push_policy(text: &mut Vec<u8>, policy: Policy) -> Result<(), NoMemory>
    ensures { OnOk result (text.new.items ≡ text.old.items ++ following_words (policy_word policy ∷ [])) }
{
    match policy {
        Policy::Copies(copies) => push_decimal_word(text, u64::from(copies)),
        Policy::Coded { d, p } => {
            push_decimal_word(text, u64::from(d))?;
            text.extend_from_slice(b":")?;
            push_decimal(text, u64::from(p))
        }
    }
}

/// Adds a snapshot's tag, or a dash, behind another word.
fn push_tag(text: &mut Vec<u8>, tag: &[u8]) -> Result<(), NoMemory>
    ensures { OnOk result (text.new.items ≡ text.old.items ++ following_words (header_tag_word tag.now ∷ [])) }
{
    if tag.is_empty() {
        push_word(text, b"-")
    } else {
        push_word(text, tag)
    }
}

/// The number of a parent; 0 for none.
fn parent_number(parent: Option<Vid>) -> u32
    ensures { result ≡ option_map_or (λ (parent : TheVid). parent.0) parent 0 }
{
    match parent {
        None => 0,
        Some(parent) => parent.0,
    }
}

/// Adds what a live id is: a snapshot, or who has the disk open.
fn push_state(text: &mut Vec<u8>, tag: &[u8], holder: Option<Holder>) -> Result<(), NoMemory>
    ensures { OnOk result (text.new.items ≡ text.old.items ++ following_words (header_state_words tag.now holder)) }
{
    if !tag.is_empty() {
        return push_word(text, b"snapshot");
    }
    match holder {
        None => push_word(text, b"free"),
        Some(holder) => push_named(text, b"session", u64::from(holder.session)),
    }
}

/// Adds an id, its disk's name and its tag behind another word.
fn push_names(text: &mut Vec<u8>, vid: Vid, header: &Header) -> Result<(), NoMemory>
    ensures { OnOk result (text.new.items ≡ text.old.items
        ++ following_words (hex 6 vid.0 ∷ header.now.name ∷ header_tag_word header.now.tag ∷ [])) }
{
    push_hex_word(text, VID_DIGITS, u64::from(vid.0))?;
    push_word(text, header.name.as_slice())?;
    push_tag(text, header.tag.as_slice())
}

/// Adds what a disk is made with behind another word.
fn push_spec(text: &mut Vec<u8>, spec: VdiSpec) -> Result<(), NoMemory>
    ensures { OnOk result (text.new.items ≡ text.old.items
        ++ following_words (decimal spec.size ∷ policy_word spec.policy ∷ decimal spec.shift ∷ [])) }
{
    push_decimal_word(text, spec.size)?;
    push_policy(text, spec.policy)?;
    push_decimal_word(text, u64::from(spec.shift))
}

/// Adds a parent behind another word.
fn push_parent(text: &mut Vec<u8>, parent: Option<Vid>) -> Result<(), NoMemory>
    ensures { OnOk result (text.new.items ≡ text.old.items
        ++ following_words (hex 6 (option_map_or (λ (parent : TheVid). parent.0) parent 0) ∷ [])) }
{
    push_hex_word(text, VID_DIGITS, u64::from(parent_number(parent)))
}

/// Adds what a live id is by its header, behind the line's first word.
fn push_details(
    text: &mut Vec<u8>,
    vid: Vid,
    header: &Header,
    holder: Option<Holder>,
) -> Result<(), NoMemory>
    ensures { OnOk result (text.new.items ≡ text.old.items ++ following_words (header_details vid.0 header.now holder)) }
{
    push_names(text, vid, header)?;
    push_spec(text, header.spec)?;
    push_parent(text, header.parent)?;
    push_state(text, header.tag.as_slice(), holder)
}

/// Adds the line of a live id with its header.
fn push_header(
    text: &mut Vec<u8>,
    vid: Vid,
    header: &Header,
    holder: Option<Holder>,
) -> Result<(), NoMemory>
    ensures { OnOk result (text.new.items ≡ text.old.items
        ++ spaced_words (codes "vdi" ∷ header_details vid.0 header.now holder) ++ codes "\n") }
{
    text.extend_from_slice(b"vdi")?;
    push_details(text, vid, header, holder)?;
    end_line(text)?;
    Ok(())
}

/// Adds the line of a live id. Costs the logarithm of the known ids and of the locks.
fn push_vdi(
    text: &mut Vec<u8>,
    directory: &Directory,
    locks: &Locks,
    vid: Vid,
) -> Result<(), NoMemory>
    requires locks { AreLocks (log_effects directory.now) locks.now }
    requires live { list_any (λ other. other == vid.0) (live_of (log_effects directory.now)) ≡ true }
    ensures { OnOk result (text.new.items ≡ text.old.items
        ++ spaced_words (option_map_or (vdi_words (log_effects directory.now) vid.0) (header_of (log_effects directory.now) vid.0) [])
        ++ codes "\n") }
{
    match directory.header(vid) {
        Some(header) => push_header(text, vid, header, locks.holder(vid)),
        None => end_line(text),
    }
}

/// Adds a line for each live id, ascending. Costs the logarithm of the known ids and of the locks for each.
pub fn push_vdis(text: &mut Vec<u8>, directory: &Directory, locks: &Locks) -> Result<(), NoMemory>
    requires { AreLocks (log_effects directory.now) locks.now }
    ensures { OnOk result (text.new.items ≡ text.old.items ++ lines_text (vdis_words (log_effects directory.now))) }
{
    let mut place = 0_usize;
    while let Some(vid) = directory.live_at(place) {
        push_vdi(text, directory, locks, vid)?;
        place = next_place(place)?;
    }
    Ok(())
}
