//! The words that spell entries of a log, decisions and disks.

use disk_lock::Locks;
use object_id::{Bytes, Cause, Entry, Epoch, NoMemory, NodeId, Origin, Policy, VdiSpec, Vid};
use std::alloc::Global;
use vdi_directory::{Decision, Directory};

fn nibble(digit: u8) -> u32 {
    if digit < b'a' {
        u32::from(digit.wrapping_sub(b'0') % 16)
    } else {
        u32::from(digit.wrapping_sub(b'a') % 6) + 10
    }
}

pub fn vid_of(digits: &[u8]) -> Vid {
    let mut number = 0_u32;
    for digit in digits {
        number = number.wrapping_mul(16).wrapping_add(nibble(*digit));
    }
    Vid(number)
}

pub fn digit_of(number: u32) -> u8 {
    let nibble = (number % 16) as u8;
    if nibble < 10 {
        b'0' + nibble
    } else {
        b'a' + (nibble - 10)
    }
}

/// The part of a word at a place, between colons.
fn part(word: &[u8], place: usize) -> &[u8] {
    word.split(|byte| *byte == b':').nth(place).unwrap_or(b"")
}

pub fn spec() -> VdiSpec {
    VdiSpec {
        size: 0x10_0000,
        policy: Policy::Copies(3),
        shift: 22,
    }
}

fn tag_of(alloc: Global, names: &[u8]) -> Result<Option<Bytes>, NoMemory> {
    let tag = part(names, 1);
    if tag.is_empty() {
        Ok(None)
    } else {
        Ok(Some(Bytes::from_slice(alloc, tag)?))
    }
}

pub fn reserve_of(
    alloc: Global,
    kind: u8,
    by: NodeId,
    session: u32,
    names: &[u8],
) -> Result<Entry, NoMemory> {
    let name = Bytes::from_slice(alloc, part(names, 0))?;
    let second = Bytes::from_slice(alloc, part(names, 1))?;
    let third = Bytes::from_slice(alloc, part(names, 2))?;
    let origin = match kind {
        b'F' => Origin::Fresh { spec: spec() },
        b'S' => Origin::SnapshotOf { tag: second },
        _ => Origin::CloneOf {
            base: second,
            tag: third,
        },
    };
    Ok(Entry::Reserve {
        by,
        session,
        name,
        origin,
    })
}

pub fn entry_of(alloc: Global, word: &[u8]) -> Result<Entry, NoMemory> {
    let kind = *word.first().unwrap_or(&b'-');
    let node = NodeId(nibble(*word.get(1).unwrap_or(&b'0')));
    let session = nibble(*word.get(2).unwrap_or(&b'0'));
    let names = word.get(3..).unwrap_or(b"");
    let vid = vid_of(part(names, 0));
    Ok(match kind {
        b'F' | b'S' | b'K' => reserve_of(alloc, kind, node, session, names)?,
        b'P' => Entry::Publish { by: node, vid },
        b'C' => Entry::Clone { by: node, vid },
        b'N' => Entry::Snapshot {
            by: node,
            old: vid,
            vid: vid_of(part(names, 1)),
        },
        b'D' => Entry::Delete {
            by: node,
            session,
            name: Bytes::from_slice(alloc, part(names, 0))?,
            tag: tag_of(alloc, names)?,
        },
        b'O' => Entry::Lock {
            by: node,
            session,
            name: Bytes::from_slice(alloc, part(names, 0))?,
            tag: tag_of(alloc, names)?,
        },
        b'U' => Entry::Unlock {
            by: node,
            session,
            vid,
        },
        b'X' => Entry::Leave { node },
        b'J' => Entry::Join {
            node,
            zone: node.0,
            vnodes: 4,
        },
        b'w' => Entry::Reweight { node, vnodes: 7 },
        _ => Entry::Recovered {
            node,
            epoch: Epoch(2),
        },
    })
}

fn push_vid(text: &mut Vec<u8>, vid: Vid) -> Result<(), NoMemory> {
    for shift in [20, 16, 12, 8, 4, 0] {
        text.push(digit_of(vid.0 >> shift))?;
    }
    Ok(())
}

/// Adds a decision, after a blank.
pub fn push_decision(text: &mut Vec<u8>, decision: Decision) -> Result<(), NoMemory> {
    text.push(b' ')?;
    let letter = match decision {
        Decision::None => {
            text.push(b'-')?;
            return Ok(());
        }
        Decision::Granted { vid } => return push_vid(text, vid),
        Decision::Refused(Cause::VdiLocked { session }) => {
            text.extend_from_slice(b"!L")?;
            digit_of(session)
        }
        Decision::Refused(cause) => {
            text.push(b'!')?;
            match cause {
                Cause::VdiExist => b'E',
                Cause::VdiNotLocked => b'N',
                Cause::NoBaseVdi => b'B',
                Cause::NoTag => b'T',
                Cause::NoVdi => b'V',
                _ => b'?',
            }
        }
    };
    text.push(letter)?;
    Ok(())
}

/// A live disk: its id, name, tag, snap_id, parent and holder.
fn push_disk(
    text: &mut Vec<u8>,
    directory: &Directory,
    locks: &Locks,
    vid: Vid,
) -> Result<(), NoMemory> {
    push_vid(text, vid)?;
    let Some(header) = directory.header(vid) else {
        return Ok(());
    };
    text.push(b'/')?;
    text.extend_from_slice(header.name.as_slice())?;
    text.push(b'/')?;
    text.extend_from_slice(header.tag.as_slice())?;
    text.push(b'/')?;
    text.push(digit_of(header.snap_id))?;
    text.push(b'/')?;
    push_vid(text, header.parent.unwrap_or(Vid(0)))?;
    text.push(b'/')?;
    match locks.holder(vid) {
        Some(holder) => {
            text.push(digit_of(holder.node.0))?;
            text.push(digit_of(holder.session))?;
        }
        None => text.push(b'-')?,
    }
    Ok(())
}

/// The live disks, each after a blank.
pub fn push_live(text: &mut Vec<u8>, directory: &Directory, locks: &Locks) -> Result<(), NoMemory> {
    for k in 0..100 {
        let Some(vid) = directory.live_at(k) else {
            return Ok(());
        };
        text.push(b' ')?;
        push_disk(text, directory, locks, vid)?;
    }
    Ok(())
}
