//! The words of an entry of the log, read and written.

use crate::fault::Fault;
use crate::words::{Words, write_bytes, write_named, write_spec};
use object_id::{Entry, Member, MemberList, NodeId, Origin};
use std::alloc::AllocError;
use std::fmt::Write;

fn member(words: &mut Words) -> Result<Member, Fault> {
    Ok(Member {
        node: words.node()?,
        zone: words.number()?,
        vnodes: words.number()?,
    })
}

fn members(words: &mut Words) -> Result<MemberList, Fault> {
    let count: u32 = words.number()?;
    let mut members = MemberList::new(words.alloc);
    for _ in 0..count {
        members.push(member(words)?)?;
    }
    Ok(members)
}

fn origin(words: &mut Words) -> Result<Origin, Fault> {
    match words.word()? {
        "fresh" => Ok(Origin::Fresh {
            spec: words.spec()?,
        }),
        "snapshot" => Ok(Origin::SnapshotOf {
            tag: words.bytes()?,
        }),
        "clone" => {
            let (base, tag) = words.bytes_twice()?;
            Ok(Origin::CloneOf { base, tag })
        }
        _ => Err(Fault::Word),
    }
}

/// The entry that the next words spell.
pub(crate) fn read_entry(words: &mut Words) -> Result<Entry, Fault> {
    match words.word()? {
        "format" => Ok(Entry::Format {
            members: members(words)?,
        }),
        "join" => {
            let Member { node, zone, vnodes } = member(words)?;
            Ok(Entry::Join { node, zone, vnodes })
        }
        "leave" => Ok(Entry::Leave {
            node: words.node()?,
        }),
        "reweight" => Ok(Entry::Reweight {
            node: words.node()?,
            vnodes: words.number()?,
        }),
        "recovered" => Ok(Entry::Recovered {
            node: words.node()?,
            epoch: words.epoch()?,
        }),
        kind => disk_entry(kind, words),
    }
}

/// An entry of a node on disks.
fn disk_entry(kind: &str, words: &mut Words) -> Result<Entry, Fault> {
    let by = words.node()?;
    match kind {
        "publish" => Ok(Entry::Publish {
            by,
            vid: words.vid()?,
        }),
        "clone" => Ok(Entry::Clone {
            by,
            vid: words.vid()?,
        }),
        "snapshot" => Ok(Entry::Snapshot {
            by,
            old: words.vid()?,
            vid: words.vid()?,
        }),
        kind => session_entry(kind, by, words),
    }
}

/// An entry of a node's session on disks.
fn session_entry(kind: &str, by: NodeId, words: &mut Words) -> Result<Entry, Fault> {
    let session = words.number()?;
    match kind {
        "reserve" => reserve(by, session, words),
        "delete" => {
            let (name, tag) = words.named()?;
            Ok(Entry::Delete {
                by,
                session,
                name,
                tag,
            })
        }
        "lock" => {
            let (name, tag) = words.named()?;
            Ok(Entry::Lock {
                by,
                session,
                name,
                tag,
            })
        }
        "unlock" => Ok(Entry::Unlock {
            by,
            session,
            vid: words.vid()?,
        }),
        _ => Err(Fault::Word),
    }
}

fn reserve(by: NodeId, session: u32, words: &mut Words) -> Result<Entry, Fault> {
    Ok(Entry::Reserve {
        by,
        session,
        name: words.bytes()?,
        origin: origin(words)?,
    })
}

/// Writes an entry of the log: its kind, and its fields in order.
pub fn write_entry(out: &mut String, entry: &Entry) -> Result<(), AllocError> {
    match entry {
        Entry::Format { members } => {
            write!(out, "format {}", members.len())?;
            for member in members.as_slice() {
                write!(out, " {} {} {}", member.node.0, member.zone, member.vnodes)?;
            }
            Ok(())
        }
        Entry::Join { node, zone, vnodes } => write!(out, "join {} {zone} {vnodes}", node.0),
        Entry::Leave { node } => write!(out, "leave {}", node.0),
        Entry::Reweight { node, vnodes } => write!(out, "reweight {} {vnodes}", node.0),
        Entry::Recovered { node, epoch } => write!(out, "recovered {} {}", node.0, epoch.0),
        Entry::Publish { by, vid } => write!(out, "publish {} {}", by.0, vid.0),
        Entry::Clone { by, vid } => write!(out, "clone {} {}", by.0, vid.0),
        Entry::Snapshot { by, old, vid } => write!(out, "snapshot {} {} {}", by.0, old.0, vid.0),
        Entry::Reserve {
            by,
            session,
            name,
            origin,
        } => {
            write!(out, "reserve {} {session} ", by.0)?;
            write_bytes(out, name.as_slice())?;
            write_origin(out, origin)
        }
        Entry::Delete {
            by,
            session,
            name,
            tag,
        } => {
            write!(out, "delete {} {session} ", by.0)?;
            write_named(out, name, tag)
        }
        Entry::Lock {
            by,
            session,
            name,
            tag,
        } => {
            write!(out, "lock {} {session} ", by.0)?;
            write_named(out, name, tag)
        }
        Entry::Unlock { by, session, vid } => write!(out, "unlock {} {session} {}", by.0, vid.0),
    }
}

fn write_origin(out: &mut String, origin: &Origin) -> Result<(), AllocError> {
    match origin {
        Origin::Fresh { spec } => {
            out.push_str(" fresh ")?;
            write_spec(out, *spec)
        }
        Origin::SnapshotOf { tag } => {
            out.push_str(" snapshot ")?;
            write_bytes(out, tag.as_slice())
        }
        Origin::CloneOf { base, tag } => {
            out.push_str(" clone ")?;
            write_bytes(out, base.as_slice())?;
            out.push(' ')?;
            write_bytes(out, tag.as_slice())
        }
    }
}
