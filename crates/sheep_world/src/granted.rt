//! What an entry adds to the history, where the log first holds it: the disks that it makes, copies and deletes.

ghost use Rattle.std.specs.Prelude.{◌≡◌, ◌∷◌, ◌++◌, [], IfOk};
ghost use Rattle.std.specs.Option.{option_map_or, option_to_list};
ghost use Rattle.sheep_world.specs.Granted.{granted_header, disk_made, disk_cloned, granted_adds, decided_adds, entry_adds};

use crate::cluster_log::ClusterLog;
use disk_history::{HistEvent, HistList};
use object_id::{BLOCK_BYTES, Entry, NoMemory, Vid};
use std::alloc::Global;
use vdi_directory::{Decision, Directory};

/// The log with one entry more, and what that adds to the history.
#[derive(Drop)]
pub(crate) struct GrownLog {
    pub log: ClusterLog,
    pub adds: HistList,
}

/// A new disk, of as many blocks as its size has.
fn disk_made(directory: &Directory, vid: Vid) -> Option<HistEvent>
    ensures { option_to_list result ≡ option_map_or (disk_made vid) (granted_header directory.now vid) [] }
{
    match directory.header(vid) {
        Some(header) => Some(HistEvent::Create {
            disk: vid.0,
            blocks: header.spec.size / u64::from(BLOCK_BYTES),
        }),
        None => None,
    }
}

/// A clone begins as its parent is.
fn disk_cloned(directory: &Directory, vid: Vid) -> Option<HistEvent>
    ensures { option_to_list result ≡ option_map_or (disk_cloned vid) (granted_header directory.now vid) [] }
{
    match directory.header(vid)?.parent {
        Some(parent) => Some(HistEvent::Copy {
            old: parent.0,
            new: vid.0,
        }),
        None => None,
    }
}

/// What a granted entry adds.
fn granted_event(directory: &Directory, vid: Vid, entry: &Entry) -> Option<HistEvent>
    ensures { option_to_list result ≡ granted_adds directory.now vid entry.now }
{
    match entry {
        Entry::Publish { .. } => disk_made(directory, vid),
        Entry::Clone { .. } => disk_cloned(directory, vid),
        Entry::Snapshot { old, .. } => Some(HistEvent::Copy {
            old: old.0,
            new: vid.0,
        }),
        Entry::Delete { .. } => Some(HistEvent::Delete { disk: vid.0 }),
        _ => None,
    }
}

/// What a decision adds.
fn decided_event(directory: &Directory, entry: &Entry, decision: Decision) -> Option<HistEvent>
    ensures { option_to_list result ≡ decided_adds directory.now entry.now decision }
{
    match decision {
        Decision::None => None,
        Decision::Granted { vid } => granted_event(directory, vid, entry),
        Decision::Refused(_) => None,
    }
}

/// The event alone, or no event.
fn list_of(alloc: Global, event: Option<HistEvent>) -> Result<HistList, NoMemory>
    ensures { IfOk result (λ list. list ≡ option_to_list event) }
{
    let mut list = HistList::new(alloc);
    if let Some(event) = event {
        list.push(event)?;
    }
    Ok(list)
}

impl ClusterLog {
    /// The log with one entry more, and what that adds to the history. Without memory, and where the entry may not stand there, it is
    /// answered as by `with_entry`, and costs what that costs.
    pub fn grow(self, entry: &Entry) -> Result<GrownLog, NoMemory>
        ensures log { IfOk result (λ grown. grown.log ≡ self ++ entry.now ∷ []) }
        ensures adds { IfOk result (λ grown. grown.adds ≡ entry_adds self entry.now) }
    {
        let alloc = self.alloc;
        let (log, decision) = self.with_entry(entry)?;
        // What publishes an id leaves the id's header as it was, so it can be asked for once the entry is read.
        let event = decided_event(log.directory(), entry, decision);
        Ok(GrownLog {
            log,
            adds: list_of(alloc, event)?,
        })
    }
}
