ghost use Rattle.std.specs.Prelude.{◌≡◌};
ghost use Rattle.vdi_ops.specs.Subject.{subject_number};

use object_id::Entry;

/// The number that an entry is about, by which it is found who waits for its decision: of what a session asks the session, of what it
/// has the id of the disk, and else 0. Takes no memory.
pub fn subject_number(entry: &Entry) -> u32
    ensures { result ≡ subject_number entry.now }
{
    match entry {
        Entry::Format { .. } => 0,
        Entry::Join { .. } => 0,
        Entry::Leave { .. } => 0,
        Entry::Reweight { .. } => 0,
        Entry::Recovered { .. } => 0,
        Entry::Reserve { session, .. } => *session,
        Entry::Publish { vid, .. } => vid.0,
        Entry::Clone { vid, .. } => vid.0,
        Entry::Snapshot { vid, .. } => vid.0,
        Entry::Delete { session, .. } => *session,
        Entry::Lock { session, .. } => *session,
        Entry::Unlock { vid, .. } => vid.0,
    }
}
