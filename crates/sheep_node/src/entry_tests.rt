//! Which entries may be read, told by the entries before them alone. A log with which a node comes back has no tally, and to count one
//! takes memory.

ghost use Rattle.std.specs.Prelude.{◌≡◌, ◌+◌, ◌-◌, ◌^◌, ◌<◌, ◌≤◌, ◌↔◌, length, take, drop, Some, None, IsTrue, if◌then◌else◌};
ghost use Rattle.epoch_log.specs.Members.{is_member};
ghost use Rattle.epoch_log.specs.Epochs.{begins_epoch, epoch_of, initial_members, members_in};
ghost use Rattle.epoch_log.specs.Appending.{is_format, IsReservable, FitsMembers, MayAppend};
ghost use Rattle.sheep_node.specs.EntryTests.{begun_by, is_member_after};
ghost use Rattle.sheep_node.specs.May.{MayBeFirst, MayRead};
ghost use Rattle.sheep_node.specs.MayTests.{may_read_entries, rest_behind};

use epoch_log::Log;
use object_id::{EPOCH_MAX, Entry, Member, NodeId, is_name, is_weight};

/// Whether an entry begins an epoch.
pub(crate) fn begins_epoch(entry: &Entry) -> bool
    ensures { result ≡ begins_epoch entry.now }
{
    match entry {
        Entry::Join { .. } => true,
        Entry::Leave { .. } => true,
        Entry::Reweight { .. } => true,
        _ => false,
    }
}

/// Whether an entry is one that opens a log.
pub(crate) fn is_format(entry: &Entry) -> bool
    ensures { result ≡ is_format entry.now }
{
    match entry {
        Entry::Format { .. } => true,
        _ => false,
    }
}

/// Whether a node is one of the members.
pub(crate) fn is_member(node: NodeId, members: &[Member]) -> bool
    ensures { result ≡ is_member node.0 members.now }
{
    members.iter().any(|member| member.node == node)
}

/// One more, if an entry begins an epoch.
fn begun_with(begun: usize, entry: &Entry) -> usize
    requires { begun < 2 ^ 64 - 1 }
    ensures { result ≡ begun + (if begins_epoch entry.now then 1 else 0) }
{
    if begins_epoch(entry) {
        begun + 1
    } else {
        begun
    }
}

/// How many of these entries begin an epoch.
pub(crate) fn begun_by(entries: &[Entry]) -> usize
    ensures { result ≡ begun_by entries.now }
{
    let mut begun = 0;
    for entry in entries {
        begun = begun_with(begun, entry);
    }
    begun
}

/// Whether a node is one of the members with which a log opens.
fn is_initial_member(node: NodeId, entries: &[Entry]) -> bool
    ensures { result ≡ is_member node.0 (initial_members entries.now) }
{
    match entries.first() {
        Some(Entry::Format { members }) => is_member(node, members.as_slice()),
        _ => false,
    }
}

/// Whether a node is a member after an entry, where it was one before or not.
fn is_member_after(node: NodeId, was: bool, entry: &Entry) -> bool
    ensures { result ≡ is_member_after node.0 was entry.now }
{
    match entry {
        Entry::Join { node: other, .. } => was || *other == node,
        Entry::Leave { node: other } => was && *other != node,
        _ => was,
    }
}

/// Whether a node is a member after these entries.
pub(crate) fn is_newest_member(node: NodeId, entries: &[Entry]) -> bool
    ensures { result ≡ is_member node.0 (members_in entries.now (epoch_of entries.now)) }
{
    let mut is = is_initial_member(node, entries);
    for entry in entries {
        is = is_member_after(node, is, entry);
    }
    is
}

/// Whether a reservation has a name, and an origin that a disk may be made from.
fn is_reservable(entry: &Entry) -> bool
    ensures { IsTrue result ↔ IsReservable entry.now }
{
    match entry {
        Entry::Reserve { name, origin, .. } => is_name(name.as_slice()) && origin.is_valid(),
        _ => true,
    }
}

/// Whether an entry fits the members after those before it.
fn fits_members(before: &[Entry], entry: &Entry) -> bool
    ensures { IsTrue result ↔ FitsMembers (members_in before.now (epoch_of before.now)) entry.now }
{
    match entry {
        Entry::Join { node, vnodes, .. } => {
            node.is_valid() && is_weight(*vnodes) && !is_newest_member(*node, before)
        }
        Entry::Leave { node } => is_newest_member(*node, before),
        Entry::Reweight { node, vnodes } => is_weight(*vnodes) && is_newest_member(*node, before),
        _ => true,
    }
}

/// Whether an entry may stand behind these, so many of which begin an epoch.
fn may_append(before: &[Entry], begun: usize, entry: &Entry) -> bool
    requires { begun ≡ begun_by before.now }
    ensures { IsTrue result ↔ MayAppend before.now entry.now }
{
    !is_format(entry)
        && is_reservable(entry)
        && fits_members(before, entry)
        && begun < EPOCH_MAX as usize - 1
}

/// Whether an entry may be the first.
pub(crate) fn may_be_first(entry: &Entry) -> bool
    ensures { IsTrue result ↔ MayBeFirst entry.now }
{
    match entry {
        Entry::Format { members } => Log::may_open(members.as_slice()),
        _ => false,
    }
}

/// Whether an entry may be read behind these, so many of which begin an epoch.
fn may_be_read(before: &[Entry], begun: usize, entry: &Entry) -> bool
    requires { begun ≡ begun_by before.now }
    ensures { IsTrue result ↔ MayRead before.now entry.now }
{
    if before.is_empty() {
        may_be_first(entry)
    } else {
        may_append(before, begun, entry)
    }
}

/// Whether the entries from a place on may be read one after the other.
pub(crate) fn may_be_read_from(entries: &[Entry], first: usize) -> bool
    requires { first ≤ length entries.now }
    ensures { result ≡ may_read_entries (take first entries.now) (drop first entries.now) }
{
    let mut begun = begun_by(&entries[..first]);
    for place in first..entries.len() {
        if !may_be_read(&entries[..place], begun, &entries[place]) {
            return false;
        }
        begun = begun_with(begun, &entries[place]);
    }
    true
}

/// Whether entries begin with these.
pub(crate) fn begins_with(entries: &[Entry], own: &[Entry]) -> bool
    ensures within { IsTrue result → length own.now ≤ length entries.now }
    ensures same { IsTrue result → take (length own.now) entries.now ≡ own.now }
    ensures rest { rest_behind own.now entries.now ≡ (if result then Some (drop (length own.now) entries.now) else None) }
{
    if entries.len() < own.len() {
        return false;
    }
    for place in 0..own.len() {
        if !own[place].same(&entries[place]) {
            return false;
        }
    }
    true
}
