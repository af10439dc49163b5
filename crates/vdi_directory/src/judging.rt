//! What is decided on the next entry, and what it changes. Nothing is changed here. Memory is taken for the names and tags of an
//! effect alone: a refusal, and a decision that names nothing, is never answered as `NoMemory`.
ghost use Rattle.std.specs.Prelude.{◌≡◌, true, IfOk, OnErr};
ghost use Rattle.std.specs.Option.{option_copied};
ghost use Rattle.vdi_directory.specs.Names.{is_live_name};
ghost use Rattle.vdi_directory.specs.Effects.{reservations_of, reservation_on as the_reservation, name_of};
ghost use Rattle.vdi_directory.specs.Decisions.{has_names, is_reserved_by, publication, snapshot_outcome as the_replacement};
ghost use Rattle.vdi_directory.specs.Decisions.{free_disk as the_free, target as the_target, deletion, lock as the_lock};
ghost use Rattle.vdi_directory.specs.Decisions.{release as the_release, outcome as the_outcome, log_effects};
ghost use Rattle.vdi_directory.specs.Sources.{is_for, tag_for as for_tag};
ghost use Rattle.vdi_directory.specs.DirectoryState.{AreLocks};

use crate::decision::Outcome;
use crate::directory::Directory;
use crate::effect::{Effect, Reservation, Snap, Source};
use crate::reservations::reservation_on;
use crate::reserving::is_held_by;
use disk_lock::{Holder, Locks};
use object_id::{Bytes, Cause, Entry, NoMemory, NodeId, Vid};

/// Whether an id of this source is published by `Clone`, or else by `Publish`.
fn is_for(clones: bool, source: &Source) -> bool
    ensures { result ≡ is_for clones source.now }
{
    match source {
        Source::Fresh => !clones,
        Source::Snapshot { .. } => false,
        Source::Clone => clones,
    }
}

/// The tag that the disk gets, where the id is to be the working disk in its place.
fn tag_for(old: Vid, source: &Source) -> Option<&Bytes>
    ensures { option_copied result ≡ for_tag old source.now }
{
    match source {
        Source::Snapshot { old: of, tag } if *of == old => Some(tag),
        _ => None,
    }
}

fn is_reserved_by(node: NodeId, session: u32, reservation: Option<&Reservation>) -> bool
    ensures { result ≡ is_reserved_by node session (option_copied reservation.entry) }
{
    match reservation {
        Some(reservation) => reservation.by == node && reservation.session == session,
        None => false,
    }
}

impl Directory {
    /// Publishes an id for its node, where its reservation is of the right source.
    fn publication(&self, by: NodeId, vid: Vid, clones: bool) -> Result<Outcome, NoMemory>
        ensures ok { IfOk result (λ o. o ≡ publication by (is_for clones) (the_reservation vid (reservations_of (log_effects self.now)))) }
        ensures memory { OnErr result (has_names (publication by (is_for clones)
            (the_reservation vid (reservations_of (log_effects self.now)))).effect ≡ true) }
    {
        let Some(reservation) = reservation_on(&self.state.reservations, vid) else {
            return Ok(Outcome::nothing());
        };
        if reservation.by == by && is_for(clones, &reservation.source) {
            let name = reservation.name.copy(self.alloc)?;
            let vid = reservation.vid;
            Ok(Outcome::granted(vid, Effect::Published { vid, name }))
        } else {
            Ok(Outcome::nothing())
        }
    }

    /// Puts a reserved id in the place of a disk that is held.
    fn replacement(
        &self,
        by: NodeId,
        old: Vid,
        vid: Vid,
        locks: &Locks,
    ) -> Result<Outcome, NoMemory>
        requires { AreLocks (log_effects self.now) locks.now }
        ensures ok { IfOk result (λ o. o ≡ the_replacement (log_effects self.now) by old
            (the_reservation vid (reservations_of (log_effects self.now)))) }
        ensures memory { OnErr result (has_names (the_replacement (log_effects self.now) by old
            (the_reservation vid (reservations_of (log_effects self.now)))).effect ≡ true) }
    {
        let Some(reservation) = reservation_on(&self.state.reservations, vid) else {
            return Ok(Outcome::nothing());
        };
        if reservation.by != by {
            return Ok(Outcome::nothing());
        }
        let Some(tag) = tag_for(old, &reservation.source) else {
            return Ok(Outcome::nothing());
        };
        let Some(holder) = locks.holder(old) else {
            return Ok(Outcome::nothing());
        };
        let snap = Snap {
            old,
            vid: reservation.vid,
            name: reservation.name.copy(self.alloc)?,
            tag: tag.copy(self.alloc)?,
            holder,
        };
        Ok(Outcome::granted(reservation.vid, Effect::Snapped(snap)))
    }

    /// The working disk of a name, where nobody holds it.
    fn free_disk(&self, name: &Bytes, locks: &Locks) -> Result<Vid, Cause>
        requires { AreLocks (log_effects self.now) locks.now }
        ensures { result ≡ the_free (log_effects self.now) (name_of (log_effects self.now) name.now).working }
    {
        let Some(vid) = self.state.names.working(name.as_slice()) else {
            return Err(Cause::NoVdi);
        };
        match locks.holder(vid) {
            Some(holder) => Err(Cause::VdiLocked {
                session: holder.session,
            }),
            None => Ok(vid),
        }
    }

    /// Whether a live published disk or snapshot has the name.
    pub(crate) fn is_live(&self, name: &Bytes) -> bool
        ensures { result ≡ is_live_name (name_of (log_effects self.now) name.now) }
    {
        self.state.names.is_live(name.as_slice())
    }

    /// Which disk or snapshot is meant by a name and a tag.
    fn target(&self, name: &Bytes, tag: &Option<Bytes>, locks: &Locks) -> Result<Vid, Cause>
        requires { AreLocks (log_effects self.now) locks.now }
        ensures { result ≡ the_target (log_effects self.now) name.now tag.now }
    {
        let Some(tag) = tag else {
            return self.free_disk(name, locks);
        };
        if !self.is_live(name) {
            return Err(Cause::NoVdi);
        }
        match self.state.names.tagged(name.as_slice(), tag.as_slice()) {
            Some(vid) => Ok(vid),
            None => Err(Cause::NoTag),
        }
    }

    fn deletion(&self, name: &Bytes, target: Result<Vid, Cause>) -> Result<Outcome, NoMemory>
        ensures ok { IfOk result (λ o. o ≡ deletion name.now target) }
        ensures memory { OnErr result (has_names (deletion name.now target).effect ≡ true) }
    {
        match target {
            Err(cause) => Ok(Outcome::refused(cause)),
            Ok(vid) => {
                let name = name.copy(self.alloc)?;
                Ok(Outcome::granted(vid, Effect::Deleted { vid, name }))
            }
        }
    }

    /// Frees the lock or the reservation, whichever the session has.
    fn release(&self, by: NodeId, session: u32, vid: Vid, locks: &Locks) -> Outcome
        requires { AreLocks (log_effects self.now) locks.now }
        ensures { result ≡ the_release (log_effects self.now) by session vid }
    {
        if is_held_by(by, session, locks.holder(vid)) {
            Outcome::silent(Effect::Freed { vid })
        } else if is_reserved_by(by, session, reservation_on(&self.state.reservations, vid)) {
            Outcome::silent(Effect::Withdrawn { vid })
        } else {
            Outcome::nothing()
        }
    }

    /// What is decided on the next entry, and what it changes.
    pub(crate) fn outcome(&self, entry: &Entry, locks: &Locks) -> Result<Outcome, NoMemory>
        requires { AreLocks (log_effects self.now) locks.now }
        ensures ok { IfOk result (λ o. o ≡ the_outcome (log_effects self.now) entry.now) }
        ensures memory { OnErr result (has_names (the_outcome (log_effects self.now) entry.now).effect ≡ true) }
    {
        match entry {
            Entry::Format { .. }
            | Entry::Join { .. }
            | Entry::Reweight { .. }
            | Entry::Recovered { .. } => Ok(Outcome::nothing()),
            Entry::Leave { node } => Ok(Outcome::silent(Effect::Left { node: *node })),
            Entry::Reserve {
                by,
                session,
                name,
                origin,
            } => self.reserve(*by, *session, name, origin, locks),
            Entry::Publish { by, vid } => self.publication(*by, *vid, false),
            Entry::Clone { by, vid } => self.publication(*by, *vid, true),
            Entry::Snapshot { by, old, vid } => self.replacement(*by, *old, *vid, locks),
            Entry::Delete { name, tag, .. } => self.deletion(name, self.target(name, tag, locks)),
            Entry::Lock {
                by,
                session,
                name,
                tag,
            } => Ok(lock(
                Holder {
                    node: *by,
                    session: *session,
                },
                tag.is_some(),
                self.target(name, tag, locks),
            )),
            Entry::Unlock { by, session, vid } => Ok(self.release(*by, *session, *vid, locks)),
        }
    }
}

/// A snapshot is opened by everybody, and held by nobody.
fn lock(holder: Holder, is_snapshot: bool, target: Result<Vid, Cause>) -> Outcome
    ensures { result ≡ the_lock holder is_snapshot target }
{
    match target {
        Err(cause) => Outcome::refused(cause),
        Ok(vid) if is_snapshot => Outcome::granted(vid, Effect::Nothing),
        Ok(vid) => Outcome::granted(vid, Effect::Held { vid, holder }),
    }
}
