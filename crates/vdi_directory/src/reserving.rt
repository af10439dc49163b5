//! What is decided on a `Reserve`: whether an id is reserved for the name, with the header that it gets. A refusal takes no memory.
ghost use Rattle.std.specs.Prelude.{◌≡◌, true, IfOk, OnErr};
ghost use Rattle.vdi_directory.specs.Vids.{free_id as first_free, as_vid};
ghost use Rattle.vdi_directory.specs.Effects.{is_used, name_of};
ghost use Rattle.vdi_directory.specs.Decisions.{has_names, is_held_by, log_effects};
ghost use Rattle.vdi_directory.specs.Decisions.{is_taken as has_taken, reservation_outcome as the_reserved};
ghost use Rattle.vdi_directory.specs.Decisions.{held_disk as the_held, reserved_snapshot as the_snapshot, reserved_clone as the_clone};
ghost use Rattle.vdi_directory.specs.Decisions.{reserve_outcome as the_reserve_outcome};
ghost use Rattle.vdi_directory.specs.DirectoryState.{AreLocks};

use crate::decision::Outcome;
use crate::directory::Directory;
use crate::effect::{Effect, Grant, Reservation, Source};
use crate::header::Header;
use crate::reservations::is_reserved;
use crate::vid_range::{FullVdi, free_vid};
use disk_lock::{Holder, Locks};
use object_id::{Bytes, Cause, NoMemory, NodeId, Origin, VdiSpec, Vid};

/// Whether this session of the node is the holder.
pub(crate) fn is_held_by(node: NodeId, session: u32, holder: Option<Holder>) -> bool
    ensures { result ≡ is_held_by node session holder }
{
    match holder {
        Some(holder) => holder.node == node && holder.session == session,
        None => false,
    }
}

impl Directory {
    fn is_taken(&self, name: &Bytes) -> bool
        ensures { result ≡ has_taken (log_effects self.now) name.now }
    {
        self.state.names.working(name.as_slice()).is_some()
            || is_reserved(&self.state.reservations, name.as_slice())
    }

    fn free_id(&self, name: &Bytes) -> Result<Vid, FullVdi>
        ensures { result ≡ as_vid (first_free name.now (is_used (log_effects self.now))) }
    {
        free_vid(name.as_slice(), &self.state.used)
    }

    /// Reserves a free id.
    fn reserve_id(
        &self,
        by: NodeId,
        session: u32,
        name: &Bytes,
        source: Source,
        parent: Option<Vid>,
        spec: VdiSpec,
    ) -> Result<Outcome, NoMemory>
        ensures ok { IfOk result (λ o. o ≡ the_reserved (log_effects self.now) by session name.now source parent spec) }
        ensures memory { OnErr result (has_names (the_reserved (log_effects self.now) by session name.now source parent spec).effect
            ≡ true) }
    {
        let Ok(vid) = self.free_id(name) else {
            return Ok(Outcome::refused(Cause::FullVdi));
        };
        let reservation = Reservation {
            vid,
            by,
            session,
            name: name.copy(self.alloc)?,
            source,
        };
        let header = Header {
            name: name.copy(self.alloc)?,
            tag: Bytes::new(self.alloc),
            snap_id: self.state.names.taken(name.as_slice()).saturating_add(1),
            parent,
            spec,
        };
        Ok(Outcome::granted(
            vid,
            Effect::Reserved(Grant {
                reservation,
                header,
            }),
        ))
    }

    /// The working disk of a name, where the session holds it.
    fn held_disk(&self, by: NodeId, session: u32, name: &Bytes, locks: &Locks) -> Option<Vid>
        requires { AreLocks (log_effects self.now) locks.now }
        ensures { result ≡ the_held (log_effects self.now) by session (name_of (log_effects self.now) name.now).working }
    {
        match self.state.names.working(name.as_slice()) {
            Some(vid) if is_held_by(by, session, locks.holder(vid)) => Some(vid),
            _ => None,
        }
    }

    fn reserved_snapshot(
        &self,
        by: NodeId,
        session: u32,
        name: &Bytes,
        tag: &Bytes,
        held: Option<Vid>,
    ) -> Result<Outcome, NoMemory>
        ensures ok { IfOk result (λ o. o ≡ the_snapshot (log_effects self.now) by session name.now tag.now held) }
        ensures memory { OnErr result (has_names (the_snapshot (log_effects self.now) by session name.now tag.now held).effect ≡ true) }
    {
        let Some(old) = held else {
            return Ok(Outcome::refused(Cause::VdiNotLocked));
        };
        if self
            .state
            .names
            .tagged(name.as_slice(), tag.as_slice())
            .is_some()
        {
            return Ok(Outcome::refused(Cause::VdiExist));
        }
        let Some(spec) = self.spec(old) else {
            return Ok(Outcome::nothing());
        };
        // A refusal takes no memory: so the tag is copied once there is an id.
        let Ok(_free) = self.free_id(name) else {
            return Ok(Outcome::refused(Cause::FullVdi));
        };
        let source = Source::Snapshot {
            old,
            tag: tag.copy(self.alloc)?,
        };
        self.reserve_id(by, session, name, source, Some(old), spec)
    }

    fn reserved_clone(
        &self,
        by: NodeId,
        session: u32,
        name: &Bytes,
        base: Option<Vid>,
    ) -> Result<Outcome, NoMemory>
        ensures ok { IfOk result (λ o. o ≡ the_clone (log_effects self.now) by session name.now base) }
        ensures memory { OnErr result (has_names (the_clone (log_effects self.now) by session name.now base).effect ≡ true) }
    {
        let Some(base) = base else {
            return Ok(Outcome::refused(Cause::NoTag));
        };
        if self.is_taken(name) {
            return Ok(Outcome::refused(Cause::VdiExist));
        }
        let Some(spec) = self.spec(base) else {
            return Ok(Outcome::nothing());
        };
        self.reserve_id(by, session, name, Source::Clone, Some(base), spec)
    }

    /// What a `Reserve` comes to, by what the disk is to be made from.
    pub(crate) fn reserve(
        &self,
        by: NodeId,
        session: u32,
        name: &Bytes,
        origin: &Origin,
        locks: &Locks,
    ) -> Result<Outcome, NoMemory>
        requires { AreLocks (log_effects self.now) locks.now }
        ensures ok { IfOk result (λ o. o ≡ the_reserve_outcome (log_effects self.now) by session name.now origin.now) }
        ensures memory { OnErr result (has_names (the_reserve_outcome (log_effects self.now) by session name.now origin.now).effect
            ≡ true) }
    {
        match origin {
            Origin::Fresh { spec } => {
                if self.is_taken(name) {
                    return Ok(Outcome::refused(Cause::VdiExist));
                }
                self.reserve_id(by, session, name, Source::Fresh, None, *spec)
            }
            Origin::SnapshotOf { tag } => {
                let held = self.held_disk(by, session, name, locks);
                self.reserved_snapshot(by, session, name, tag, held)
            }
            Origin::CloneOf { base, tag } => {
                if !self.is_live(base) {
                    return Ok(Outcome::refused(Cause::NoBaseVdi));
                }
                let from = self.state.names.tagged(base.as_slice(), tag.as_slice());
                self.reserved_clone(by, session, name, from)
            }
        }
    }
}
