//! Which replies a recovery waits for.

ghost use Rattle.std.specs.Prelude.{◌≡◌, ◌<◌, ◌-◌, ◌&&◌, length, true, false, Some};
ghost use Rattle.object_store.specs.Rows.{reaches};
ghost use Rattle.recovery.specs.Shown.{is_asked_row};
ghost use Rattle.recovery.specs.Fits.{is_list, is_recover_read, fits_recovery};
ghost use Rattle.recovery.specs.Kept.{recovery_state, ask_of, fits_asked_row, fits_asked};

use crate::in_flight::Asked;
use crate::recovery::Recovery;
use crate::rows::Rows;
use object_id::Epoch;
use object_list::Lists;
use object_store::RowCopy;
use peer_proto::{PeerRsp, PeerSay};

/// Whether a row of this ending reaches to the level.
fn reaches(level: Epoch, to: Option<Epoch>) -> bool
    ensures { result ≡ reaches level.0 to }
{
    match to {
        Some(to) => level <= to,
        None => true,
    }
}

/// Whether a row is as an object's rows of this length are at a level.
pub(crate) fn is_asked_row(level: Epoch, wanted: u8, size: Option<u32>, row: &RowCopy) -> bool
    ensures { result ≡ is_asked_row level.0 wanted size row.now }
{
    match size {
        Some(size) => {
            row.from <= level && reaches(level, row.to) && row.index < wanted && row.length == size
        }
        None => false,
    }
}

/// Whether a row is one that was asked for.
fn fits_asked_row<R: Rows>(asked: Asked, row: &RowCopy, rows: &R) -> bool
    ensures { result ≡ fits_asked_row (R.shown rows.now) asked row.now }
{
    match asked {
        Asked::Lists => false,
        Asked::Rows { oid, level, wanted } => is_asked_row(level, wanted, rows.length(oid), row),
    }
}

fn is_of_list(asked: Asked) -> bool
    ensures { result ≡ is_list (ask_of asked) }
{
    match asked {
        Asked::Lists => true,
        Asked::Rows { .. } => false,
    }
}

fn is_of_row(asked: Asked) -> bool
    ensures { result ≡ is_recover_read (ask_of asked) }
{
    match asked {
        Asked::Lists => false,
        Asked::Rows { .. } => true,
    }
}

/// Whether a node may say this to what it was asked.
pub(crate) fn fits_asked<R: Rows>(asked: Asked, say: &PeerSay, rows: &R) -> bool
    ensures { result ≡ fits_asked (R.shown rows.now) asked say.now }
{
    match say {
        PeerSay::Success => false,
        PeerSay::Piece(_) => false,
        PeerSay::Objects(_) => is_of_list(asked),
        PeerSay::Row(row) => fits_asked_row(asked, row, rows),
        PeerSay::NoRow => is_of_row(asked),
        PeerSay::Refused(_) => true,
    }
}

impl Recovery {
    /// Whether a reply answers an unanswered message that was sent from here, and fits what that asked. Takes no memory. Costs the
    /// logarithm of the messages, and a look-up of the length of the object's rows.
    #[tactic(auto, using(crate::proofs::FlightLemmas::fits_all))]
    pub fn fits<R: Rows>(&self, rsp: &PeerRsp, rows: &R) -> bool
        ensures { result ≡ fits_recovery rsp.now (recovery_state self.now (R.shown rows.now)) }
    {
        if self.waits_for(rsp.number) {
            fits_asked(self.flight.asked(), &rsp.say, rows)
        } else {
            false
        }
    }
}
