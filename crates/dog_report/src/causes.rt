//! How a refusal is told: the result's number and name, and the details of the cause.

ghost use Rattle.std.specs.Prelude.{◌≡◌, [], ◌∷◌, ◌++◌, codes, decimal, OnOk};
ghost use Rattle.dog_report.specs.Words.{following_words};
ghost use Rattle.dog_report.specs.Causes.{result_of, result_name, details_of, cause_words};

use crate::words::{BYTE_DIGITS, OID_DIGITS, push_hex_word, push_named, push_word};
use object_id::{Cause, Epoch, NoMemory, NodeId};
use sheep_proto::{
    RESULT_FULL_VDI, RESULT_HALT, RESULT_INVALID_PARMS, RESULT_LINK, RESULT_NEW_EPOCH,
    RESULT_NO_BASE_VDI, RESULT_NO_OBJ, RESULT_NO_TAG, RESULT_NO_VDI, RESULT_OLD_EPOCH,
    RESULT_READONLY, RESULT_RECOVERY, RESULT_VDI_EXIST, RESULT_VDI_LOCKED, RESULT_VDI_NOT_LOCKED,
};

/// The result by which a reply tells the cause.
fn result_of(cause: &Cause) -> u32
    ensures { result ≡ result_of cause.now }
{
    match cause {
        Cause::VdiLocked { .. } => RESULT_VDI_LOCKED,
        Cause::NoVdi => RESULT_NO_VDI,
        Cause::NoTag => RESULT_NO_TAG,
        Cause::NoBaseVdi => RESULT_NO_BASE_VDI,
        Cause::VdiExist => RESULT_VDI_EXIST,
        Cause::Readonly => RESULT_READONLY,
        Cause::VdiNotLocked => RESULT_VDI_NOT_LOCKED,
        Cause::FullVdi => RESULT_FULL_VDI,
        Cause::InvalidParms => RESULT_INVALID_PARMS,
        Cause::Halt { .. } => RESULT_HALT,
        Cause::OldEpoch { .. } => RESULT_OLD_EPOCH,
        Cause::NewEpoch { .. } => RESULT_NEW_EPOCH,
        Cause::Recovery { .. } => RESULT_RECOVERY,
        Cause::Link { .. } => RESULT_LINK,
        Cause::NoObj { .. } => RESULT_NO_OBJ,
    }
}

/// The result's name.
fn result_name(cause: &Cause) -> &'static [u8]
    ensures { result.now ≡ result_name cause.now }
{
    match cause {
        Cause::VdiLocked { .. } => b"VDI_LOCKED",
        Cause::NoVdi => b"NO_VDI",
        Cause::NoTag => b"NO_TAG",
        Cause::NoBaseVdi => b"NO_BASE_VDI",
        Cause::VdiExist => b"VDI_EXIST",
        Cause::Readonly => b"READONLY",
        Cause::VdiNotLocked => b"VDI_NOT_LOCKED",
        Cause::FullVdi => b"FULL_VDI",
        Cause::InvalidParms => b"INVALID_PARMS",
        Cause::Halt { .. } => b"HALT",
        Cause::OldEpoch { .. } => b"OLD_EPOCH",
        Cause::NewEpoch { .. } => b"NEW_EPOCH",
        Cause::Recovery { .. } => b"RECOVERY",
        Cause::Link { .. } => b"LINK",
        Cause::NoObj { .. } => b"NO_OBJ",
    }
}

/// Adds which node answered of an epoch of its own.
fn push_epochs(text: &mut Vec<u8>, node: NodeId, own: Epoch, peer: Epoch) -> Result<(), NoMemory>
    ensures { OnOk result (text.new.items ≡ text.old.items ++ following_words (codes "node" ∷ decimal node.0 ∷ codes "own" ∷ decimal own.0
        ∷ codes "peer" ∷ decimal peer.0 ∷ [])) }
{
    push_named(text, b"node", u64::from(node.0))?;
    push_named(text, b"own", u64::from(own.0))?;
    push_named(text, b"peer", u64::from(peer.0))
}

/// Adds the details: the holding session, the zones, or the node with its answer.
fn push_details(text: &mut Vec<u8>, cause: &Cause) -> Result<(), NoMemory>
    ensures { OnOk result (text.new.items ≡ text.old.items ++ following_words (details_of cause.now)) }
{
    match cause {
        Cause::VdiLocked { session } => push_named(text, b"session", u64::from(*session)),
        Cause::NoVdi
        | Cause::NoTag
        | Cause::NoBaseVdi
        | Cause::VdiExist
        | Cause::Readonly
        | Cause::VdiNotLocked
        | Cause::FullVdi
        | Cause::InvalidParms => Ok(()),
        Cause::Halt { members, wanted } => {
            push_named(text, b"members", u64::from(*members))?;
            push_named(text, b"wanted", u64::from(*wanted))
        }
        Cause::OldEpoch { node, own, peer } => push_epochs(text, *node, *own, *peer),
        Cause::NewEpoch { node, own, peer } => push_epochs(text, *node, *own, *peer),
        Cause::Recovery { node, epoch } => {
            push_named(text, b"node", u64::from(node.0))?;
            push_named(text, b"epoch", u64::from(epoch.0))
        }
        Cause::Link { node } => push_named(text, b"node", u64::from(node.0)),
        Cause::NoObj { node, oid } => {
            push_named(text, b"node", u64::from(node.0))?;
            push_word(text, b"oid")?;
            push_hex_word(text, OID_DIGITS, oid.as_u64())
        }
    }
}

/// Adds the words of a refusal, behind `refused`.
pub fn push_cause(text: &mut Vec<u8>, cause: &Cause) -> Result<(), NoMemory>
    ensures { OnOk result (text.new.items ≡ text.old.items ++ following_words (cause_words cause.now)) }
{
    push_hex_word(text, BYTE_DIGITS, u64::from(result_of(cause)))?;
    push_word(text, result_name(cause))?;
    push_details(text, cause)
}
