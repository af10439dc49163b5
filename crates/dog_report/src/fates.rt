//! The line of a request: its number, and what became of it.

ghost use Rattle.std.specs.Prelude.{◌≡◌, [], ◌∷◌, ◌++◌, codes, decimal, length, map, OnOk};
ghost use Rattle.dog_report.specs.Words.{hex, spaced_words, following_words};
ghost use Rattle.dog_report.specs.Fates.{Answered, Gone, Pending, Unsent, Told, line_words, checked_words, reply_words};

use crate::causes::push_cause;
use crate::runs::push_runs;
use crate::words::{OID_DIGITS, end_line, push_decimal, push_hex_word, push_named, push_word};
use object_id::{NoMemory, Oid};
use peer_proto::{Checked, GuestRsp};

/// Adds the ids of objects behind another word.
fn push_oids(text: &mut Vec<u8>, oids: &[Oid]) -> Result<(), NoMemory>
    ensures { OnOk result (text.new.items ≡ text.old.items ++ following_words (map (hex 16) oids.now)) }
{
    for oid in oids {
        push_hex_word(text, OID_DIGITS, oid.as_u64())?;
    }
    Ok(())
}

/// Adds how many objects of a check are the disk's own, and how many another disk's.
fn push_counts(text: &mut Vec<u8>, objects: u32, inherited: u32) -> Result<(), NoMemory>
    ensures { OnOk result (text.new.items ≡ text.old.items
        ++ following_words (codes "objects" ∷ decimal objects ∷ codes "inherited" ∷ decimal inherited ∷ [])) }
{
    push_named(text, b"objects", u64::from(objects))?;
    push_named(text, b"inherited", u64::from(inherited))?;
    Ok(())
}

/// Adds how many own objects have copies that differed, and their ids.
fn push_differed(text: &mut Vec<u8>, oids: &[Oid]) -> Result<(), NoMemory>
    ensures { OnOk result (text.new.items ≡ text.old.items
        ++ following_words (codes "differed" ∷ decimal (length oids.now) ∷ map (hex 16) oids.now)) }
{
    push_named(text, b"differed", oids.len() as u64)?;
    push_oids(text, oids)
}

/// Adds what a check found.
fn push_checked(text: &mut Vec<u8>, found: &Checked) -> Result<(), NoMemory>
    ensures { OnOk result (text.new.items ≡ text.old.items ++ following_words (checked_words found.now)) }
{
    push_counts(text, found.objects, found.inherited)?;
    push_differed(text, found.differed.as_slice())?;
    Ok(())
}

/// Adds the words of a reply.
fn push_reply(text: &mut Vec<u8>, rsp: &GuestRsp) -> Result<(), NoMemory>
    ensures { OnOk result (text.new.items ≡ text.old.items ++ following_words (reply_words rsp.now)) }
{
    match rsp {
        GuestRsp::Done => push_word(text, b"ok"),
        GuestRsp::Piece(bytes) => {
            push_word(text, b"ok")?;
            push_runs(text, bytes.as_slice())
        }
        GuestRsp::Refused(cause) => {
            push_word(text, b"refused")?;
            push_cause(text, cause)
        }
        GuestRsp::Granted { .. } => push_word(text, b"ok"),
        GuestRsp::Checked(found) => {
            push_word(text, b"ok")?;
            push_checked(text, found)
        }
    }
}

/// Adds the line of a request that has its reply. Costs what the reply has, and takes no memory but the text's.
pub fn push_answered(text: &mut Vec<u8>, number: u32, rsp: &GuestRsp) -> Result<(), NoMemory>
    ensures { OnOk result (text.new.items ≡ text.old.items ++ spaced_words (line_words (Told number (Answered rsp.now))) ++ codes "\n") }
{
    push_decimal(text, u64::from(number))?;
    push_reply(text, rsp)?;
    end_line(text)?;
    Ok(())
}

/// Adds the line of a request of which there is one word to tell.
fn push_told(text: &mut Vec<u8>, number: u32, word: &[u8]) -> Result<(), NoMemory>
    ensures { OnOk result (text.new.items ≡ text.old.items ++ spaced_words (decimal number ∷ word.now ∷ []) ++ codes "\n") }
{
    push_decimal(text, u64::from(number))?;
    push_word(text, word)?;
    end_line(text)
}

/// Adds the line of a request without reply, whose gateway's incarnation is lost.
pub fn push_gone(text: &mut Vec<u8>, number: u32) -> Result<(), NoMemory>
    ensures { OnOk result (text.new.items ≡ text.old.items ++ spaced_words (line_words (Told number Gone)) ++ codes "\n") }
{
    push_told(text, number, b"gone")
}

/// Adds the line of a request that was started, and has no reply.
pub fn push_pending(text: &mut Vec<u8>, number: u32) -> Result<(), NoMemory>
    ensures { OnOk result (text.new.items ≡ text.old.items ++ spaced_words (line_words (Told number Pending)) ++ codes "\n") }
{
    push_told(text, number, b"pending")
}

/// Adds the line of a request that was never started.
pub fn push_unsent(text: &mut Vec<u8>, number: u32) -> Result<(), NoMemory>
    ensures { OnOk result (text.new.items ≡ text.old.items ++ spaced_words (line_words (Told number Unsent)) ++ codes "\n") }
{
    push_told(text, number, b"unsent")
}
