ghost use Rattle.std.specs.Prelude.{◌≡◌};
ghost use Rattle.cluster_script.specs.ReadResults.{GivesLine, GivesInMemory};
ghost use Rattle.cluster_script.specs.Words.{words_of};
ghost use Rattle.cluster_script.specs.Requests.{close_request_at, read_request_at, write_request_at, check_request_at};
ghost use Rattle.cluster_script.specs.Requests.{copy_verb_at, verb_at, vdi_request_at};
ghost use Rattle.cluster_script.specs.Script.{asking_session as asking_session_of, session_request_at};

use crate::disk_request::{clone_disk, create, delete, open_disk, snapshot};
use crate::draft::Draft;
use crate::fault::{LineCause, ReadError};
use crate::number::{number_in, within_limits};
use crate::piece::{pattern, span};
use crate::statement::Statement;
use crate::words::{end, is_word, keyword, word};
use object_id::SESSIONS_MAX;
use std::alloc::Global;

/// A request of the session that the first word names.
#[tactic(auto, unfolding(crate::specs::Script::session_request_at))]
pub fn session_request(
    alloc: Global,
    before: &Draft,
    first: &[u8],
    line: &[u8],
) -> Result<Statement, ReadError>
    ensures { GivesInMemory (λ s. s) result (session_request_at before.now first.now (words_of line.now)) }
{
    let session = asking_session(before, first)?;
    request(alloc, before, session, line)
}

/// The number of a declared session.
#[tactic(auto, unfolding(crate::specs::Script::asking_session))]
fn asking_session(before: &Draft, word: &[u8]) -> Result<u32, LineCause>
    ensures { result ≡ asking_session_of before.now word.now }
{
    let number = number_in(word)?;
    let session = within_limits(1, u64::from(SESSIONS_MAX), number)?;
    if !before.declares(session) {
        return Err(LineCause::Unknown);
    }
    Ok(session as u32)
}

/// A request of the session, from its word `vdi` on.
#[tactic(auto, unfolding(crate::specs::Requests::vdi_request_at))]
fn request(alloc: Global, before: &Draft, session: u32, line: &[u8]) -> Result<Statement, ReadError>
    ensures { GivesInMemory (λ s. s) result (vdi_request_at before.now session (words_of line.now)) }
{
    let rest = keyword(b"vdi", line)?;
    let (verb, rest) = word(rest)?;
    asked(alloc, before, session, verb, rest)
}

/// What the verb asks for.
#[tactic(auto, unfolding(crate::specs::Requests::verb_at))]
fn asked(
    alloc: Global,
    before: &Draft,
    session: u32,
    verb: &[u8],
    line: &[u8],
) -> Result<Statement, ReadError>
    ensures { GivesInMemory (λ s. s) result (verb_at before.now session verb.now (words_of line.now)) }
{
    if is_word(verb, b"create") {
        return create(alloc, before, session, line);
    }
    if is_word(verb, b"open") {
        return open_disk(alloc, before, session, line);
    }
    if is_word(verb, b"close") {
        return Ok(close(before, session, line)?);
    }
    if is_word(verb, b"read") {
        return Ok(read(before, session, line)?);
    }
    if is_word(verb, b"write") {
        return Ok(write(before, session, line)?);
    }
    asked_of_copies(alloc, before, session, verb, line)
}

/// What a verb asks for of snapshots, clones, disks that go, and the copies of a disk's objects.
#[tactic(auto, unfolding(crate::specs::Requests::copy_verb_at))]
fn asked_of_copies(
    alloc: Global,
    before: &Draft,
    session: u32,
    verb: &[u8],
    line: &[u8],
) -> Result<Statement, ReadError>
    ensures { GivesInMemory (λ s. s) result (copy_verb_at before.now session verb.now (words_of line.now)) }
{
    if is_word(verb, b"snapshot") {
        return snapshot(alloc, before, session, line);
    }
    if is_word(verb, b"clone") {
        return clone_disk(alloc, before, session, line);
    }
    if is_word(verb, b"delete") {
        return delete(alloc, before, session, line);
    }
    if is_word(verb, b"check") {
        return Ok(check(before, session, line)?);
    }
    Err(ReadError::Cause(LineCause::Word))
}

/// Nothing follows the verb.
#[tactic(auto, unfolding(crate::specs::Requests::close_request_at))]
fn close(before: &Draft, session: u32, line: &[u8]) -> Result<Statement, LineCause>
    ensures { GivesLine (λ s. s) result (close_request_at before.now session (words_of line.now)) }
{
    end(line)?;
    if !before.has_room(0, 0) {
        return Err(LineCause::TooMany);
    }
    Ok(Statement::Close { session })
}

/// `OFFSET LENGTH`.
#[tactic(auto, unfolding(crate::specs::Requests::read_request_at))]
fn read(before: &Draft, session: u32, line: &[u8]) -> Result<Statement, LineCause>
    ensures { GivesLine (λ s. s) result (read_request_at before.now session (words_of line.now)) }
{
    let (offset, length, rest) = span(line)?;
    end(rest)?;
    if !before.has_room(length as u64, 0) {
        return Err(LineCause::TooMany);
    }
    Ok(Statement::Read {
        session,
        offset,
        length,
    })
}

/// `OFFSET LENGTH` and a pattern.
#[tactic(auto, unfolding(crate::specs::Requests::write_request_at))]
fn write(before: &Draft, session: u32, line: &[u8]) -> Result<Statement, LineCause>
    ensures { GivesLine (λ s. s) result (write_request_at before.now session (words_of line.now)) }
{
    let (offset, length, rest) = span(line)?;
    let (pattern, rest) = pattern(rest)?;
    end(rest)?;
    if !before.has_room(0, length as u64) {
        return Err(LineCause::TooMany);
    }
    Ok(Statement::Write {
        session,
        offset,
        length,
        pattern,
    })
}

/// Nothing follows the verb.
#[tactic(auto, unfolding(crate::specs::Requests::check_request_at))]
fn check(before: &Draft, session: u32, line: &[u8]) -> Result<Statement, LineCause>
    ensures { GivesLine (λ s. s) result (check_request_at before.now session (words_of line.now)) }
{
    end(line)?;
    if !before.may_check() || !before.has_room(0, 0) {
        return Err(LineCause::TooMany);
    }
    Ok(Statement::Check { session })
}
