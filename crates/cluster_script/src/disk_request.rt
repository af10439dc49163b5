ghost use Rattle.std.specs.Prelude.{◌≡◌, ◌≤◌, ◌*◌, ◌^◌, codes, None, IfOk};
ghost use Rattle.std.specs.Option.{option_map};
ghost use Rattle.cluster_script.specs.ReadResults.{GivesLine, GivesInMemory};
ghost use Rattle.cluster_script.specs.Words.{words_of, option_at};
ghost use Rattle.cluster_script.specs.Requests.{shift_option_at, tag_at, create_request_at, disk_words_at, open_request_at};
ghost use Rattle.cluster_script.specs.Requests.{snapshot_request_at, clone_request_at, delete_request_at};

use crate::draft::Draft;
use crate::fault::{LineCause, ReadError};
use crate::number::{blocks, number};
use crate::policy::policy_option;
use crate::statement::Statement;
use crate::words::{end, is_next, keyword, name};
use object_id::{BLOCK_BYTES, Bytes, NoMemory, OBJECTS_MAX, SHIFT_DEFAULT, SHIFT_MAX, SHIFT_MIN};
use std::alloc::Global;

/// `[-c POLICY] [-z SHIFT] NAME SIZE`.
#[tactic(auto, unfolding(crate::specs::Requests::create_request_at))]
pub fn create(
    alloc: Global,
    before: &Draft,
    session: u32,
    line: &[u8],
) -> Result<Statement, ReadError>
    ensures { GivesInMemory (λ s. s) result (create_request_at before.now session (words_of line.now)) }
{
    let (policy, rest) = policy_option(line)?;
    let (shift, rest) = shift_option(rest)?;
    let (name, rest) = name(rest)?;
    let (size, rest) = blocks(u64::from(BLOCK_BYTES), size_most(shift), rest)?;
    end(rest)?;
    if !before.has_room(0, 0) {
        return Err(ReadError::Cause(LineCause::TooMany));
    }
    Ok(Statement::Create {
        session,
        policy,
        shift,
        name: Bytes::from_slice(alloc, name)?,
        size,
    })
}

/// The greatest size of a disk whose data objects have 2^shift bytes.
fn size_most(shift: u8) -> u64
    requires { shift ≤ SHIFT_MAX }
    ensures { result ≡ OBJECTS_MAX * 2 ^ shift }
{
    u64::from(OBJECTS_MAX) << shift
}

/// `-z SHIFT` where it stands, else the default; and what follows.
fn shift_option(line: &[u8]) -> Result<(u8, &[u8]), LineCause>
    ensures shift { GivesLine (λ x. (x.0, words_of x.1.now)) result
        (option_at (codes "-z") shift_option_at SHIFT_DEFAULT (words_of line.now)) }
    ensures most { IfOk result (λ x. x.0 ≤ SHIFT_MAX) }
{
    if !is_next(b"-z", line) {
        return Ok((SHIFT_DEFAULT, line));
    }
    let rest = keyword(b"-z", line)?;
    let (shift, rest) = number(u64::from(SHIFT_MIN), u64::from(SHIFT_MAX), rest)?;
    Ok((shift as u8, rest))
}

/// `[-s TAG] NAME`: a disk, or with a tag a snapshot of it, and what follows.
#[tactic(auto, unfolding(crate::specs::Requests::disk_words_at))]
fn disk(line: &[u8]) -> Result<(&[u8], Option<&[u8]>, &[u8]), LineCause>
    ensures { GivesLine (λ x. (x.0.now, option_map (λ tag. tag.now) x.1, words_of x.2.now)) result
        (disk_words_at (words_of line.now)) }
{
    let (tag, rest) = tag_option(line)?;
    let (name, rest) = name(rest)?;
    Ok((name, tag, rest))
}

/// `-s TAG` where it stands, and what follows.
fn tag_option(line: &[u8]) -> Result<(Option<&[u8]>, &[u8]), LineCause>
    ensures { GivesLine (λ x. (option_map (λ tag. tag.now) x.0, words_of x.1.now)) result
        (option_at (codes "-s") tag_at None (words_of line.now)) }
{
    if !is_next(b"-s", line) {
        return Ok((None, line));
    }
    let rest = keyword(b"-s", line)?;
    tag(rest)
}

/// A tag, and what follows it.
#[tactic(auto, unfolding(crate::specs::Requests::tag_at))]
fn tag(line: &[u8]) -> Result<(Option<&[u8]>, &[u8]), LineCause>
    ensures { GivesLine (λ x. (option_map (λ tag. tag.now) x.0, words_of x.1.now)) result (tag_at (words_of line.now)) }
{
    let (tag, rest) = name(line)?;
    Ok((Some(tag), rest))
}

/// A copy of a tag, if there is one.
fn copy_tag(alloc: Global, tag: Option<&[u8]>) -> Result<Option<Bytes>, NoMemory>
    ensures { IfOk result (λ copy. copy ≡ option_map (λ bytes. bytes.now) tag.entry) }
{
    match tag {
        Some(tag) => Ok(Some(Bytes::from_slice(alloc, tag)?)),
        None => Ok(None),
    }
}

/// `[-s TAG] NAME`.
#[tactic(auto, unfolding(crate::specs::Requests::open_request_at))]
pub fn open_disk(
    alloc: Global,
    before: &Draft,
    session: u32,
    line: &[u8],
) -> Result<Statement, ReadError>
    ensures { GivesInMemory (λ s. s) result (open_request_at before.now session (words_of line.now)) }
{
    let (name, tag, rest) = disk(line)?;
    end(rest)?;
    if !before.has_room(0, 0) {
        return Err(ReadError::Cause(LineCause::TooMany));
    }
    Ok(Statement::OpenDisk {
        session,
        name: Bytes::from_slice(alloc, name)?,
        tag: copy_tag(alloc, tag)?,
    })
}

/// `-s TAG`.
#[tactic(auto, unfolding(crate::specs::Requests::snapshot_request_at))]
pub fn snapshot(
    alloc: Global,
    before: &Draft,
    session: u32,
    line: &[u8],
) -> Result<Statement, ReadError>
    ensures { GivesInMemory (λ s. s) result (snapshot_request_at before.now session (words_of line.now)) }
{
    let rest = keyword(b"-s", line)?;
    let (tag, rest) = name(rest)?;
    end(rest)?;
    if !before.has_room(0, 0) {
        return Err(ReadError::Cause(LineCause::TooMany));
    }
    Ok(Statement::Snapshot {
        session,
        tag: Bytes::from_slice(alloc, tag)?,
    })
}

/// `-s TAG BASE NAME`.
#[tactic(auto, unfolding(crate::specs::Requests::clone_request_at))]
pub fn clone_disk(
    alloc: Global,
    before: &Draft,
    session: u32,
    line: &[u8],
) -> Result<Statement, ReadError>
    ensures { GivesInMemory (λ s. s) result (clone_request_at before.now session (words_of line.now)) }
{
    let rest = keyword(b"-s", line)?;
    let (tag, rest) = name(rest)?;
    let (base, rest) = name(rest)?;
    let (new_name, rest) = name(rest)?;
    end(rest)?;
    if !before.has_room(0, 0) {
        return Err(ReadError::Cause(LineCause::TooMany));
    }
    Ok(Statement::Clone {
        session,
        base: Bytes::from_slice(alloc, base)?,
        tag: Bytes::from_slice(alloc, tag)?,
        name: Bytes::from_slice(alloc, new_name)?,
    })
}

/// `[-s TAG] NAME`.
#[tactic(auto, unfolding(crate::specs::Requests::delete_request_at))]
pub fn delete(
    alloc: Global,
    before: &Draft,
    session: u32,
    line: &[u8],
) -> Result<Statement, ReadError>
    ensures { GivesInMemory (λ s. s) result (delete_request_at before.now session (words_of line.now)) }
{
    let (name, tag, rest) = disk(line)?;
    end(rest)?;
    if !before.has_room(0, 0) {
        return Err(ReadError::Cause(LineCause::TooMany));
    }
    Ok(Statement::Delete {
        session,
        name: Bytes::from_slice(alloc, name)?,
        tag: copy_tag(alloc, tag)?,
    })
}
