ghost use Rattle.std.specs.Prelude.{◌≡◌, IfOk, IfErr, IfSome, OnOk};
ghost use Rattle.std.specs.Str.{is_utf8};
ghost use Rattle.cluster_script.specs.Language.{MayStand};
ghost use Rattle.cluster_script.specs.ReadResults.{FailsLine, GivesInMemory};
ghost use Rattle.cluster_script.specs.Words.{words_of};
ghost use Rattle.cluster_script.specs.Script.{statement_behind_cluster, statement_at, line_at, IsLineTaken};

use crate::draft::Draft;
use crate::fault::{LineCause, ReadError};
use crate::happening::happening;
use crate::number::is_decimal;
use crate::request::session_request;
use crate::setting::{cluster, limit, tries, vnodes, zone};
use crate::statement::Statement;
use crate::words::{is_next, is_silent, is_word, word};
use std::alloc::Global;
use std::str::from_utf8;

/// Reads a line after the statements before it, and adds its statement, if it has one.
pub fn take_line(alloc: Global, draft: &mut Draft, line: &[u8]) -> Result<(), ReadError>
    ensures ok { OnOk result (IsLineTaken draft.old draft.new (line_at statement_at draft.old line.now)) }
    ensures err { IfErr result (λ error. FailsLine error (line_at statement_at draft.old line.now)) }
{
    if let Some(s) = statement_in(alloc, draft, line)? {
        draft.push(s)?;
    }
    Ok(())
}

/// The statement of a line after those before it; `None` where the line says nothing.
#[tactic(auto, unfolding(crate::specs::Script::line_at, crate::specs::Script::statement_of_words))]
fn statement_in(alloc: Global, before: &Draft, line: &[u8]) -> Result<Option<Statement>, ReadError>
    ensures line { GivesInMemory (λ s. s) result (line_at statement_at before.now line.now) }
    ensures follows { IfOk result (λ s. IfSome s (MayStand before.now)) }
{
    if !is_text(line) {
        return Err(ReadError::Cause(LineCause::NotUtf8));
    }
    if is_silent(line) {
        return Ok(None);
    }
    let (first, rest) = word(line)?;
    let s = statement(alloc, before, first, rest)?;
    Ok(Some(s))
}

fn is_text(line: &[u8]) -> bool
    ensures { result ≡ is_utf8 line.now }
{
    from_utf8(line).is_ok()
}

/// The statement that the first word begins. `cluster info` is no setting.
#[tactic(auto, unfolding(crate::specs::Script::statement_at))]
fn statement(
    alloc: Global,
    before: &Draft,
    first: &[u8],
    line: &[u8],
) -> Result<Statement, ReadError>
    ensures { GivesInMemory (λ s. s) result (statement_at before.now first.now (words_of line.now)) }
{
    if is_word(first, b"cluster") && !is_next(b"info", line) {
        return Ok(cluster(before, line)?);
    }
    if is_word(first, b"vnodes") {
        return Ok(vnodes(before, line)?);
    }
    if is_word(first, b"tries") {
        return Ok(tries(before, line)?);
    }
    if is_word(first, b"limit") {
        return Ok(limit(before, line)?);
    }
    if is_word(first, b"zone") {
        return Ok(zone(before, line)?);
    }
    behind_cluster(alloc, before, first, line)
}

/// Behind `cluster` a statement that is no setting may stand. Digits alone begin a request.
#[tactic(auto, unfolding(crate::specs::Script::statement_behind_cluster))]
fn behind_cluster(
    alloc: Global,
    before: &Draft,
    first: &[u8],
    line: &[u8],
) -> Result<Statement, ReadError>
    ensures { GivesInMemory (λ s. s) result (statement_behind_cluster before.now first.now (words_of line.now)) }
{
    if !before.has_cluster() {
        return Err(ReadError::Cause(LineCause::Word));
    }
    if is_decimal(first) {
        return session_request(alloc, before, first, line);
    }
    Ok(happening(before, first, line)?)
}
