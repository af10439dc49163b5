ghost use Rattle.std.specs.Prelude.{◌<◌, IfOk};
ghost use Rattle.cluster_script.specs.ReadResults.{GivesLine};
ghost use Rattle.cluster_script.specs.Words.{words_of};
ghost use Rattle.cluster_script.specs.ClusterLines.{there_at, session_line_at, fail_at, join_at, reweight_at, back_at, lose_at};
ghost use Rattle.cluster_script.specs.ClusterLines.{alone_at, followed_at, barrier_at, happening_at};

use crate::draft::Draft;
use crate::fault::LineCause;
use crate::number::{number, number_in};
use crate::statement::Statement;
use crate::words::{end, is_word, keyword, word};
use object_id::{NODES_MAX, SESSIONS_MAX, VNODES_MAX};

/// A session, a control, losses or a barrier, by its first word.
#[tactic(auto, unfolding(crate::specs::ClusterLines::happening_at))]
pub fn happening(before: &Draft, first: &[u8], line: &[u8]) -> Result<Statement, LineCause>
    ensures { GivesLine (λ s. s) result (happening_at before.now first.now (words_of line.now)) }
{
    if is_word(first, b"session") {
        return session(before, line);
    }
    if is_word(first, b"fail") {
        return fail(before, line);
    }
    if is_word(first, b"join") {
        return join(before, line);
    }
    if is_word(first, b"reweight") {
        return reweight(before, line);
    }
    if is_word(first, b"back") {
        return back(before, line);
    }
    if is_word(first, b"lose") {
        return lose(before, line);
    }
    barrier(first, line)
}

/// A node that is there, and what follows its number.
#[tactic(auto, unfolding(crate::specs::ClusterLines::there_at))]
fn there<'a>(before: &Draft, line: &'a [u8]) -> Result<(u64, &'a [u8]), LineCause>
    ensures node { GivesLine (λ x. (x.0, words_of x.1.now)) result (there_at before.now (words_of line.now)) }
    ensures limit { IfOk result (λ x. x.0 < NODES_MAX) }
{
    let (node, rest) = number(0, u64::from(NODES_MAX - 1), line)?;
    if !before.has_node(node) {
        return Err(LineCause::Unknown);
    }
    Ok((node, rest))
}

/// `session S node N`.
#[tactic(auto, unfolding(crate::specs::ClusterLines::session_line_at))]
fn session(before: &Draft, line: &[u8]) -> Result<Statement, LineCause>
    ensures { GivesLine (λ s. s) result (session_line_at before.now (words_of line.now)) }
{
    let (session, rest) = number(1, u64::from(SESSIONS_MAX), line)?;
    if before.declares(session) {
        return Err(LineCause::Twice);
    }
    let rest = keyword(b"node", rest)?;
    let (node, rest) = there(before, rest)?;
    end(rest)?;
    Ok(Statement::Session {
        session: session as u32,
        node: node as u32,
    })
}

/// `fail N`.
#[tactic(auto, unfolding(crate::specs::ClusterLines::fail_at))]
fn fail(before: &Draft, line: &[u8]) -> Result<Statement, LineCause>
    ensures { GivesLine (λ s. s) result (fail_at before.now (words_of line.now)) }
{
    let (node, rest) = there(before, line)?;
    end(rest)?;
    Ok(Statement::Fail { node: node as u32 })
}

/// `join N`.
#[tactic(auto, unfolding(crate::specs::ClusterLines::join_at))]
fn join(before: &Draft, line: &[u8]) -> Result<Statement, LineCause>
    ensures { GivesLine (λ s. s) result (join_at before.now (words_of line.now)) }
{
    let (node, rest) = number(0, u64::from(NODES_MAX - 1), line)?;
    if before.has_used(node) {
        return Err(LineCause::Twice);
    }
    end(rest)?;
    Ok(Statement::Join { node: node as u32 })
}

/// `reweight N V`.
#[tactic(auto, unfolding(crate::specs::ClusterLines::reweight_at))]
fn reweight(before: &Draft, line: &[u8]) -> Result<Statement, LineCause>
    ensures { GivesLine (λ s. s) result (reweight_at before.now (words_of line.now)) }
{
    let (node, rest) = there(before, line)?;
    let (vnodes, rest) = number(1, u64::from(VNODES_MAX), rest)?;
    end(rest)?;
    Ok(Statement::Reweight {
        node: node as u32,
        vnodes: vnodes as u16,
    })
}

/// `back N`.
#[tactic(auto, unfolding(crate::specs::ClusterLines::back_at))]
fn back(before: &Draft, line: &[u8]) -> Result<Statement, LineCause>
    ensures { GivesLine (λ s. s) result (back_at before.now (words_of line.now)) }
{
    let (node, rest) = number(0, u64::from(NODES_MAX - 1), line)?;
    if !before.has_failed(node) {
        return Err(LineCause::Unknown);
    }
    end(rest)?;
    Ok(Statement::Back { node: node as u32 })
}

/// `lose K`.
#[tactic(auto, unfolding(crate::specs::ClusterLines::lose_at))]
fn lose(before: &Draft, line: &[u8]) -> Result<Statement, LineCause>
    ensures { GivesLine (λ s. s) result (lose_at before.now (words_of line.now)) }
{
    let (found, rest) = word(line)?;
    let count = number_in(found)?;
    end(rest)?;
    if !before.may_lose(count) {
        return Err(LineCause::TooMany);
    }
    Ok(Statement::Lose {
        count: count as u32,
    })
}

/// The statement, where no word follows.
#[tactic(auto, unfolding(crate::specs::ClusterLines::alone_at))]
fn alone(s: Statement, line: &[u8]) -> Result<Statement, LineCause>
    ensures { GivesLine (λ s. s) result (alone_at s (words_of line.now)) }
{
    end(line)?;
    Ok(s)
}

/// The statement, where this very word follows.
#[tactic(auto, unfolding(crate::specs::ClusterLines::followed_at))]
fn followed(expected: &[u8], s: Statement, line: &[u8]) -> Result<Statement, LineCause>
    ensures { GivesLine (λ s. s) result (followed_at expected.now s (words_of line.now)) }
{
    let rest = keyword(expected, line)?;
    alone(s, rest)
}

/// A barrier, by its first word.
#[tactic(auto, unfolding(crate::specs::ClusterLines::barrier_at))]
fn barrier(first: &[u8], line: &[u8]) -> Result<Statement, LineCause>
    ensures { GivesLine (λ s. s) result (barrier_at first.now (words_of line.now)) }
{
    if is_word(first, b"settle") {
        return alone(Statement::Settle, line);
    }
    if is_word(first, b"node") {
        return followed(b"list", Statement::ListNodes, line);
    }
    if is_word(first, b"vdi") {
        return followed(b"list", Statement::ListVdis, line);
    }
    if is_word(first, b"cluster") {
        return followed(b"info", Statement::ClusterInfo, line);
    }
    if is_word(first, b"dump") {
        return alone(Statement::Dump, line);
    }
    Err(LineCause::Word)
}
