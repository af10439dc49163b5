ghost use Rattle.std.specs.Prelude.{◌≡◌, unwrap_or};
ghost use Rattle.cluster_script.specs.Statements.{is_request};
ghost use Rattle.cluster_script.specs.Settings.{nodes_set, vnodes_set, tries_set, limit_set, nodes_of, vnodes_of, tries_of, limit_of};
ghost use Rattle.cluster_script.specs.NumberedRequests.{session_of};

use crate::statement::Statement;
use object_id::{LIMIT_DEFAULT, NODES_DEFAULT, TRIES_DEFAULT, VNODES_DEFAULT};

/// A request of a script: its statement, the session that asks, and the place of its phase, from 0.
#[derive(Clone, Copy, Debug)]
pub struct RequestOfScript<'a> {
    pub statement: &'a Statement,
    pub session: u32,
    pub phase: u32,
}

/// A session of a script: its number, the node that is its gateway, and which incarnation of the node, from 1.
#[derive(Clone, Copy, Debug, PartialEq, Eq)]
pub struct SessionOfScript {
    pub number: u32,
    pub node: u32,
    pub incarnation: u32,
}

/// How many controls and requests a phase of a script has, and how many of its messages may be lost.
#[derive(Clone, Copy, Debug, PartialEq, Eq)]
pub struct PhaseOfScript {
    pub controls: u32,
    pub losses: u32,
    pub requests: u32,
}

/// Whether a statement is what a session asks for.
pub fn is_request(s: &Statement) -> bool
    ensures { result ≡ is_request s.now }
{
    matches!(
        s,
        Statement::Create { .. }
            | Statement::OpenDisk { .. }
            | Statement::Close { .. }
            | Statement::Read { .. }
            | Statement::Write { .. }
            | Statement::Snapshot { .. }
            | Statement::Clone { .. }
            | Statement::Delete { .. }
            | Statement::Check { .. }
    )
}

/// The session that asks; 0 where the statement is no request.
pub fn asking_session(s: &Statement) -> u32
    ensures { result ≡ unwrap_or (session_of s.now) 0 }
{
    match s {
        Statement::Create { session, .. }
        | Statement::OpenDisk { session, .. }
        | Statement::Close { session }
        | Statement::Read { session, .. }
        | Statement::Write { session, .. }
        | Statement::Snapshot { session, .. }
        | Statement::Clone { session, .. }
        | Statement::Delete { session, .. }
        | Statement::Check { session } => *session,
        _ => 0,
    }
}

pub fn nodes_in(statements: &[Statement]) -> u32
    ensures { result ≡ nodes_of statements.now }
{
    statements
        .iter()
        .find_map(nodes_set)
        .unwrap_or(NODES_DEFAULT)
}

pub fn vnodes_in(statements: &[Statement]) -> u16
    ensures { result ≡ vnodes_of statements.now }
{
    statements
        .iter()
        .find_map(vnodes_set)
        .unwrap_or(VNODES_DEFAULT)
}

pub fn tries_in(statements: &[Statement]) -> u32
    ensures { result ≡ tries_of statements.now }
{
    statements
        .iter()
        .find_map(tries_set)
        .unwrap_or(TRIES_DEFAULT)
}

pub fn limit_in(statements: &[Statement]) -> u32
    ensures { result ≡ limit_of statements.now }
{
    statements
        .iter()
        .find_map(limit_set)
        .unwrap_or(LIMIT_DEFAULT)
}

/// The number of opening members that a statement sets.
fn nodes_set(statement: &Statement) -> Option<u32>
    ensures { result ≡ nodes_set statement.now }
{
    match statement {
        Statement::Cluster { nodes } => Some(*nodes),
        _ => None,
    }
}

/// The number of virtual nodes that it sets.
fn vnodes_set(statement: &Statement) -> Option<u16>
    ensures { result ≡ vnodes_set statement.now }
{
    match statement {
        Statement::Vnodes { vnodes } => Some(*vnodes),
        _ => None,
    }
}

/// The number of attempts that it sets.
fn tries_set(statement: &Statement) -> Option<u32>
    ensures { result ≡ tries_set statement.now }
{
    match statement {
        Statement::Tries { tries } => Some(*tries),
        _ => None,
    }
}

/// The number of events that it sets.
fn limit_set(statement: &Statement) -> Option<u32>
    ensures { result ≡ limit_set statement.now }
{
    match statement {
        Statement::Limit { limit } => Some(*limit),
        _ => None,
    }
}
