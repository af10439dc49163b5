ghost use Rattle.std.specs.Prelude.{◌≡◌, ℕ, ◌+◌, ◌^◌, ◌<◌, ◌≤◌, ◌∷◌, ◌++◌, [], length, take, drop, filter, not, count_by, sum_by, unwrap_or};
ghost use Rattle.std.specs.Prelude.{Some, None, IfOk, OnOk, if◌then◌else◌};
ghost use Rattle.std.specs.List.{find, position_or_len};
ghost use Rattle.object_id.specs.declared.limits.TheConstants.{LOSSES_MAX};
ghost use Rattle.cluster_script.specs.declared.statement.Statement.TheVariants as lines;
ghost use Rattle.cluster_script.specs.Statements.{is_setting, is_request};
ghost use Rattle.cluster_script.specs.Phases.{is_barrier, is_control, losses_in, stretches};
ghost use Rattle.cluster_script.specs.Language.{IsScript};
ghost use Rattle.cluster_script.specs.KeptIndex.{control_places, phase_entry, phase_entries};

use crate::index::is_request;
use crate::statement::Statement;
use object_id::{INPUT_BYTES_MAX, Items, NoMemory};
use std::alloc::Global;

/// A phase: its controls and its requests by how many stand before the first one, and how many there are, how many
/// messages may be lost in it, and the barrier that ends it.
#[derive(Debug)]
pub struct PhaseEntry {
    pub controls_before: u32,
    pub controls: u32,
    pub losses: u32,
    pub requests_before: u32,
    pub requests: u32,
    pub barrier: Statement,
}

/// Written out, so that letting one go is one call wherever it is done, and no cases there.
impl Drop for PhaseEntry {
    fn drop(self) {
        let PhaseEntry {
            controls_before: _,
            controls: _,
            losses: _,
            requests_before: _,
            requests: _,
            barrier,
        } = self;
        drop(barrier);
    }
}

/// The phases of a script, in order.
pub fn phase_entries(alloc: Global, statements: &[Statement]) -> Result<Items<PhaseEntry>, NoMemory>
    requires count { length statements.now ≤ INPUT_BYTES_MAX }
    requires script { IsScript statements.now }
    ensures { IfOk result (λ phases. phases ≡ phase_entries 0 0 (stretches (filter (λ s. not (is_setting s)) statements.now))) }
{
    let mut phases = Items::new(alloc);
    let mut rest = &statements[setting_count(statements)..];
    let mut controls = 0;
    let mut requests = 0;
    while !rest.is_empty() {
        let (stretch, after) = rest.split_at(stretch_len(rest));
        let phase = phase_of(controls, requests, stretch);
        controls += phase.controls;
        requests += phase.requests;
        phases.push(phase)?;
        rest = after;
    }
    Ok(phases)
}

/// How many settings stand before every other statement.
fn setting_count(statements: &[Statement]) -> usize
    requires { IsScript statements.now }
    ensures within { result ≤ length statements.now }
    ensures behind { drop result statements.now ≡ filter (λ s. not (is_setting s)) statements.now }
{
    for place in 0..statements.len() {
        if !is_setting(&statements[place]) {
            return place;
        }
    }
    statements.len()
}

/// How many statements the first of their stretches has: those up to a barrier.
fn stretch_len(statements: &[Statement]) -> usize
    requires { 0 < length statements.now }
    ensures some { 0 < result }
    ensures within { result ≤ length statements.now }
    ensures stretch { stretches statements.now ≡ take result statements.now ∷ stretches (drop result statements.now) }
{
    for place in 0..statements.len() {
        if is_barrier(&statements[place]) {
            return place + 1;
        }
    }
    statements.len()
}

/// The phase that a stretch is.
fn phase_of(controls: u32, requests: u32, stretch: &[Statement]) -> PhaseEntry
    requires count { length stretch.now ≤ INPUT_BYTES_MAX }
    requires losses { sum_by losses_in stretch.now ≤ LOSSES_MAX }
    ensures entry { result ≡ phase_entry controls requests stretch.now }
    ensures controls { result.controls ≤ length stretch.now }
    ensures requests { result.requests ≤ length stretch.now }
{
    PhaseEntry {
        controls_before: controls,
        controls: control_count(stretch),
        losses: losses_of(stretch),
        requests_before: requests,
        requests: request_count(stretch),
        barrier: barrier_of(stretch),
    }
}

/// How many controls there are among statements.
fn control_count(statements: &[Statement]) -> u32
    requires { length statements.now ≤ INPUT_BYTES_MAX }
    ensures within { result ≤ length statements.now }
    ensures count { result ≡ count_by is_control statements.now }
{
    let mut count = 0;
    for s in statements {
        if is_control(s) {
            count += 1;
        }
    }
    count
}

/// How many requests there are among statements.
fn request_count(statements: &[Statement]) -> u32
    requires { length statements.now ≤ INPUT_BYTES_MAX }
    ensures within { result ≤ length statements.now }
    ensures count { result ≡ count_by is_request statements.now }
{
    let mut count = 0;
    for s in statements {
        if is_request(s) {
            count += 1;
        }
    }
    count
}

/// How many messages may be lost by statements.
fn losses_of(statements: &[Statement]) -> u32
    requires { sum_by losses_in statements.now ≤ LOSSES_MAX }
    ensures { result ≡ sum_by losses_in statements.now }
{
    let mut losses = 0;
    for s in statements {
        losses += losses_in(s);
    }
    losses
}

/// How many messages may be lost by a statement.
fn losses_in(s: &Statement) -> u32
    ensures { result ≡ losses_in s.now }
{
    match s {
        Statement::Lose { count } => *count,
        _ => 0,
    }
}

/// The first barrier among statements; without one they end by settling.
fn barrier_of(statements: &[Statement]) -> Statement
    ensures { result ≡ unwrap_or (find is_barrier statements.now) lines.Settle }
{
    for s in statements {
        if let Some(barrier) = barrier(s) {
            return barrier;
        }
    }
    Statement::Settle
}

/// A copy of a statement, if it is a barrier.
pub fn barrier(s: &Statement) -> Option<Statement>
    ensures { result ≡ (if is_barrier s.now then Some s.now else None) }
{
    match s {
        Statement::Settle => Some(Statement::Settle),
        Statement::ListNodes => Some(Statement::ListNodes),
        Statement::ListVdis => Some(Statement::ListVdis),
        Statement::ClusterInfo => Some(Statement::ClusterInfo),
        Statement::Dump => Some(Statement::Dump),
        _ => None,
    }
}

/// Whether a statement ends its phase.
pub fn is_barrier(s: &Statement) -> bool
    ensures { result ≡ is_barrier s.now }
{
    matches!(
        s,
        Statement::Settle
            | Statement::ListNodes
            | Statement::ListVdis
            | Statement::ClusterInfo
            | Statement::Dump
    )
}

fn is_control(s: &Statement) -> bool
    ensures { result ≡ is_control s.now }
{
    matches!(
        s,
        Statement::Fail { .. }
            | Statement::Join { .. }
            | Statement::Reweight { .. }
            | Statement::Back { .. }
    )
}

fn is_setting(s: &Statement) -> bool
    ensures { result ≡ is_setting s.now }
{
    matches!(
        s,
        Statement::Cluster { .. }
            | Statement::Vnodes { .. }
            | Statement::Tries { .. }
            | Statement::Limit { .. }
            | Statement::Zone { .. }
    )
}

/// The places of the controls among statements, in order.
pub fn control_places(alloc: Global, statements: &[Statement]) -> Result<Items<u32>, NoMemory>
    requires { length statements.now ≤ INPUT_BYTES_MAX }
    ensures { IfOk result (λ places. places ≡ control_places 0 statements.now) }
{
    let mut places = Items::new(alloc);
    let mut place = 0;
    for s in statements {
        add_control(&mut places, place, s)?;
        place += 1;
    }
    Ok(places)
}

/// Adds the place of a statement, if it is a control.
fn add_control(places: &mut Items<u32>, place: u32, s: &Statement) -> Result<(), NoMemory>
    ensures { OnOk result (places.new ≡ places.old ++ (if is_control s.now then place ∷ [] else [])) }
{
    if is_control(s) {
        places.push(place)?;
    }
    Ok(())
}
