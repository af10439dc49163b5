//! What the world looks up in a script: who asks each request, and what it asks.
ghost use Rattle.std.specs.Prelude.{◌≡◌, ◌+◌, ◌^◌, ◌%◌, ◌<◌, ◌≤◌, false, Some, None, IfOk, if◌then◌else◌};
ghost use Rattle.std.specs.Option.{option_map, option_copied, option_map_or};
ghost use Rattle.object_id.specs.declared.limits.TheConstants.{BLOCK_BYTES};
ghost use Rattle.cluster_script.specs.Statements.{is_check as is_check_statement};
ghost use Rattle.cluster_script.specs.NumberedRequests.{request_at, byte_of, payload_of, is_disk_request as is_disk_statement};
ghost use Rattle.sheep_node.specs.declared.ask.Ask.TheVariants as asks;
ghost use Rattle.sheep_world.specs.Asking.{session_asking, ask_of_statement, input_by, input_of};
ghost use Rattle.sheep_world.specs.Conditions.{is_disk_request_at};

use cluster_script::{Pattern, Script, Statement};
use object_id::{BLOCK_BYTES, Bytes, NoMemory, VdiSpec};
use peer_proto::{DiskAsk, VdiAsk};
use sheep_node::{Ask, Input};
use std::alloc::Global;

/// The session that asks the request of a number; none where the script has no such request.
pub(crate) fn session_asking(script: &Script, req: u32) -> Option<u32>
    ensures { result ≡ session_asking script.now req }
{
    match script.request(req) {
        Some(request) => Some(request.session),
        None => None,
    }
}

/// The statement of the request of a number.
pub(crate) fn statement_of(script: &Script, req: u32) -> Option<&Statement>
    ensures { option_copied result ≡ request_at script.now req }
{
    match script.request(req) {
        Some(request) => Some(request.statement),
        None => None,
    }
}

/// Whether a statement is a read or write.
fn is_disk_statement(statement: &Statement) -> bool
    ensures { result ≡ is_disk_statement statement.now }
{
    matches!(statement, Statement::Read { .. } | Statement::Write { .. })
}

/// Whether a statement is a check.
fn is_check_statement(statement: &Statement) -> bool
    ensures { result ≡ is_check_statement statement.now }
{
    matches!(statement, Statement::Check { .. })
}

/// Whether the request of a number is a read or write.
pub(crate) fn is_disk_request(script: &Script, req: u32) -> bool
    ensures { result ≡ is_disk_request_at script.now req }
{
    match statement_of(script, req) {
        Some(statement) => is_disk_statement(statement),
        None => false,
    }
}

/// Whether the request of a number is a check.
pub(crate) fn is_check_request(script: &Script, req: u32) -> bool
    ensures { result ≡ option_map_or is_check_statement (request_at script.now req) false }
{
    match statement_of(script, req) {
        Some(statement) => is_check_statement(statement),
        None => false,
    }
}

/// The byte that a block of what is written is full of, from 0.
fn byte_of(pattern: Pattern, block: u32) -> u8
    requires { block + 256 < 2 ^ 32 }
    ensures { result ≡ byte_of pattern block }
{
    match pattern {
        Pattern::Fill(byte) => byte,
        Pattern::Step(byte) => ((u32::from(byte) + block) % 256) as u8,
    }
}

/// How many of these bytes of a write, from a place on, are in one block.
fn count_in_block(place: u32, count: u32) -> u32
    ensures block { place % BLOCK_BYTES + result ≤ BLOCK_BYTES }
    ensures within { result ≤ count }
    ensures some { 0 < count → 0 < result }
{
    count.min(BLOCK_BYTES - place % BLOCK_BYTES)
}

/// The bytes of a write of this length, block by block.
pub(crate) fn payload(alloc: Global, pattern: Pattern, length: u32) -> Result<Bytes, NoMemory>
    ensures { IfOk result (λ bytes. bytes ≡ payload_of pattern length) }
{
    let mut bytes = Vec::with_capacity(alloc, length as usize)?;
    let mut done = 0;
    while done < length {
        let byte = byte_of(pattern, done / BLOCK_BYTES);
        done += count_in_block(done, length - done);
        bytes.resize(done as usize, byte)?;
    }
    Ok(Bytes::from_vec(bytes))
}

/// What a read or write asks of its session's open disk.
fn disk_ask(alloc: Global, statement: &Statement) -> Result<Option<Ask>, NoMemory>
    ensures { IfOk result (λ ask. ask ≡ (if is_disk_statement statement.now then ask_of_statement statement.now else None)) }
{
    Ok(match statement {
        Statement::Read { offset, length, .. } => Some(Ask::Disk(DiskAsk::Read {
            offset: *offset,
            length: *length,
        })),
        Statement::Write {
            offset,
            length,
            pattern,
            ..
        } => Some(Ask::Disk(DiskAsk::Write {
            offset: *offset,
            bytes: payload(alloc, *pattern, *length)?,
        })),
        _ => None,
    })
}

/// The command on disks that another request is.
fn command_of(alloc: Global, statement: &Statement) -> Result<Option<VdiAsk>, NoMemory>
    ensures { IfOk result (λ command. option_map (λ ask. asks.Vdi ask) command
        ≡ (if is_disk_statement statement.now then None else ask_of_statement statement.now)) }
{
    Ok(match statement {
        Statement::Create {
            policy,
            shift,
            name,
            size,
            ..
        } => Some(VdiAsk::Create {
            name: name.copy(alloc)?,
            spec: VdiSpec {
                size: *size,
                policy: *policy,
                shift: *shift,
            },
        }),
        Statement::OpenDisk { name, tag, .. } => Some(VdiAsk::Attach {
            name: name.copy(alloc)?,
            tag: Bytes::copy_option(alloc, tag)?,
        }),
        Statement::Close { .. } => Some(VdiAsk::Close),
        Statement::Snapshot { tag, .. } => Some(VdiAsk::Snapshot {
            tag: tag.copy(alloc)?,
        }),
        Statement::Clone {
            base,
            tag,
            name,
            ..
        } => Some(VdiAsk::Clone {
            base: base.copy(alloc)?,
            tag: tag.copy(alloc)?,
            name: name.copy(alloc)?,
        }),
        Statement::Delete { name, tag, .. } => Some(VdiAsk::Delete {
            name: name.copy(alloc)?,
            tag: Bytes::copy_option(alloc, tag)?,
        }),
        Statement::Check { .. } => Some(VdiAsk::Check),
        _ => None,
    })
}

/// What a statement asks, where it is a request.
fn ask_of_statement(alloc: Global, statement: &Statement) -> Result<Option<Ask>, NoMemory>
    ensures { IfOk result (λ ask. ask ≡ ask_of_statement statement.now) }
{
    if is_disk_statement(statement) {
        return disk_ask(alloc, statement);
    }
    match command_of(alloc, statement)? {
        Some(command) => Ok(Some(Ask::Vdi(command))),
        None => Ok(None),
    }
}

/// The input of a request of a session.
fn input_by(
    alloc: Global,
    req: u32,
    session: u32,
    statement: &Statement,
) -> Result<Option<Input>, NoMemory>
    ensures { IfOk result (λ input. input ≡ input_by req (Some session) (ask_of_statement statement.now)) }
{
    match ask_of_statement(alloc, statement)? {
        Some(ask) => Ok(Some(Input::Guest { req, session, ask })),
        None => Ok(None),
    }
}

/// The input of the request of a number; none where the script has no such request. Takes the bytes of a write.
pub fn input_of(alloc: Global, script: &Script, req: u32) -> Result<Option<Input>, NoMemory>
    ensures { IfOk result (λ input. input ≡ input_of script.now req) }
{
    match script.request(req) {
        Some(request) => input_by(alloc, req, request.session, request.statement),
        None => Ok(None),
    }
}
