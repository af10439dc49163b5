//! The words of a world, through its readers.

ghost use Rattle.std.specs.Prelude.{◌≡◌, false};

use crate::entry_words::write_entry;
use crate::input_words::write_input;
use crate::output_words::{outputs_line, write_reply};
use crate::words::write_bytes;
use cluster_script::Script;
use dog_report::push_stored;
use object_id::{NODES_MAX, NoMemory, NodeId};
use sheep_node::{Event, Node, Outputs};
use sheep_world::{World, enabled};
use std::alloc::Global;
use std::fmt::Write;
use trace_text::print_events;

/// Writes the replies to guests that a step gave, each as a line.
pub(crate) fn write_replies(out: &mut String, given: &Outputs) -> Result<(), NoMemory> {
    for (req, reply) in given.replies.as_slice() {
        write!(out, "reply {req} ")?;
        write_reply(out, reply)?;
        out.push('\n')?;
    }
    Ok(())
}

/// Writes a world: the last step, the nodes, the log, the wire, whether all phases are ended, and what may happen.
pub(crate) fn write_world(
    alloc: Global,
    out: &mut String,
    script: &Script,
    world: &World,
) -> Result<(), NoMemory>
    requires { world.now.spent ≡ false }
{
    write_last_step(alloc, out, world)?;
    write_nodes(alloc, out, world)?;
    write_log(out, world)?;
    let count = world.enabled_count(script)?;
    write_wire(out, script, world, count)?;
    if world.ended(script) {
        out.push_str("ended\n")?;
    }
    write_enabled(alloc, out, script, world, count)
}

/// Writes the input and the outputs of the node's step in the last event; nothing if none stepped.
fn write_last_step(alloc: Global, out: &mut String, world: &World) -> Result<(), NoMemory>
    requires { world.now.spent ≡ false }
{
    let Some(input) = world.input() else {
        return Ok(());
    };
    out.push_str("input ")?;
    write_input(alloc, out, input)?;
    out.push('\n')?;
    let line = outputs_line(alloc, world.outputs())?;
    if !line.is_empty() {
        writeln!(out, "outputs {line}")?;
    }
    Ok(())
}

/// Writes lines, of words that are plain text.
fn write_lines(out: &mut String, text: &[u8]) -> Result<(), NoMemory> {
    for byte in text {
        out.push(char::from(*byte))?;
    }
    Ok(())
}

fn write_nodes(alloc: Global, out: &mut String, world: &World) -> Result<(), NoMemory>
    requires { world.now.spent ≡ false }
{
    for number in 0..NODES_MAX {
        write_host(alloc, out, world, NodeId(number))?;
    }
    Ok(())
}

/// Writes the node of a number, if there is one: that it is lost, or how far it is, and its rows.
fn write_host(
    alloc: Global,
    out: &mut String,
    world: &World,
    number: NodeId,
) -> Result<(), NoMemory>
    requires { world.now.spent ≡ false }
{
    let Some(node) = world.node(number) else {
        return Ok(());
    };
    if world.lost(number) {
        writeln!(out, "node {} lost", number.0)?;
        return Ok(());
    }
    write_node(out, number, node)?;
    write_rows(alloc, out, number, node)
}

/// Writes how far a node is: its epochs, how many entries it has read, and how many objects it is still to recover (`-` while its list is
/// unfinished).
fn write_node(out: &mut String, number: NodeId, node: &Node) -> Result<(), NoMemory>
    requires { node.now.spent ≡ false }
{
    let peer = node.peer();
    write!(
        out,
        "node {} epoch {} settled {} read {} pending ",
        number.0,
        peer.epoch().0,
        peer.settled().0,
        node.read_len()
    )?;
    match peer.pending() {
        Some(oids) => writeln!(out, "{}", oids.len())?,
        None => out.push_str("-\n")?,
    }
    Ok(())
}

/// Writes a node's rows, a line each.
fn write_rows(alloc: Global, out: &mut String, number: NodeId, node: &Node) -> Result<(), NoMemory>
    requires { node.now.spent ≡ false }
{
    let mut rows = Vec::new(alloc);
    push_stored(alloc, &mut rows, number, node.peer().store())?;
    write_lines(out, rows.as_slice())
}

fn write_log(out: &mut String, world: &World) -> Result<(), NoMemory>
    requires { world.now.spent ≡ false }
{
    for entry in world.log() {
        out.push_str("entry ")?;
        write_entry(out, entry)?;
        out.push('\n')?;
    }
    Ok(())
}

/// The sender and number of the message that an event delivers or loses.
fn message_of(event: Event) -> Option<(NodeId, u32)> {
    match event {
        Event::Deliver { node, number }
        | Event::LoseRequest { node, number }
        | Event::LoseReply { node, number } => Some((node, number)),
        _ => None,
    }
}

/// Writes the messages in the wire. Each of them may be delivered or lost, so they are those of the events that may happen.
fn write_wire(
    out: &mut String,
    script: &Script,
    world: &World,
    count: usize,
) -> Result<(), NoMemory>
    requires { world.now.spent ≡ false }
{
    let mut last = None;
    for place in 0..count {
        let Some(event) = enabled(script, world, place) else {
            return Ok(());
        };
        let name = message_of(event);
        if name != last {
            write_message(out, world, name)?;
        }
        last = name;
    }
    Ok(())
}

/// Writes the message of a name as a line: the name, and its bytes.
fn write_message(
    out: &mut String,
    world: &World,
    name: Option<(NodeId, u32)>,
) -> Result<(), NoMemory>
    requires { world.now.spent ≡ false }
{
    let Some((sender, number)) = name else {
        return Ok(());
    };
    if let Some(bytes) = world.wire(sender, number) {
        write!(out, "message {}.{number} ", sender.0)?;
        write_bytes(out, bytes.as_slice())?;
        out.push('\n')?;
    }
    Ok(())
}

/// The events that may happen, so many of them.
fn enabled_events(
    alloc: Global,
    script: &Script,
    world: &World,
    count: usize,
) -> Result<Vec<Event>, NoMemory>
    requires { world.now.spent ≡ false }
{
    let mut events = Vec::new(alloc);
    for place in 0..count {
        if let Some(event) = enabled(script, world, place) {
            events.push(event)?;
        }
    }
    Ok(events)
}

/// Writes how many events may happen, and each of them as a line of a trace.
fn write_enabled(
    alloc: Global,
    out: &mut String,
    script: &Script,
    world: &World,
    count: usize,
) -> Result<(), NoMemory>
    requires { world.now.spent ≡ false }
{
    writeln!(out, "enabled {count}")?;
    let events = enabled_events(alloc, script, world, count)?;
    let lines = print_events(alloc, events.as_slice())?;
    write_lines(out, lines.as_slice())
}
