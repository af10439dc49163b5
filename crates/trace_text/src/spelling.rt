//! Events, spelled.

ghost use Rattle.std.specs.Prelude.{◌≡◌, ◌++◌, decimal, IfOk, OnOk};
ghost use Rattle.trace_text.specs.Spelling.{name_text, event_text, trace_text_of};

use itoa::Buffer;
use object_id::{Bytes, NoMemory, NodeId};
use sheep_node::Event;
use sheep_world::Run;
use std::alloc::Global;

/// A line for each event.
pub fn print_events(alloc: Global, events: &[Event]) -> Result<Bytes, NoMemory>
    ensures { IfOk result (λ text. text ≡ trace_text_of events.now) }
{
    let mut text = Vec::new(alloc);
    for event in events {
        push_event(&mut text, *event)?;
        text.push(b'\n')?;
    }
    Ok(Bytes::from_vec(text))
}

/// The trace of a run.
pub fn print_trace(alloc: Global, run: &Run) -> Result<Bytes, NoMemory>
    ensures { IfOk result (λ text. text ≡ trace_text_of run.now.events) }
{
    print_events(alloc, run.events())
}

/// Adds an event's text.
fn push_event(text: &mut Vec<u8>, event: Event) -> Result<(), NoMemory>
    ensures { OnOk result (text.new.items ≡ text.old.items ++ event_text event) }
{
    match event {
        Event::Guest { session } => push_number(text, b"guest ", session),
        Event::Deliver { node, number } => push_name(text, b"deliver ", node, number),
        Event::LoseRequest { node, number } => push_name(text, b"loserequest ", node, number),
        Event::LoseReply { node, number } => push_name(text, b"losereply ", node, number),
        Event::LogNext { node } => push_number(text, b"log ", node.0),
        Event::Put { node } => push_number(text, b"put ", node.0),
        Event::RecoverTick { node } => push_number(text, b"recover ", node.0),
        Event::RetryTick { node } => push_number(text, b"retry ", node.0),
        Event::Lost { node } => push_number(text, b"lost ", node.0),
        Event::Leave { node } => push_number(text, b"leave ", node.0),
        Event::Join { node } => push_number(text, b"join ", node.0),
        Event::Reweight { node } => push_number(text, b"reweight ", node.0),
        Event::Back { node } => push_number(text, b"back ", node.0),
        Event::Phase => Ok(text.extend_from_slice(b"phase")?),
    }
}

/// Adds what stands before a number, and the number.
fn push_number(text: &mut Vec<u8>, before: &[u8], number: u32) -> Result<(), NoMemory>
    ensures { OnOk result (text.new.items ≡ text.old.items ++ (before.now ++ decimal number)) }
{
    let mut buffer = Buffer::new();
    text.extend_from_slice(before)?;
    text.extend_from_slice(buffer.format(number).as_bytes())?;
    Ok(())
}

/// Adds what stands before a message's name, and the name.
fn push_name(text: &mut Vec<u8>, before: &[u8], sender: NodeId, number: u32) -> Result<(), NoMemory>
    ensures { OnOk result (text.new.items ≡ text.old.items ++ (before.now ++ name_text sender number)) }
{
    push_number(text, before, sender.0)?;
    push_number(text, b".", number)
}
